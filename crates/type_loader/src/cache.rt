ghost use Rattle.std.specs.Prelude.{◌≡◌, [], None, IfOk, OnOk, OnErr};
ghost use Rattle.type_loader.specs.Entries.{document_in, with_document};

use indexmap::IndexMap;
use qml_ast::{Document, Name};
use shared_value::Shared;
use std::alloc::{AllocError, Global};
use std::marker::Model;

/// The documents that were parsed, by their files. Contracts see them as a list of pairs, in the order
/// in which they came.
#[derive(Drop)]
pub struct Cache {
    documents: IndexMap<Name, Shared<Document>>,
}

impl Model for Cache {
    ghost use Rattle.std.specs.Coded.{coded×, coded_list, coded_ℕ};
    ghost use Rattle.qml_ast.specs.contracts.document.Document as document;
    ghost use Rattle.type_loader.specs.Entries.{Entries};

    ghost Value = { Entries };

    ghost coded = { coded_list (coded× (coded_list coded_ℕ) document.the_row.coded) };

    ghost view = { λ c. c.documents.entries };
}

impl Cache {
    /// No documents.
    pub fn new(alloc: Global) -> Cache
        ensures { result ≡ [] }
    {
        Cache {
            documents: IndexMap::new(alloc),
        }
    }

    /// The document of that file, or none where it is not kept. The only error is that it has too many
    /// owners.
    pub(crate) fn get(&self, file: &Name) -> Result<Option<Shared<Document>>, AllocError>
        ensures { IfOk result (λ found. found ≡ document_in self.now file.now) }
    {
        match self.documents.get(file) {
            Some(document) => Ok(Some(document.share()?)),
            None => Ok(None),
        }
    }

    /// Keeps a document. The only error is that memory ran out, and then nothing has changed.
    #[tactic(auto, using(crate::proofs::Keeping::inserted))]
    pub(crate) fn keep(&mut self, file: Name, document: Shared<Document>) -> Result<(), AllocError>
        requires { document_in self.old file ≡ None }
        ensures ok { OnOk result (self.new ≡ with_document self.old file document) }
        ensures err { OnErr result (self.new ≡ self.old) }
    {
        self.documents.insert(file, document)?;
        Ok(())
    }
}
