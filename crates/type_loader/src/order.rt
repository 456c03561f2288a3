ghost use Rattle.std.specs.Prelude.{◌≡◌, IfOk, OnOk};
ghost use Rattle.type_loader.specs.Order.{post, in_order};

use crate::cycle::mentioned_by;
use crate::names::Names;
use crate::source::Source;
use qml_ast::Name;
use std::alloc::{AllocError, Global};

/// The names of the documents in postorder of mentions, the first document's at the end.
pub(crate) fn in_order(alloc: Global, sources: &[Source], root: &Name) -> Result<Names, AllocError>
    ensures { IfOk result (λ order. order ≡ in_order root.now sources.now) }
{
    let mut done = Names::new(alloc);
    visit(alloc, sources, sources.len(), root, &mut done)?;
    Ok(done)
}

/// Adds the names that one leads to in postorder, over paths of so many levels, and the name itself.
#[tactic(auto, using(crate::proofs::Posting::post_none, crate::proofs::Posting::post_done, crate::proofs::Posting::post_more))]
fn visit(
    alloc: Global,
    sources: &[Source],
    levels: usize,
    name: &Name,
    done: &mut Names,
) -> Result<(), AllocError>
    ensures { OnOk result (done.new ≡ post sources.now levels done.old name.now) }
{
    if levels == 0 || done.has(name) {
        return Ok(());
    }
    for mention in mentioned_by(sources, name) {
        visit(alloc, sources, levels - 1, &mention.name, done)?;
    }
    done.add(name.copy(alloc)?)
}
