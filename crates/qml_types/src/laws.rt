//! What holds of all documents, whoever compiles them. The function does nothing; its contract is a law.

ghost use Rattle.std.specs.Prelude.{◌≡◌, ◌≢◌, ℕ, List, [], Result};
ghost use Rattle.qml_ast.specs.declared.document.Document.{Document};
ghost use Rattle.qml_ast.specs.declared.fault.DocFault.{DocFault};
ghost use Rattle.qml_ast.specs.declared.fault.DocFault.TheVariants.{NoMemory};
ghost use Rattle.qml_types.specs.Compiled.{compiled, faults_of, Gives};
ghost use Rattle.qml_types.specs.Faults.{IsFirstOf};
ghost use Rattle.qml_types.specs.Known.{KnownTypes};
ghost use Rattle.qml_types.specs.declared.component.ComponentType.{ComponentType};

/// The fault that `compile` answers, unless memory ran out, is one of all unlawful declarations of the
/// document, and none of these stands before it. There is a component type exactly where there is no unlawful
/// declaration: where one is answered there is none, and where there is none only memory can have run out.
pub fn first_of_all()
    ensures fault { (file : List ℕ) (document : Document) (known : KnownTypes) (fault : DocFault) → fault ≢ NoMemory → Gives (compiled file document known) (Err fault) → IsFirstOf (faults_of document known) fault }
    ensures lawful { (file : List ℕ) (document : Document) (known : KnownTypes) (component : ComponentType) → Gives (compiled file document known) (Ok component) → faults_of document known ≡ [] }
    ensures made { (file : List ℕ) (document : Document) (known : KnownTypes) (fault : DocFault) → faults_of document known ≡ [] → Gives (compiled file document known) (Err fault) → fault ≡ NoMemory }
{}
