ghost use Rattle.std.specs.Prelude.{◌≡◌, ◌<◌, length, fold, IfSome};
ghost use Rattle.unit_check.specs.Unrun.{earlier, is_run_type, object_place, first_place, first_unrun};

use qml_ast::Span;
use qml_types::{Base, ComponentType, ObjectDecl};
use shared_value::Shared;
use type_table::BuiltIn;

/// A place of a document that isn't run.
#[derive(Clone, Copy)]
pub struct Unrun {
    /// The document's number.
    pub document: usize,
    /// The place of a type's name.
    pub at: Span,
}

// Notes a place, if it is the first.
#[tactic(auto, unfolding(crate::specs::Unrun::earlier))]
fn note(at: Span, first: &mut Option<Span>)
    ensures { first.new ≡ earlier first.old at }
{
    let is_first = match first {
        Some(found) => at < *found,
        None => true,
    };
    if is_first {
        *first = Some(at);
    }
}

fn is_run_type(base: &Base) -> bool
    ensures { result ≡ is_run_type base.now }
{
    match base {
        Base::BuiltIn(built_in) => matches!(
            built_in,
            BuiltIn::QtObject | BuiltIn::Item | BuiltIn::Rectangle
        ),
        Base::Document(_) => true,
    }
}

// Notes an object's type name where that isn't run.
#[tactic(auto, unfolding(crate::specs::Unrun::object_place))]
fn note_object(object: &ObjectDecl, first: &mut Option<Span>)
    ensures { first.new ≡ fold earlier first.old (object_place object.now) }
{
    if !is_run_type(&object.base) {
        note(object.span, first);
    }
}

// The first place of a document that isn't run.
fn first_place(component: &ComponentType) -> Option<Span>
    ensures { result ≡ first_place component.now }
{
    let mut first = None;
    for object in component.objects.as_slice() {
        note_object(object, &mut first);
    }
    first
}

/// The first place that isn't run yet of lawful documents, whose component types these are: of the first
/// document that has one, which is told by its number from 0, the first by line and column.
///
/// Not run are the built-in types but `QtObject`, `Item` and `Rectangle`: each object of one has the place of its
/// type's name.
pub fn first_unrun(components: &[Shared<ComponentType>]) -> Option<Unrun>
    ensures first { result ≡ first_unrun components.now }
    ensures within { IfSome result (λ place. place.document < length components.now) }
{
    for (document, component) in components.iter().enumerate() {
        if let Some(at) = first_place(component.get()) {
            return Some(Unrun { document, at });
        }
    }
    None
}
