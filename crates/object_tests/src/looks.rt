//! What names stand for in documents.

use crate::makes::{Case, held};
use crate::steps::Step;
use expr_eval::{Found, Frame, GlobalName, GroupName};
use qml_ast::{Place, Side};
use std::test::Fail;

/// The context, the object in which the expression stands, the name, and what that stands for.
macro_rules! name {
    ($context:literal, $scope:literal, $name:literal => $found:expr) => {
        Step::Name(
            Frame {
                context: $context,
                scope: $scope,
            },
            $name,
            $found,
        )
    };
}

macro_rules! place {
    ($serial:literal, $slot:literal) => {
        Found::Place(Place {
            serial: $serial,
            slot: $slot,
            side: Side::Shown,
        })
    };
}

// The names of two documents, and what each stands for.
static NAMES: Case = Case {
    first: "Item { id: root; property int bar; signal hit; function f() { } Item { id: inner } }",
    text: "Item { id: root; property int foo; A { id: a; property int more } Rectangle { id: b } }",
    steps: &[
        name!(1, 2, "root" => Found::Object(2)),
        name!(2, 3, "root" => Found::Object(3)),
        name!(2, 4, "inner" => Found::Object(4)),
        name!(1, 5, "inner" => Found::None),
        name!(1, 5, "a" => Found::Object(3)),
        name!(2, 4, "a" => Found::None),
        name!(1, 5, "foo" => place!(2, 37)),
        name!(2, 4, "foo" => Found::None),
        name!(2, 4, "bar" => place!(3, 37)),
        name!(1, 5, "bar" => Found::None),
        name!(1, 3, "bar" => place!(3, 37)),
        name!(2, 4, "more" => place!(3, 38)),
        name!(1, 5, "more" => Found::None),
        name!(1, 5, "x" => place!(5, 2)),
        name!(2, 4, "hit" => Found::Signal(3, 0)),
        name!(2, 4, "f" => Found::Method(3, 0)),
        name!(1, 5, "border" => Found::Group(5, GroupName::Border)),
        name!(1, 3, "border" => Found::None),
        name!(1, 5, "anchors" => Found::Group(5, GroupName::Anchors)),
        name!(1, 5, "Math" => Found::Global(GlobalName::Math)),
        name!(1, 5, "Foo" => Found::None),
        name!(9, 9, "root" => Found::None),
    ],
};

#[test]
fn names_stand_for_what_their_documents_have(rt: HostRuntime) -> Result<(), Fail> {
    let held = held(rt.alloc(), &NAMES)?;
    assert_eq!(rt; held, NAMES.steps.len());
    Ok(())
}
