ghost use Rattle.std.specs.Prelude.{◌≡◌, IfOk};
ghost use Rattle.object_tree.specs.First.{first_store, content_item};

use crate::context::Context;
use crate::declaring::new_properties;
use crate::instance::{Instance, Object};
use crate::names::Names;
use crate::row::Row;
use arena::Arena;
use indexmap::IndexSet;
use qml_ast::{Place, Value};
use std::alloc::{AllocError, Global};
use std::marker::Model;
use type_table::BuiltIn;

/// The objects of a running program, under their serials, and the contexts in which they were made.
/// Contracts see them as a `Store`.
#[derive(Drop)]
pub struct Objects {
    pub(crate) objects: Arena<Instance>,
    pub(crate) contexts: Row<Context>,
    // The number of the present settle.
    pub(crate) settle: u64,
    // The places of the anchors that the last settle ignored.
    pub(crate) ignored: IndexSet<Place>,
    // What references to objects that are no more are read as.
    pub(crate) null: Value,
    pub(crate) no_line: Value,
}

impl Model for Objects {
    ghost use Rattle.std.specs.Coded.{codes};
    ghost use Rattle.qml_ast.specs.contracts.expr.Expr as expr;
    ghost use Rattle.qml_types.specs.contracts.component.ComponentType as component;
    ghost use Rattle.object_tree.specs.Store.{Store, IsNull};

    ghost Value = { Store };

    ghost coded = { Prim.hlevel (codes, expr.the_row.coded, component.the_row.coded) };

    ghost view = { λ o. record { objects = o.objects; contexts = o.contexts; settle = o.settle; ignored = o.ignored.keys } };

    ghost invariant = { λ o. IsNull o.null o.no_line };
}

#[tactic(auto, unfolding(crate::specs::First::content_item))]
// The content item: the item in which the root of a document stands.
fn content_item(alloc: Global) -> Result<Instance, AllocError>
    ensures { IfOk result (λ instance. instance ≡ content_item) }
{
    let properties = new_properties(alloc, 1, 1, BuiltIn::Item)?;
    Ok(Instance {
        object: Object {
            serial: 1,
            parent: None,
        },
        built_in: BuiltIn::Item,
        depth: 0,
        layers: Row::new(alloc),
        names: Names::new(alloc),
        signals: 0,
        methods: 0,
        item_parent: None,
        children: Row::new(alloc),
        properties,
    })
}

impl Objects {
    /// The content item alone, as serial 1. Its width and height are 0.
    pub fn new(alloc: Global) -> Result<Objects, AllocError>
        ensures { IfOk result (λ objects. objects ≡ first_store) }
    {
        let mut objects = Arena::new(alloc);
        objects.insert(content_item(alloc)?)?;
        Ok(Objects {
            objects,
            contexts: Row::new(alloc),
            settle: 1,
            ignored: IndexSet::new(alloc),
            null: Value::Obj(0),
            no_line: Value::Line(None),
        })
    }
}
