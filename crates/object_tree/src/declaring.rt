ghost use Rattle.std.specs.Prelude.{◌≡◌, ◌+◌, ◌<◌, ◌++◌, ◌∷◌, [], bytes_eq, fold, map, length, option_map, OnOk, IfOk};
ghost use Rattle.type_table.specs.Slots.{slots, find_slot};
ghost use Rattle.qml_types.specs.Scope.{dotted};
ghost use Rattle.qml_types.specs.declared.component.ObjectDecl.{out-ObjectDecl};
ghost use Rattle.std.specs.Prelude.{Some, None, true, if◌then◌else◌};
ghost use Rattle.object_tree.specs.Names.{named, with_name};
ghost use Rattle.object_tree.specs.Making.{edge_of, initial_value, fresh, new_property, with_new, new_properties, number_of, slot_among, slot_under, with_declared_slot, with_declared_signal, with_declared_method, with_binding, with_slot_under, with_init, with_layer, with_features, layered, is_replaced, is_bound_over, with_given, with_object, given_object, is_child};

use crate::instance::{Feature, Instance, Layer};
use crate::property::{Binding, Held, Marks, Property};
use crate::row::Row;
use expr_eval::Frame;
use qml_ast::{Edge, LineRef, Name, Path, Text, Value};
use qml_types::{InitDecl, MethodDecl, ObjectDecl, Role, SignalDecl, SlotDecl};
use std::alloc::{AllocError, Global};
use type_table::item_slots::{BOTTOM, HORIZONTAL_CENTER, LEFT, RIGHT, TOP};
use type_table::{BuiltIn, Initial, SlotInfo, find, slot_at, slot_count, slot_path};

// The line that a slot of items has the number of.
fn edge_of(slot: u32) -> Edge
    ensures { result ≡ edge_of slot }
{
    if slot == LEFT {
        Edge::Left
    } else if slot == RIGHT {
        Edge::Right
    } else if slot == TOP {
        Edge::Top
    } else if slot == BOTTOM {
        Edge::Bottom
    } else if slot == HORIZONTAL_CENTER {
        Edge::HCenter
    } else {
        Edge::VCenter
    }
}

// What a slot of this object holds at first. It takes no memory.
fn initial_value(alloc: Global, serial: u64, slot: u32, initial: Initial) -> Value
    ensures { result ≡ initial_value serial slot initial }
{
    match initial {
        Initial::Int(n) => Value::Int(n),
        Initial::Bool(b) => Value::Bool(b),
        Initial::Empty => Value::Str(Text::from_string(String::new(alloc))),
        Initial::Color(argb) => Value::Color(argb),
        Initial::Null => Value::Obj(0),
        Initial::NoLine => Value::Line(None),
        Initial::OwnLine => {
            let edge = edge_of(slot);
            Value::Line(Some(LineRef { serial, edge }))
        }
    }
}

// A value without marks.
fn fresh(value: Value) -> Held
    ensures { result ≡ fresh value }
{
    Held {
        value,
        marks: Marks {
            suspended: false,
            fault: None,
        },
    }
}

// A slot of an object that was made in this settle.
fn new_property(alloc: Global, settle: u64, serial: u64, slot: u32, info: SlotInfo) -> Property
    ensures { result ≡ new_property settle serial slot info }
{
    let set = if info.sided {
        Some(fresh(initial_value(alloc, serial, slot, info.initial)))
    } else {
        None
    };
    Property {
        info,
        set,
        shown: fresh(initial_value(alloc, serial, slot, info.initial)),
        binding: None,
        is_given: false,
        written_in: settle,
        before: None,
    }
}

// The number of a further slot. There is none after 2^32 slots.
fn next_slot(properties: &Row<Property>) -> Result<u32, AllocError>
    ensures { IfOk result (λ slot. slot ≡ length properties.now) }
{
    match u32::try_from(properties.len()) {
        Ok(slot) => Ok(slot),
        Err(_) => Err(AllocError),
    }
}

// Adds a slot.
fn add_property(
    alloc: Global,
    settle: u64,
    serial: u64,
    properties: &mut Row<Property>,
    info: SlotInfo,
) -> Result<(), AllocError>
    ensures { OnOk result (properties.new ≡ with_new settle serial properties.old info) }
{
    let slot = next_slot(properties)?;
    properties.push(new_property(alloc, settle, serial, slot, info))
}

/// The slots of an object of a built-in type.
pub(crate) fn new_properties(
    alloc: Global,
    settle: u64,
    serial: u64,
    built_in: BuiltIn,
) -> Result<Row<Property>, AllocError>
    ensures { IfOk result (λ properties. properties ≡ new_properties settle serial built_in) }
{
    let mut properties = Row::new(alloc);
    for slot in 0..slot_count(built_in) {
        let info = slot_at(built_in, slot);
        add_property(alloc, settle, serial, &mut properties, info)?;
    }
    Ok(properties)
}

// Whether a path is these two names with a dot between them.
fn is_dotted(path: &[u8], first: &[u8], second: &[u8]) -> bool
    ensures { result ≡ bytes_eq path.now (dotted first.now second.now) }
{
    match (path, first) {
        ([letter, path @ ..], [other, first @ ..]) => {
            letter == other && is_dotted(path, first, second)
        }
        ([dot, path @ ..], []) => *dot == b'.' && path == second,
        _ => false,
    }
}

/// The slot of a built-in type in a group. It takes no memory.
pub(crate) fn find_dotted(built_in: BuiltIn, first: &str, second: &str) -> Option<u32>
    ensures { result ≡ option_map number_of (find_slot built_in (dotted first.now second.now)) }
{
    for slot in 0..slot_count(built_in) {
        let path = slot_path(built_in, slot);
        if is_dotted(path.as_bytes(), first.as_bytes(), second.as_bytes()) {
            return Some(slot);
        }
    }
    None
}

impl Instance {
    // The slot that a declared name stands for.
    fn declared_slot(&self, name: &Name) -> Option<u32>
        ensures { result ≡ slot_among (named name.now self.now.names) }
    {
        match self.names.get(name) {
            Some(Feature::Slot(slot)) => Some(*slot),
            _ => None,
        }
    }

    /// The slot under a name, where there is one.
    pub(crate) fn slot_named(&self, name: &Name) -> Option<u32>
        ensures { result ≡ slot_under self.now name.now None }
    {
        match find(self.built_in, name.as_str()) {
            Some(slot) => Some(slot.index),
            None => self.declared_slot(name),
        }
    }

    /// The slot under a path, where there is one.
    pub(crate) fn slot_under(&self, path: &Path) -> Option<u32>
        ensures { result ≡ slot_under self.now path.now.first path.now.second }
    {
        match &path.second {
            Some(second) => find_dotted(self.built_in, path.first.as_str(), second.as_str()),
            None => self.slot_named(&path.first),
        }
    }
}

// A signal's or a method's number, as one more.
fn next_number(number: u32) -> Result<u32, AllocError>
    ensures { IfOk result (λ next. next ≡ number + 1) }
{
    match number.checked_add(1) {
        Some(next) => Ok(next),
        None => Err(AllocError),
    }
}

impl Instance {
    // Adds a declared slot.
    fn declare_slot(
        &mut self,
        alloc: Global,
        settle: u64,
        decl: &SlotDecl,
    ) -> Result<(), AllocError>
        ensures { OnOk result (self.new ≡ with_declared_slot settle self.old decl.now) }
    {
        let slot = next_slot(&self.properties)?;
        let serial = self.object.serial;
        let info = SlotInfo {
            kind: decl.kind,
            initial: decl.initial,
            read_only: decl.read_only,
            sided: false,
        };
        add_property(alloc, settle, serial, &mut self.properties, info)?;
        self.names
            .insert(decl.name.copy(alloc)?, Feature::Slot(slot))
    }

    // Adds a declared signal.
    fn declare_signal(&mut self, alloc: Global, decl: &SignalDecl) -> Result<(), AllocError>
        ensures { OnOk result (self.new ≡ with_declared_signal self.old decl.now) }
    {
        let number = self.signals;
        self.signals = next_number(number)?;
        self.names
            .insert(decl.name.copy(alloc)?, Feature::Signal(number))
    }

    // Adds a declared method.
    fn declare_method(&mut self, alloc: Global, decl: &MethodDecl) -> Result<(), AllocError>
        ensures { OnOk result (self.new ≡ with_declared_method self.old decl.now) }
    {
        let number = self.methods;
        self.methods = next_number(number)?;
        self.names
            .insert(decl.name.copy(alloc)?, Feature::Method(number))
    }

    // Adds the slots that a declaration has.
    fn declare_slots(
        &mut self,
        alloc: Global,
        settle: u64,
        decls: &[SlotDecl],
    ) -> Result<(), AllocError>
        ensures { OnOk result (self.new ≡ fold (with_declared_slot settle) self.old decls.now) }
    {
        for decl in decls {
            self.declare_slot(alloc, settle, decl)?;
        }
        Ok(())
    }

    // Adds the signals that a declaration has.
    fn declare_signals(&mut self, alloc: Global, decls: &[SignalDecl]) -> Result<(), AllocError>
        ensures { OnOk result (self.new ≡ fold with_declared_signal self.old decls.now) }
    {
        for decl in decls {
            self.declare_signal(alloc, decl)?;
        }
        Ok(())
    }

    // Adds the methods that a declaration has.
    fn declare_methods(&mut self, alloc: Global, decls: &[MethodDecl]) -> Result<(), AllocError>
        ensures { OnOk result (self.new ≡ fold with_declared_method self.old decls.now) }
    {
        for decl in decls {
            self.declare_method(alloc, decl)?;
        }
        Ok(())
    }

    // Binds a slot to an expression, if there is such a slot.
    fn bind(&mut self, context: u64, init: &InitDecl) -> Result<(), AllocError>
        ensures { OnOk result (self.new ≡ with_init context self.old init.now) }
    {
        let scope = self.object.serial;
        let expr = init.expr.share()?;
        let Some(slot) = self.slot_under(&init.path) else {
            return Ok(());
        };
        let Some(property) = self.properties.get_mut(slot as usize) else {
            return Ok(());
        };
        property.bind(Binding {
            expr,
            frame: Frame { context, scope },
            span: init.span,
        });
        Ok(())
    }

    // Binds slots to expressions.
    fn bind_all(&mut self, context: u64, inits: &[InitDecl]) -> Result<(), AllocError>
        ensures { OnOk result (self.new ≡ fold (with_init context) self.old inits.now) }
    {
        for init in inits {
            self.bind(context, init)?;
        }
        Ok(())
    }

    /// Adds what one component declares of the object.
    #[tactic(auto, unfolding(crate::specs::Making::layered))]
    pub(crate) fn add_layer(
        &mut self,
        alloc: Global,
        settle: u64,
        layer: Layer,
        decl: &ObjectDecl,
    ) -> Result<(), AllocError>
        ensures { OnOk result (self.new ≡ layered settle layer decl.now self.old) }
    {
        let context = layer.context;
        self.layers.push(layer)?;
        self.declare_slots(alloc, settle, decl.slots.as_slice())?;
        self.declare_signals(alloc, decl.signals.as_slice())?;
        self.declare_methods(alloc, decl.methods.as_slice())?;
        self.bind_all(context, decl.inits.as_slice())
    }
}

impl Property {
    // Binds the slot to an expression.
    fn bind(&mut self, binding: Binding)
        ensures { self.new ≡ record self.old { binding = Some binding; is_given = true } }
    {
        self.binding = Some(binding);
        self.is_given = true;
    }

    // Whether the slot is bound by a context that comes after this one.
    fn is_bound_over(&self, context: u64, layers: &[Layer]) -> bool
        ensures { result ≡ is_bound_over context layers.now self.now }
    {
        match &self.binding {
            Some(binding) => is_replaced(context, binding.frame.context, layers),
            None => false,
        }
    }

    // Gives the slot an object, if no context that comes after this one binds it.
    fn give(&mut self, is_bound_over: bool, serial: u64)
        ensures { self.new ≡ if is_bound_over then self.old else with_given serial self.old }
    {
        if is_bound_over {
            return;
        }
        self.binding = None;
        self.is_given = true;
        self.shown.value = Value::Obj(serial);
    }
}

// Whether what this context gives is replaced by what the other one gives.
fn is_replaced(context: u64, other: u64, layers: &[Layer]) -> bool
    ensures { result ≡ is_replaced context other layers.now }
{
    for layer in layers {
        if layer.context == other {
            return false;
        }
        if layer.context == context {
            return true;
        }
    }
    false
}

impl Instance {
    /// Gives an object to the slot whose value it is, if it is one, unless a context that comes after this one
    /// binds that slot.
    pub(crate) fn give_object(&mut self, context: u64, serial: u64, role: &Role)
        ensures { self.new ≡ given_object context serial role.now self.old }
    {
        let Role::Value(path) = role else {
            return;
        };
        let Some(slot) = self.slot_under(path) else {
            return;
        };
        let Some(property) = self.properties.get_mut(slot as usize) else {
            return;
        };
        let is_bound_over = property.is_bound_over(context, self.layers.as_slice());
        property.give(is_bound_over, serial);
    }
}

/// Whether an object of that role is a child, and not the value of a slot.
pub(crate) fn is_child(role: &Role) -> bool
    ensures { result ≡ is_child role.now }
{
    !matches!(role, Role::Value(_))
}
