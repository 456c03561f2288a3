ghost use Rattle.std.specs.Prelude.{◌≡◌, ◌-◌, Some, None, if◌then◌else◌, length, option_copied, slice_get, unwrap_or, OnOk, OnErr, IfOk};
ghost use Rattle.std.specs.Option.{option_map};
ghost use Rattle.object_tree.specs.Reading.{instance_at};
ghost use Rattle.object_tree.specs.Store.{Store};
ghost use Rattle.object_tree.specs.Writing.{with_instance};
ghost use Rattle.object_tree.specs.Making.{given_object, is_child};
ghost use Rattle.object_tree.specs.Growing.{depth_below, is_visual_in, in_parent, shown_as_parent, new_instance, with_child, next_serial, born, with_serial, with_id, new_context, with_context, last_context, with_changed_context, context_at, serials_of, owner_in, serial_in, declared, grower_of, grower_under, object_rooted, object_placed, with_grown, object_grower};
ghost use Rattle.qml_types.specs.Sized.{IsSized};
ghost use Rattle.qml_types.specs.declared.component.ObjectDecl.{out-ObjectDecl};
ghost use Rattle.object_tree.specs.Growing.{grown};
ghost use Rattle.object_tree.specs.Limits.{is_full, depth_of, is_deep, make_fault, Tells, Makes};
ghost use Rattle.object_tree.specs.Undoing.{GoesOn, Anywhere, IsNew, IsOwner, AreNew, IsLastOf, documents_of, documents_under};

use crate::context::Context;
use crate::declaring::{is_child, new_properties};
use crate::fault::MakeFault;
use crate::instance::{Instance, Layer, Object};
use crate::names::Names;
use crate::objects::Objects;
use crate::property::Property;
use crate::row::Row;
use qml_ast::{Name, Value};
use qml_types::{Base, ComponentType, ObjectDecl, Role};
use shared_value::Shared;
use std::alloc::{AllocError, Global};
use type_table::item_slots::PARENT;
use type_table::{BuiltIn, is_item, method_count, signal_count};

// How many objects may be live.
const MOST_OBJECTS: u64 = 100_000;

// How many levels below its content item an object may stand.
const MOST_LEVELS: u64 = 256;

// How many objects own one that stands in this.
fn depth_below(above: Option<&Instance>) -> u32
    ensures { result ≡ depth_below (option_copied above.entry) }
{
    match above {
        Some(instance) => instance.depth.saturating_add(1),
        None => 0,
    }
}

// Whether an object of that type is a visual child in this.
fn is_visual_in(as_child: bool, built_in: BuiltIn, above: Option<&Instance>) -> bool
    ensures { result ≡ is_visual_in as_child built_in (option_copied above.entry) }
{
    match above {
        Some(instance) => as_child && is_item(built_in) && is_item(instance.built_in),
        None => false,
    }
}

// An object of a built-in type.
fn new_instance(
    alloc: Global,
    settle: u64,
    serial: u64,
    parent: u64,
    depth: u32,
    built_in: BuiltIn,
) -> Result<Instance, AllocError>
    ensures { IfOk result (λ instance. instance ≡ new_instance settle serial parent depth built_in) }
{
    let properties = new_properties(alloc, settle, serial, built_in)?;
    Ok(Instance {
        object: Object {
            serial,
            parent: Some(parent),
        },
        built_in,
        depth,
        layers: Row::new(alloc),
        names: Names::new(alloc),
        signals: u32::from(signal_count(built_in)),
        methods: u32::from(method_count(built_in)),
        item_parent: None,
        children: Row::new(alloc),
        properties,
    })
}

impl Property {
    // Shows an object, and is given nothing.
    fn show_object(&mut self, serial: u64)
        ensures { self.new ≡ shown_as_parent serial self.old }
    {
        self.shown.value = Value::Obj(serial);
    }
}

impl Instance {
    // Has the item that it stands in as its parent, and shows it, where it is a visual child.
    fn show_parent(&mut self, is_visual: bool, parent: u64)
        ensures { self.new ≡ in_parent is_visual parent self.old }
    {
        if !is_visual {
            return;
        }
        self.item_parent = Some(parent);
        let Some(property) = self.properties.get_mut(PARENT as usize) else {
            return;
        };
        property.show_object(parent);
    }

    // Owns one more object. Where memory runs out, nothing has changed.
    fn add_child(&mut self, serial: u64) -> Result<(), AllocError>
        ensures ok { OnOk result (self.new ≡ with_child serial self.old) }
        ensures err { OnErr result (self.new ≡ self.old) }
    {
        self.children.push(serial)
    }
}

impl Context {
    // Says what an id stands for, if there is one.
    fn add_id(&mut self, alloc: Global, serial: u64, id: Option<&Name>) -> Result<(), AllocError>
        ensures ok { OnOk result (self.new ≡ with_id serial (option_copied id.entry) self.old) }
        ensures serials { self.new.serials ≡ self.old.serials }
    {
        match id {
            Some(id) => self.ids.insert(id.copy(alloc)?, serial),
            None => Ok(()),
        }
    }

    // Has one more object. Where memory runs out, it has none more.
    fn add_serial(
        &mut self,
        alloc: Global,
        serial: u64,
        id: Option<&Name>,
    ) -> Result<(), AllocError>
        ensures ok { OnOk result (self.new ≡ with_serial serial (option_copied id.entry) self.old) }
        ensures err { OnErr result (self.new.serials ≡ self.old.serials) }
    {
        self.add_id(alloc, serial, id)?;
        self.serials.push(serial)
    }
}

impl Objects {
    // The serial of the next object. There is none after 2^64 - 1.
    fn next_serial(&self) -> Result<u64, AllocError>
        ensures { IfOk result (λ serial. serial ≡ next_serial self.now) }
    {
        match self.objects.last().checked_add(1) {
            Some(serial) => Ok(serial),
            None => Err(AllocError),
        }
    }

    // Makes an object of a built-in type.
    #[tactic(auto, unfolding(crate::specs::Growing::born))]
    fn born(
        &mut self,
        alloc: Global,
        built_in: BuiltIn,
        parent: u64,
        as_child: bool,
    ) -> Result<(), AllocError>
        ensures born { OnOk result (self.new ≡ born built_in parent as_child self.old) }
        ensures goes_on { GoesOn (IsOwner parent) self.old self.new }
    {
        let serial = self.next_serial()?;
        let above = self.objects.get(parent);
        let depth = depth_below(above);
        let is_visual = is_visual_in(as_child, built_in, above);
        let mut instance = new_instance(alloc, self.settle, serial, parent, depth, built_in)?;
        instance.show_parent(is_visual, parent);
        self.objects.insert(instance)?;
        let Some(owner) = self.objects.get_mut(parent) else {
            return Ok(());
        };
        owner.add_child(serial)
    }

    // The number of the last context that was made.
    fn last_context(&self) -> u64
        ensures { result ≡ last_context self.now }
    {
        self.contexts.len() as u64
    }

    // The context of that number.
    pub(crate) fn context(&self, number: u64) -> Option<&Context>
        ensures { option_copied result ≡ context_at number self.now }
    {
        self.contexts.get(number.saturating_sub(1) as usize)
    }

    // Begins a context.
    fn add_context(
        &mut self,
        alloc: Global,
        component: &Shared<ComponentType>,
        around: Option<u64>,
    ) -> Result<(), AllocError>
        ensures added { OnOk result (self.new ≡ with_context (new_context component.now around) self.old) }
        ensures goes_on { GoesOn Anywhere self.old self.new }
    {
        self.contexts.push(Context {
            component: component.share()?,
            around,
            serials: Row::new(alloc),
            ids: Names::new(alloc),
        })
    }

    // Adds an object to a context.
    fn add_serial(
        &mut self,
        alloc: Global,
        number: u64,
        serial: u64,
        id: Option<&Name>,
    ) -> Result<(), AllocError>
        ensures added { OnOk result (self.new ≡ with_changed_context (with_serial serial (option_copied id.entry)) number self.old) }
        ensures goes_on { GoesOn (AreNew number serial) self.old self.new }
    {
        let Some(context) = self.contexts.get_mut(number.saturating_sub(1) as usize) else {
            return Ok(());
        };
        context.add_serial(alloc, serial, id)
    }

    // The number of the next object in a context's component. There is none after 2^32.
    fn next_index(&self, number: u64) -> Result<u32, AllocError>
        ensures { IfOk result (λ index. index ≡ length (serials_of (context_at number self.now))) }
    {
        let Some(context) = self.context(number) else {
            return Ok(0);
        };
        match u32::try_from(context.serials.len()) {
            Ok(index) => Ok(index),
            Err(_) => Err(AllocError),
        }
    }

    // The serial of an object's owner in its context, or 0.
    fn owner_in(&self, decl: &ObjectDecl, number: u64) -> u64
        ensures { result ≡ owner_in decl.now number self.now }
    {
        let Some(owner) = decl.owner else {
            return 0;
        };
        let Some(context) = self.context(number) else {
            return 0;
        };
        match context.serials.get(owner as usize) {
            Some(serial) => *serial,
            None => 0,
        }
    }

    // Adds what a component declares of an object, which is the next one in its context.
    #[tactic(auto, unfolding(crate::specs::Growing::declared))]
    fn declare(
        &mut self,
        alloc: Global,
        component: &Shared<ComponentType>,
        decl: &ObjectDecl,
        number: u64,
        serial: u64,
    ) -> Result<(), AllocError>
        ensures declared { OnOk result (self.new ≡ declared component.now decl.now number serial self.old) }
        ensures goes_on { GoesOn (AreNew number serial) self.old self.new }
    {
        let layer = Layer {
            component: component.share()?,
            index: self.next_index(number)?,
            context: number,
        };
        self.add_serial(alloc, number, serial, decl.id.as_ref())?;
        let settle = self.settle;
        let Some(instance) = self.objects.get_mut(serial) else {
            return Ok(());
        };
        instance.add_layer(alloc, settle, layer, decl)
    }

    // Gives an object to the slot of its owner whose value it is, if it is one.
    fn give_object(&mut self, number: u64, serial: u64, role: &Role, owner: u64)
        ensures given { self.new ≡ with_instance (given_object number serial role.now) owner self.old }
        ensures goes_on { GoesOn (λ _ first. IsNew owner first) self.old self.new }
    {
        let Some(instance) = self.objects.get_mut(owner) else {
            return;
        };
        instance.give_object(number, serial, role);
    }
}

// An object that was made.
#[derive(Clone, Copy)]
struct Placed {
    serial: u64,
    // The number of the last context that what it is made of has.
    last: u64,
}

impl Objects {
    // Makes the root of a component in an object, as its child or not.
    #[cycle(rooting)]
    fn add_root(
        &mut self,
        alloc: Global,
        component: &Shared<ComponentType>,
        parent: u64,
        as_child: bool,
        around: Option<u64>,
    ) -> Result<(), AllocError>
        ensures rooted { OnOk result (self.new ≡ (grower_of component.now).rooted parent as_child around self.old) }
        ensures goes_on { GoesOn (IsOwner parent) self.old self.new }
    {
        let [root, ..] = component.get().objects.as_slice() else {
            return Ok(());
        };
        let serial = self.next_serial()?;
        self.add_base(alloc, &root.base, parent, as_child)?;
        self.add_context(alloc, component, around)?;
        let number = self.last_context();
        self.declare(alloc, component, root, number, serial)
    }

    // Makes an object as what it is made of first.
    #[cycle(rooting)]
    fn add_base(
        &mut self,
        alloc: Global,
        base: &Base,
        parent: u64,
        as_child: bool,
    ) -> Result<(), AllocError>
        ensures rooted { OnOk result (self.new ≡ (grower_under base.now).rooted parent as_child None self.old) }
        ensures goes_on { GoesOn (IsOwner parent) self.old self.new }
    {
        match base {
            Base::BuiltIn(built_in) => self.born(alloc, *built_in, parent, as_child),
            Base::Document(component) => self.add_root(alloc, component, parent, as_child, None),
        }
    }

    // Makes what stands in the root of a component, given the number of its context and the root.
    #[cycle(growing)]
    fn add_rest(
        &mut self,
        alloc: Global,
        component: &Shared<ComponentType>,
        number: u64,
        serial: u64,
    ) -> Result<(), AllocError>
        ensures grown { OnOk result (self.new ≡ (grower_of component.now).below number serial self.old) }
        ensures goes_on { GoesOn (IsLastOf (documents_of component.now) number) self.old self.new }
    {
        let [root, objects @ ..] = component.get().objects.as_slice() else {
            return Ok(());
        };
        self.add_base_rest(alloc, &root.base, number.saturating_sub(1), serial)?;
        for object in objects {
            let placed = self.place_object(alloc, component, number, object)?;
            self.add_base_rest(alloc, &object.base, placed.last, placed.serial)?;
        }
        Ok(())
    }

    // Makes what stands in an object by what it is made of first.
    #[cycle(growing)]
    fn add_base_rest(
        &mut self,
        alloc: Global,
        base: &Base,
        number: u64,
        serial: u64,
    ) -> Result<(), AllocError>
        ensures grown { OnOk result (self.new ≡ (grower_under base.now).below number serial self.old) }
        ensures goes_on { GoesOn (IsLastOf (documents_under base.now) number) self.old self.new }
    {
        match base {
            Base::BuiltIn(_) => Ok(()),
            Base::Document(component) => self.add_rest(alloc, component, number, serial),
        }
    }
}

impl Objects {
    // Makes one more object of a component, without what stands in it.
    fn place_object(
        &mut self,
        alloc: Global,
        component: &Shared<ComponentType>,
        number: u64,
        object: &ObjectDecl,
    ) -> Result<Placed, AllocError>
        ensures serial { IfOk result (λ placed. placed.serial ≡ next_serial self.old) }
        ensures last { IfOk result (λ placed. placed.last ≡ last_context (object_rooted number object.now (grower_under (out-ObjectDecl object.now).base) self.old)) }
        ensures placed { OnOk result (self.new ≡ object_placed component.now number object.now (grower_under (out-ObjectDecl object.now).base) self.old) }
        ensures goes_on { GoesOn (IsLastOf 1 number) self.old self.new }
    {
        let owner = self.owner_in(object, number);
        let serial = self.next_serial()?;
        self.add_base(alloc, &object.base, owner, is_child(&object.role))?;
        let last = self.last_context();
        self.declare(alloc, component, object, number, serial)?;
        self.give_object(number, serial, &object.role, owner);
        Ok(Placed { serial, last })
    }
}

impl Objects {
    // Whether there would be too many objects, serials or contexts.
    fn is_full(&self, component: &ComponentType) -> bool
        requires { IsSized component.now }
        ensures { result ≡ is_full component.now self.now }
    {
        let objects = component.object_count();
        let contexts = component.context_count();
        let live = self.objects.len() as u64;
        if live.saturating_add(objects) > MOST_OBJECTS {
            return true;
        }
        let made = self.contexts.len() as u64;
        self.objects.last().checked_add(objects).is_none() || made.checked_add(contexts).is_none()
    }

    // How many objects own this one, one another's owners counted.
    fn depth_of(&self, serial: u64) -> u32
        ensures { result ≡ depth_of (instance_at serial self.now) }
    {
        match self.objects.get(serial) {
            Some(instance) => instance.depth,
            None => 0,
        }
    }

    // Whether an object would stand too deep.
    fn is_deep(&self, component: &ComponentType, parent: u64) -> bool
        requires { IsSized component.now }
        ensures { result ≡ is_deep component.now parent self.now }
    {
        let levels = u64::from(component.depth());
        let depth = u64::from(self.depth_of(parent));
        depth + levels > MOST_LEVELS
    }

    // Makes all objects of a component.
    #[tactic(auto, unfolding(crate::specs::Growing::grown))]
    fn grow(
        &mut self,
        alloc: Global,
        component: &Shared<ComponentType>,
        parent: u64,
        around: Option<u64>,
    ) -> Result<u64, AllocError>
        ensures serial { IfOk result (λ serial. serial ≡ next_serial self.old) }
        ensures grown { OnOk result (self.new ≡ grown component.now parent around self.old) }
        ensures goes_on { GoesOn (IsOwner parent) self.old self.new }
    {
        let serial = self.next_serial()?;
        self.add_root(alloc, component, parent, true, around)?;
        let number = self.last_context();
        self.add_rest(alloc, component, number, serial)?;
        Ok(serial)
    }

    /// Makes all objects of a component, its root first, in a live object and as its child, with the next serials
    /// and the next numbers of contexts. Around it may be the context in which an inline component is declared.
    /// It gives the root's serial. The component is one that `compile` gave: what it says of its sizes is
    /// so, and they are asked before anything is made.
    ///
    /// # Errors
    ///
    /// - `Full`: exactly where there would be more than 100,000 live objects, or more serials or contexts than have
    ///   numbers.
    /// - `Deep`: else, exactly where an object would stand more than 256 levels below its content item.
    /// - `NoMemory`: memory ran out.
    ///
    /// After each of them all is as before.
    #[tactic(auto, unfolding(crate::specs::Limits::make_fault))]
    pub fn make(
        &mut self,
        alloc: Global,
        component: &Shared<ComponentType>,
        parent: u64,
        around: Option<u64>,
    ) -> Result<u64, MakeFault>
        requires sized { IsSized component.now }
        ensures tells { Tells (make_fault component.now parent self.old) result }
        ensures makes { Makes component.now parent around self.old self.new result }
    {
        if self.is_full(component.get()) {
            return Err(MakeFault::Full);
        }
        if self.is_deep(component.get(), parent) {
            return Err(MakeFault::Deep);
        }
        let mark = self.mark(parent);
        match self.grow(alloc, component, parent, around) {
            Ok(serial) => Ok(serial),
            Err(AllocError) => {
                self.undo(mark);
                Err(MakeFault::NoMemory)
            }
        }
    }
}
