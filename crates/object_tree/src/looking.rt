ghost use Rattle.std.specs.Prelude.{◌≡◌, ◌+◌, Some, None, length, option_map};
ghost use Rattle.object_tree.specs.Reading.{instance_at};
ghost use Rattle.object_tree.specs.Growing.{context_at};
ghost use Rattle.object_tree.specs.Looking.{group_named, group_name, declared_member, other_member, shown, member_named, group_member, member_of, id_found, member_at, root_member, found_here, found_in, global_named, looked_up};

use crate::context::Context;
use crate::declaring::find_dotted;
use crate::instance::{Feature, Instance};
use crate::objects::Objects;
use expr_eval::{Found, Frame, GlobalName, GroupName};
use qml_ast::{Name, Place, Side};
use type_table::{find, has_group, method, signal};

// The group of that name.
fn group_named(name: &str) -> Option<GroupName>
    ensures { result ≡ group_named name.now }
{
    match name {
        "anchors" => Some(GroupName::Anchors),
        "border" => Some(GroupName::Border),
        "childrenRect" => Some(GroupName::ChildrenRect),
        _ => None,
    }
}

// The name of a group.
fn group_name(group: GroupName) -> &'static str
    ensures { result.now ≡ group_name group }
{
    match group {
        GroupName::Anchors => "anchors",
        GroupName::Border => "border",
        GroupName::ChildrenRect => "childrenRect",
    }
}

// The place that an expression reads of a slot.
fn shown(serial: u64, slot: u32) -> Found
    ensures { result ≡ shown serial slot }
{
    Found::Place(Place {
        serial,
        slot,
        side: Side::Shown,
    })
}

impl Instance {
    // What a declared name stands for.
    fn declared_member(&self, serial: u64, name: &Name) -> Option<Found>
        ensures { result ≡ declared_member serial name.now self.now }
    {
        match self.names.get(name)? {
            Feature::Slot(slot) => Some(shown(serial, *slot)),
            Feature::Signal(number) => Some(Found::Signal(serial, *number)),
            Feature::Method(number) => Some(Found::Method(serial, *number)),
        }
    }

    // What a name stands for that is no slot of the object's built-in type.
    fn other_member(&self, serial: u64, name: &Name) -> Option<Found>
        ensures { result ≡ other_member serial name.now self.now }
    {
        if let Some(number) = signal(self.built_in, name.as_str()) {
            return Some(Found::Signal(serial, u32::from(number)));
        }
        if let Some(number) = method(self.built_in, name.as_str()) {
            return Some(Found::Method(serial, u32::from(number)));
        }
        if !has_group(self.built_in, name.as_str()) {
            return None;
        }
        Some(Found::Group(serial, group_named(name.as_str())?))
    }

    // What a member of the object stands for: a slot, or else a signal, a method or a group.
    fn member_named(&self, serial: u64, name: &Name) -> Option<Found>
        ensures { result ≡ member_named serial name.now self.now }
    {
        match find(self.built_in, name.as_str()) {
            Some(slot) => Some(shown(serial, slot.index)),
            None => match self.declared_member(serial, name) {
                Some(found) => Some(found),
                None => self.other_member(serial, name),
            },
        }
    }

    // What a member of a group of the object stands for.
    fn group_member(&self, serial: u64, group: GroupName, name: &Name) -> Option<Found>
        ensures { result ≡ group_member serial group name.now self.now }
    {
        let slot = find_dotted(self.built_in, group_name(group), name.as_str())?;
        Some(shown(serial, slot))
    }
}

// A name that is known everywhere.
fn global_named(name: &str) -> Found
    ensures { result ≡ global_named name.now }
{
    match name {
        "Qt" => Found::Global(GlobalName::Qt),
        "Math" => Found::Global(GlobalName::Math),
        "console" => Found::Global(GlobalName::Console),
        "Loader" => Found::Global(GlobalName::Loader),
        _ => Found::None,
    }
}

impl Objects {
    /// What a member of an object, or of a group of it, stands for: a property first, and else a signal, a method
    /// or a group. `Found::None` exactly where the object is not live or has no such thing.
    #[tactic(auto, unfolding(crate::specs::Looking::member_of))]
    pub fn member(&self, of: u64, group: Option<GroupName>, name: &Name) -> Found
        ensures { result ≡ member_of of group name.now self.now }
    {
        let Some(instance) = self.objects.get(of) else {
            return Found::None;
        };
        let found = match group {
            Some(group) => instance.group_member(of, group, name),
            None => instance.member_named(of, name),
        };
        found.unwrap_or(Found::None)
    }

    // The object that has the name as its id, where it is no more as null.
    fn id_found(&self, name: &Name, context: &Context) -> Option<Found>
        ensures { result ≡ id_found name.now context.now self.now }
    {
        let serial = *context.ids.get(name)?;
        if self.is_live(serial) {
            Some(Found::Object(serial))
        } else {
            Some(Found::Object(0))
        }
    }

    // What a member of an object stands for.
    fn member_at(&self, serial: u64, name: &Name) -> Option<Found>
        ensures { result ≡ member_at serial name.now self.now }
    {
        self.objects.get(serial)?.member_named(serial, name)
    }

    // What a member of a context's root stands for.
    fn root_member(&self, name: &Name, context: &Context) -> Option<Found>
        ensures { result ≡ root_member name.now context.now self.now }
    {
        let root = *context.serials.get(0)?;
        self.member_at(root, name)
    }

    // What the name stands for in a context.
    fn found_here(&self, name: &Name, scope: u64, context: &Context) -> Option<Found>
        ensures { result ≡ found_here name.now scope context.now self.now }
    {
        match self.id_found(name, context) {
            Some(found) => Some(found),
            None => match self.member_at(scope, name) {
                Some(found) => Some(found),
                None => self.root_member(name, context),
            },
        }
    }

    // The same, and then in the contexts round it, of which there are so many at most.
    fn found_in(&self, left: usize, name: &Name, scope: u64, number: Option<u64>) -> Option<Found>
        ensures { result ≡ found_in left name.now scope number self.now }
    {
        if left == 0 {
            return None;
        }
        let context = self.context(number?)?;
        match self.found_here(name, scope, context) {
            Some(found) => Some(found),
            None => self.found_in(left - 1, name, scope, context.around),
        }
    }

    /// What a name stands for in an expression of that frame, after the expression's own locals: an id of the
    /// component; a property, a signal, a method or a group of the object that the expression stands in; one of
    /// the component's root; the same for the components round it; and then a name that is known everywhere
    /// (Qt 5 QML Reference, Scope and Naming Resolution). An id of an object that is no more stands for null.
    #[tactic(auto, unfolding(crate::specs::Looking::looked_up))]
    pub fn look(&self, frame: Frame, name: &Name) -> Found
        ensures { result ≡ looked_up frame name.now self.now }
    {
        let left = self.contexts.len();
        match self.found_in(left, name, frame.scope, Some(frame.context)) {
            Some(found) => found,
            None => global_named(name.as_str()),
        }
    }
}
