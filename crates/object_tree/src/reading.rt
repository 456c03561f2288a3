ghost use Rattle.std.specs.Prelude.{◌≡◌, length, option_copied, option_map, slice_get, unwrap_or};
ghost use Rattle.object_tree.specs.Layers.{decl_of, slots_in, declared_slots, slot_path_of};
ghost use Rattle.object_tree.specs.Origins.{path_at, seen_at, type_origin, type_origin_at, origin_of};
ghost use Rattle.object_tree.specs.Reading.{instance_at, is_live, property_at, held_at, value_read, value_at, binding_at, marks_at, is_given_at, info_at, place_in, first_from, next_within, first_above, place_after, item_parent_at, owned_by};

use crate::instance::{Instance, Layer, Object};
use crate::objects::Objects;
use crate::property::{Binding, Held, Marks, Property};
use qml_ast::{At, Place, Side, Value};
use qml_types::{ObjectDecl, SlotDecl};
use type_table::{BuiltIn, SlotInfo, slot_count, slot_path};

impl Property {
    // The first place of a slot.
    fn first_place(&self, serial: u64, slot: u32) -> Place
        ensures { result ≡ place_in serial slot self.now }
    {
        let side = if self.set.is_some() {
            Side::Set
        } else {
            Side::Shown
        };
        Place { serial, slot, side }
    }
}

impl Objects {
    /// The object of that serial with all that it has, if it is live.
    pub fn instance(&self, serial: u64) -> Option<&Instance>
        ensures { option_copied result ≡ instance_at serial self.now }
    {
        self.objects.get(serial)
    }

    /// Whether an object of that serial is live.
    pub fn is_live(&self, serial: u64) -> bool
        ensures { result ≡ is_live serial self.now }
    {
        self.objects.get(serial).is_some()
    }

    /// The object of that serial, if it is live.
    pub fn get(&self, serial: u64) -> Option<&Object>
        ensures { option_copied result ≡ option_map (λ i. i.object) (instance_at serial self.now) }
    {
        Some(&self.objects.get(serial)?.object)
    }

    /// The built-in type on which the object stands, if it is live.
    pub fn type_of(&self, serial: u64) -> Option<BuiltIn>
        ensures { result ≡ option_map (λ i. i.built_in) (instance_at serial self.now) }
    {
        Some(self.objects.get(serial)?.built_in)
    }

    // A slot of an object.
    fn property(&self, serial: u64, slot: u32) -> Option<&Property>
        ensures { option_copied result ≡ property_at serial slot self.now }
    {
        self.objects.get(serial)?.properties.get(slot as usize)
    }

    /// What a place holds, whether or not what it refers to is still there. None where there is no such
    /// place.
    pub fn held(&self, place: Place) -> Option<&Held>
        ensures { option_copied result ≡ held_at place self.now }
    {
        self.property(place.serial, place.slot)?.held(place.side)
    }

    /// The last value of a place, as it is read: a reference to an object that is no more as null, and a line
    /// of such an object as `undefined`. None where there is no such place.
    pub fn value(&self, place: Place) -> Option<&Value>
        ensures { option_copied result ≡ value_at place self.now }
    {
        Some(self.as_read(&self.held(place)?.value))
    }

    /// A value as it is read: a reference to an object that is no more as null, and a line of such an object as
    /// `undefined`.
    pub fn as_read<'a>(&'a self, value: &'a Value) -> &'a Value
        ensures { result.now ≡ value_read self.now value.now }
    {
        match value {
            Value::Obj(serial) if !self.is_live(*serial) => &self.null,
            Value::Line(Some(line)) if !self.is_live(line.serial) => &self.no_line,
            _ => value,
        }
    }

    /// The expression that a place is bound to. None where there is no such place, where it is bound to
    /// nothing, and where what the slot is set to stands on its other side.
    pub fn binding(&self, place: Place) -> Option<&Binding>
        ensures { option_copied result ≡ binding_at place self.now }
    {
        self.property(place.serial, place.slot)?.binding(place.side)
    }

    /// The marks of a place. None where there is no such place.
    pub fn marks(&self, place: Place) -> Option<Marks>
        ensures { result ≡ marks_at place self.now }
    {
        Some(self.held(place)?.marks)
    }

    /// Whether the slot of a place was given something: an expression, an object or a value.
    pub fn is_set(&self, place: Place) -> bool
        ensures { result ≡ is_given_at place self.now }
    {
        match self.property(place.serial, place.slot) {
            Some(property) => property.is_given,
            None => false,
        }
    }

    /// The object that an object owns with that number of owned ones before it.
    pub fn child(&self, serial: u64, at: usize) -> Option<u64>
        ensures { result ≡ unwrap_or (option_map (λ i. slice_get i.children at) (instance_at serial self.now)) None }
    {
        self.objects.get(serial)?.children.get(at).copied()
    }

    /// The item in which an object stands as a visual child. None where it is no item or no visual child, and
    /// where no such object is live.
    pub fn item_parent(&self, serial: u64) -> Option<u64>
        ensures { result ≡ item_parent_at serial self.now }
    {
        self.objects.get(serial)?.item_parent
    }

    /// The serials of the objects that an object owns, in the order in which they were made. None are there where
    /// no such object is live.
    pub fn owned(&self, serial: u64) -> &[u64]
        ensures { result.now ≡ owned_by serial self.now }
    {
        match self.objects.get(serial) {
            Some(instance) => instance.children.as_slice(),
            None => &[],
        }
    }

    /// What is known of the slot of a place. Documents write no slot of a content item. None where there is
    /// no such slot.
    pub fn slot(&self, place: Place) -> Option<SlotInfo>
        ensures { result ≡ info_at place self.now }
    {
        let instance = self.objects.get(place.serial)?;
        let info = instance.properties.get(place.slot as usize)?.info;
        let read_only = info.read_only || instance.object.parent.is_none();
        Some(SlotInfo { read_only, ..info })
    }

    /// How many objects are live.
    pub fn live(&self) -> usize
        ensures { result ≡ length self.now.objects.things }
    {
        self.objects.len()
    }

    /// The place that comes after this one, or the first of all. Places are in the order of their objects, then
    /// of their slots, and what is set comes before what is shown.
    pub fn next_place(&self, after: Option<Place>) -> Option<Place>
        ensures { result ≡ place_after after self.now }
    {
        let Some(place) = after else {
            return self.first_above(0);
        };
        match self.next_within(place) {
            Some(next) => Some(next),
            None => self.first_above(place.serial),
        }
    }

    // The place after one of the same object.
    fn next_within(&self, place: Place) -> Option<Place>
        ensures { result ≡ unwrap_or (option_map (next_within place) (instance_at place.serial self.now)) None }
    {
        self.objects.get(place.serial)?.next_within(place)
    }

    // The first place of an object that comes after those of this serial.
    fn first_above(&self, serial: u64) -> Option<Place>
        ensures { result ≡ first_above serial self.now }
    {
        let (found, instance) = self.objects.next_after(serial)?;
        instance.first_from(found, 0)
    }
}

impl Instance {
    // The first place of the slots from this one on.
    fn first_from(&self, serial: u64, slot: u32) -> Option<Place>
        ensures { result ≡ first_from serial slot self.now }
    {
        Some(
            self.properties
                .get(slot as usize)?
                .first_place(serial, slot),
        )
    }

    // The place after one of this object.
    fn next_within(&self, place: Place) -> Option<Place>
        ensures { result ≡ next_within place self.now }
    {
        match place.side {
            Side::Set => {
                self.properties.get(place.slot as usize)?;
                Some(Place {
                    side: Side::Shown,
                    ..place
                })
            }
            Side::Shown => {
                let next = place.slot.checked_add(1)?;
                self.first_from(place.serial, next)
            }
        }
    }
}

impl Layer {
    // The object's declaration.
    pub(crate) fn decl(&self) -> Option<&ObjectDecl>
        ensures { option_copied result ≡ decl_of self.now }
    {
        self.component.get().objects.get(self.index as usize)
    }

    // The slots that it declares.
    fn slots(&self) -> &[SlotDecl]
        ensures { result.now ≡ slots_in (decl_of self.now) }
    {
        match self.decl() {
            Some(decl) => decl.slots.as_slice(),
            None => &[],
        }
    }
}

impl Instance {
    // The declared slot with that number of declared ones before it.
    fn slot_decl(&self, index: usize) -> Option<&SlotDecl>
        ensures { option_copied result ≡ slice_get (declared_slots self.now.layers) index }
    {
        let mut left = index;
        for layer in self.layers.as_slice() {
            let slots = layer.slots();
            if left < slots.len() {
                return Some(&slots[left]);
            }
            left -= slots.len();
        }
        None
    }

    // The path of a slot.
    fn slot_path(&self, slot: u32) -> Option<&str>
        ensures { option_copied result ≡ slot_path_of slot self.now }
    {
        let count = slot_count(self.built_in);
        if slot < count {
            return Some(slot_path(self.built_in, slot));
        }
        Some(self.slot_decl((slot - count) as usize)?.name.as_str())
    }

    // Where the name of the object's type stands in the document that declares the object.
    fn type_at(&self) -> Option<At<'_>>
        ensures { option_map seen_at result ≡ type_origin self.now.layers }
    {
        let layer = self.layers.as_slice().last()?;
        let span = layer.decl()?.span;
        Some(At {
            file: &layer.component.get().file,
            span,
        })
    }
}

impl Objects {
    /// The path of a place's slot, as `width` or `anchors.leftMargin`. None where there is no such slot.
    pub fn path(&self, place: Place) -> Option<&str>
        ensures { option_copied result ≡ path_at place self.now }
    {
        let instance = self.objects.get(place.serial)?;
        instance.properties.get(place.slot as usize)?;
        instance.slot_path(place.slot)
    }

    /// Where the name of an object's type stands. None where the object is not live, and for a content item, which
    /// no document declares.
    pub fn type_at(&self, serial: u64) -> Option<At<'_>>
        ensures { option_map seen_at result ≡ type_origin_at serial self.now }
    {
        self.objects.get(serial)?.type_at()
    }

    /// Where notes on a place stand: at the path of the expression that it is bound to, and else at the name of
    /// the object's type. None where there is no such place, and for places of a content item.
    pub fn at(&self, place: Place) -> Option<At<'_>>
        ensures { option_map seen_at result ≡ origin_of place self.now }
    {
        let Some(binding) = self.binding(place) else {
            self.held(place)?;
            return self.type_at(place.serial);
        };
        let context = self.context(binding.frame.context)?;
        Some(At {
            file: &context.component.get().file,
            span: binding.span,
        })
    }
}
