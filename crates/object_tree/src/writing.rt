ghost use Rattle.std.specs.Prelude.{◌≡◌};
ghost use Rattle.object_tree.specs.Writing.{kept, marked, written, with_property, with_instance, restarted_first, restarted_instance, restarted_up_to, ended};
ghost use Rattle.object_tree.specs.Properties.{with_value, with_marks, with_written, restarted};

use crate::instance::Instance;
use crate::objects::Objects;
use crate::property::Marks;
use qml_ast::{Place, Side, Value};

impl Instance {
    // Keeps a value on one side of a slot, if there is such a slot.
    fn keep(&mut self, slot: u32, side: Side, value: Value, settle: u64)
        ensures { self.new ≡ with_property (with_value settle side value) slot self.old }
    {
        let Some(property) = self.properties.get_mut(slot as usize) else {
            return;
        };
        property.keep(side, value, settle);
    }

    // Marks one side of a slot, if there is such a slot.
    fn mark(&mut self, slot: u32, side: Side, marks: Marks)
        ensures { self.new ≡ with_property (with_marks side marks) slot self.old }
    {
        let Some(property) = self.properties.get_mut(slot as usize) else {
            return;
        };
        property.mark(side, marks);
    }

    // Writes a value to one side of a slot, if there is such a slot.
    fn write(&mut self, slot: u32, side: Side, value: Value, settle: u64)
        ensures { self.new ≡ with_property (with_written settle side value) slot self.old }
    {
        let Some(property) = self.properties.get_mut(slot as usize) else {
            return;
        };
        property.write(side, value, settle);
    }
}

impl Objects {
    /// Keeps the value that a settle found for a place, whose expression stays. It takes no memory, and
    /// changes nothing where there is no such place.
    pub fn keep(&mut self, place: Place, value: Value)
        ensures { self.new ≡ kept place value self.old }
    {
        let settle = self.settle;
        let Some(instance) = self.objects.get_mut(place.serial) else {
            return;
        };
        instance.keep(place.slot, place.side, value, settle);
    }

    /// Gives a place the marks that a settle found for it. It takes no memory, and changes nothing where there
    /// is no such place.
    pub fn set_marks(&mut self, place: Place, marks: Marks)
        ensures { self.new ≡ marked place marks self.old }
    {
        let Some(instance) = self.objects.get_mut(place.serial) else {
            return;
        };
        instance.mark(place.slot, place.side, marks);
    }

    /// Writes a value that the slot takes as it is, to a read-only slot too: the value takes the place of the
    /// expression that the slot was bound to, and of the mark of a fault that this had. It takes no memory,
    /// and changes nothing where there is no such place. The place is the one on which the slot is set, where
    /// what is set and what is shown are two.
    pub fn set_own(&mut self, place: Place, value: Value)
        ensures { self.new ≡ written place value self.old }
    {
        let settle = self.settle;
        let Some(instance) = self.objects.get_mut(place.serial) else {
            return;
        };
        instance.write(place.slot, place.side, value, settle);
    }
}

impl Instance {
    // Ends the last settle that has a number, for one slot.
    fn restart_slot(&mut self, slot: usize)
        ensures { self.new ≡ with_property restarted slot self.old }
    {
        let Some(property) = self.properties.get_mut(slot) else {
            return;
        };
        property.restart();
    }

    // Ends the last settle that has a number.
    #[tactic(auto, using(crate::proofs::Ends::first_more))]
    fn restart(&mut self)
        ensures { self.new ≡ restarted_instance self.old }
    {
        for slot in 0..self.properties.len() {
            self.restart_slot(slot);
        }
    }
}

impl Objects {
    // Ends the last settle that has a number, for one object.
    fn restart_instance(&mut self, serial: u64)
        ensures { self.new ≡ with_instance restarted_instance serial self.old }
    {
        let Some(instance) = self.objects.get_mut(serial) else {
            return;
        };
        instance.restart();
    }

    // Ends the last settle that has a number.
    #[tactic(auto, using(crate::proofs::Ends::up_to_more))]
    fn restart(&mut self)
        ensures { self.new ≡ restarted_up_to self.old.objects.last self.old }
    {
        for before in 0..self.objects.last() {
            self.restart_instance(before + 1);
        }
    }

    /// Ends a settle: what places show now is what they showed when it ended. It takes no memory, and the same
    /// time however many objects there are, except once in 2^64 settles.
    #[tactic(auto, unfolding(crate::specs::Writing::ended))]
    pub fn end_settle(&mut self)
        ensures { self.new ≡ ended self.old }
    {
        if self.settle < u64::MAX {
            self.settle += 1;
            return;
        }
        self.restart();
        self.settle = 1;
    }
}
