ghost use Rattle.std.specs.Prelude.{◌≡◌};
ghost use Rattle.object_tree.specs.Resuming.{resumed, resumed_first, resumed_instance, resumed_at};
ghost use Rattle.object_tree.specs.Writing.{with_property};

use crate::instance::Instance;
use crate::objects::Objects;
use crate::property::Property;

impl Property {
    // Takes the mark of a loop from both sides.
    fn resume(&mut self)
        ensures { self.new ≡ resumed self.old }
    {
        if let Some(held) = &mut self.set {
            held.marks.suspended = false;
        }
        self.shown.marks.suspended = false;
    }
}

impl Instance {
    // Takes the marks of loops from one slot.
    fn resume_slot(&mut self, slot: usize)
        ensures { self.new ≡ with_property resumed slot self.old }
    {
        let Some(property) = self.properties.get_mut(slot) else {
            return;
        };
        property.resume();
    }

    // Takes the marks of loops from all slots.
    #[tactic(auto, using(crate::proofs::Resumed::resumed_more))]
    fn resume(&mut self)
        ensures { self.new ≡ resumed_instance self.old }
    {
        for slot in 0..self.properties.len() {
            self.resume_slot(slot);
        }
    }
}

impl Objects {
    /// Resumes the places of an object: takes the marks of loops from them. It takes no memory, and changes
    /// nothing where there is no such object.
    pub fn resume(&mut self, serial: u64)
        ensures { self.new ≡ resumed_at serial self.old }
    {
        let Some(instance) = self.objects.get_mut(serial) else {
            return;
        };
        instance.resume();
    }
}
