ghost use Rattle.std.specs.Prelude.{◌≡◌, length};
ghost use Rattle.object_tree.specs.Reading.{owned_by};
ghost use Rattle.object_tree.specs.Undoing.{mark_of, with_first_children, undone, IsBegun};

use crate::instance::Instance;
use crate::objects::Objects;

// What the objects were before a making.
#[derive(Clone, Copy)]
pub(crate) struct Mark {
    // The last serial that was given, and the number of the last context.
    serial: u64,
    context: usize,
    // The object in which something is made, and how many objects it owned.
    parent: u64,
    children: usize,
}

impl Instance {
    // Owns the first of its objects alone, as many as this says.
    fn keep_children(&mut self, count: usize)
        ensures { self.new ≡ with_first_children count self.old }
    {
        self.children.truncate(count);
    }
}

impl Objects {
    // How many objects this one owns.
    fn child_count(&self, serial: u64) -> usize
        ensures { result ≡ length (owned_by serial self.now) }
    {
        match self.objects.get(serial) {
            Some(instance) => instance.children.len(),
            None => 0,
        }
    }

    // What the objects are before something is made in this one.
    pub(crate) fn mark(&self, parent: u64) -> Mark
        ensures mark { result ≡ mark_of parent self.now }
        ensures begun { IsBegun parent self.now self.now }
    {
        Mark {
            serial: self.objects.last(),
            context: self.contexts.len(),
            parent,
            children: self.child_count(parent),
        }
    }

    // Takes back what was made since.
    pub(crate) fn undo(&mut self, mark: Mark)
        ensures { self.new ≡ undone mark self.old }
    {
        self.objects.take_back_after(mark.serial);
        self.contexts.truncate(mark.context);
        let Some(parent) = self.objects.get_mut(mark.parent) else {
            return;
        };
        parent.keep_children(mark.children);
    }
}
