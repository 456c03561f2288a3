ghost use Rattle.std.specs.Prelude.{◌≡◌, option_copied};
ghost use Rattle.object_tree.specs.Properties.{held_of, is_own_side, binding_of, with_shown, with_value, with_marks, without_fault, with_written, restarted};

use expr_eval::Frame;
use qml_ast::{EvalFault, Expr, Side, Span, Value};
use shared_value::Shared;
use std::mem;
use type_table::SlotInfo;

/// What the last settling found of a place.
#[derive(Clone, Copy, PartialEq, Eq)]
pub struct Marks {
    /// The place was read while its expression was evaluated.
    pub suspended: bool,
    /// Why its expression had no value.
    pub fault: Option<EvalFault>,
}

/// What a place holds.
#[derive(Drop)]
pub struct Held {
    pub value: Value,
    pub marks: Marks,
}

/// An expression that a property is bound to.
#[derive(Drop)]
pub struct Binding {
    pub expr: Shared<Expr>,
    /// Where its names are looked up.
    pub frame: Frame,
    /// Where its path stands in the document of that context.
    pub span: Span,
}

/// A slot of an object.
#[derive(Drop)]
pub struct Property {
    pub info: SlotInfo,
    /// What it is set to, where that and what it shows are two.
    pub set: Option<Held>,
    /// What it shows.
    pub shown: Held,
    /// The expression that it is bound to.
    pub binding: Option<Binding>,
    /// Whether it was given something: an expression, an object or a value.
    pub is_given: bool,
    /// The settle in which what it shows was last written.
    pub written_in: u64,
    /// What it showed before that settle; none where the object was made in it.
    pub before: Option<Value>,
}

impl Property {
    /// What one side holds.
    pub fn held(&self, side: Side) -> Option<&Held>
        ensures { option_copied result ≡ held_of side self.now }
    {
        match side {
            Side::Set => self.set.as_ref(),
            Side::Shown => Some(&self.shown),
        }
    }

    /// Whether this side is the one that is bound and written.
    pub fn is_own_side(&self, side: Side) -> bool
        ensures { result ≡ is_own_side side self.now }
    {
        match side {
            Side::Set => self.set.is_some(),
            Side::Shown => self.set.is_none(),
        }
    }

    /// The expression that this side is bound to.
    pub fn binding(&self, side: Side) -> Option<&Binding>
        ensures { option_copied result ≡ binding_of side self.now }
    {
        if self.is_own_side(side) {
            self.binding.as_ref()
        } else {
            None
        }
    }

    // Shows another value, in the settle of this number.
    fn show(&mut self, value: Value, settle: u64)
        ensures { self.new ≡ with_shown settle value self.old }
    {
        let before = mem::replace(&mut self.shown.value, value);
        if self.written_in != settle {
            self.before = Some(before);
            self.written_in = settle;
        }
    }

    /// Keeps a value on one side, in the settle of this number.
    pub(crate) fn keep(&mut self, side: Side, value: Value, settle: u64)
        ensures { self.new ≡ with_value settle side value self.old }
    {
        match side {
            Side::Set => {
                if let Some(held) = &mut self.set {
                    held.value = value;
                }
            }
            Side::Shown => self.show(value, settle),
        }
    }

    /// Marks one side.
    pub(crate) fn mark(&mut self, side: Side, marks: Marks)
        ensures { self.new ≡ with_marks side marks self.old }
    {
        match side {
            Side::Set => {
                if let Some(held) = &mut self.set {
                    held.marks = marks;
                }
            }
            Side::Shown => self.shown.marks = marks,
        }
    }

    // Takes the mark of a fault from one side.
    fn clear_fault(&mut self, side: Side)
        ensures { self.new ≡ without_fault side self.old }
    {
        match side {
            Side::Set => {
                if let Some(held) = &mut self.set {
                    held.marks.fault = None;
                }
            }
            Side::Shown => self.shown.marks.fault = None,
        }
    }

    /// Writes a value to one side, in the settle of this number.
    pub(crate) fn write(&mut self, side: Side, value: Value, settle: u64)
        ensures { self.new ≡ with_written settle side value self.old }
    {
        self.keep(side, value, settle);
        self.clear_fault(side);
        self.binding = None;
        self.is_given = true;
    }

    /// Ends the last settle that has a number.
    pub(crate) fn restart(&mut self)
        ensures { self.new ≡ restarted self.old }
    {
        self.written_in = 0;
        self.before = None;
    }
}
