ghost use Rattle.std.specs.Prelude.{◌≡◌, ◌≢◌, ◌↔◌, None, Some, IsTrue};
ghost use Rattle.std.specs.Bool.{OnTrue, OnFalse};

use std::marker::Model;

/// The press of a pointer: the serial of the area that holds it, if one does. Contracts see it as that
/// serial.
#[derive(Clone, Copy, Default, PartialEq, Eq)]
pub struct Grab {
    held: Option<u64>,
}

impl Model for Grab {
    ghost use Rattle.std.specs.Prelude.{Option, ℕ};

    ghost Value = { Option ℕ };

    ghost view = { λ g. g.held };

    ghost inverse = { λ held. record { held = held } };
}

impl Grab {
    /// A grab that holds no press.
    pub fn new() -> Grab
        ensures { result ≡ None }
    {
        Grab { held: None }
    }

    /// The area that holds the press, or `None` where none does.
    pub fn held(&self) -> Option<u64>
        ensures { result ≡ self.now }
    {
        self.held
    }

    /// Lets an area hold the press, and answers whether it does: where one is held already, nothing
    /// changes and the answer is false.
    pub fn press(&mut self, serial: u64) -> bool
        ensures free { IsTrue result ↔ (self.old ≡ None) }
        ensures held { OnTrue result (self.new ≡ Some serial) }
        ensures kept { OnFalse result (self.new ≡ self.old) }
    {
        if self.held.is_some() {
            return false;
        }
        self.held = Some(serial);
        true
    }

    /// Ends the press, and answers which area held it, or `None` where none did.
    pub fn release(&mut self) -> Option<u64>
        ensures answer { result ≡ self.old }
        ensures after { self.new ≡ None }
    {
        self.held.take()
    }

    /// Ends the press where this area holds it. Else nothing changes.
    pub fn drop_if(&mut self, serial: u64)
        ensures dropped { self.old ≡ Some serial → self.new ≡ None }
        ensures kept { self.old ≢ Some serial → self.new ≡ self.old }
    {
        if self.held == Some(serial) {
            self.held = None;
        }
    }
}
