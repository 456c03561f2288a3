ghost use Rattle.std.specs.Prelude.{◌≡◌, ◌<◌, ◌^◌, pos};

use std::marker::Model;

/// The value of a whole number's token, from 0 to 2,147,483,647.
#[derive(Drop)]
pub struct Natural {
    value: u32,
}

impl Model for Natural {
    ghost use Rattle.std.specs.Prelude.{ℕ, ◌<◌, ◌^◌};

    ghost Value = { ℕ };

    ghost view = { λ n. n.value };

    ghost invariant = { λ n. n.value < 2 ^ 31 };
}

impl Natural {
    /// The number that `value` is, which is at most 2,147,483,647.
    pub fn new(value: u32) -> Natural
        requires { value < 2 ^ 31 }
        ensures { result ≡ value }
    {
        Natural { value }
    }

    /// The same number with a sign.
    pub fn to_i32(&self) -> i32
        ensures { result ≡ pos self.now }
    {
        self.value as i32
    }
}
