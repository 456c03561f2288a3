ghost use Rattle.std.specs.Prelude.{◌≡◌, IfSome};
ghost use Rattle.links.specs.Packed.{number_of, IsSmall};

/// A number below `u32::MAX`, or none, in 32 bits.
#[derive(Clone, Copy)]
pub(crate) struct Number {
    // The number, or `u32::MAX` where there is none.
    code: u32,
}

impl Number {
    /// The number, or none.
    pub(crate) fn new(number: Option<usize>) -> Number
        requires { IsSmall number }
        ensures { number_of result ≡ number }
    {
        match number {
            Some(number) => Number {
                code: number as u32,
            },
            None => Number { code: u32::MAX },
        }
    }

    /// The number, if there is one.
    pub(crate) fn get(self) -> Option<usize>
        ensures value { result ≡ number_of self }
        ensures small { IsSmall result }
    {
        if self.code == u32::MAX {
            None
        } else {
            Some(self.code as usize)
        }
    }
}
