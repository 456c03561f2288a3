ghost use Rattle.std.specs.Prelude.{◌≡◌, ℕ, ◌<◌, Bool, IfOk, OnOk};

use std::alloc::AllocError;

/// Positioners by number, each of which lays out its children. What they lay out changes when it
/// settles.
pub trait Layouts {
    /// How many positioners there are.
    ghost size: { Self → ℕ };

    /// What laying out a positioner may change, and whether it then wrote something.
    ghost lays_out: { Self → ℕ → Bool → Self → Type 0 };

    /// What settling may change.
    ghost settles: { Self → Self → Type 0 };

    /// How many positioners there are.
    fn count(&self) -> usize
        ensures { result ≡ size self.now };

    /// Lays out positioner `i`, and answers whether it wrote something. The only error is that memory
    /// ran out.
    fn layout(&mut self, i: usize) -> Result<bool, AllocError>
        requires { i < size self.old }
        ensures laid_out { IfOk result (λ wrote. lays_out self.old i wrote self.new) }
        ensures count { size self.new ≡ size self.old };

    /// Settles what was written. The only error is that memory ran out.
    fn settle(&mut self) -> Result<(), AllocError>
        ensures settled { OnOk result (settles self.old self.new) }
        ensures count { size self.new ≡ size self.old };
}
