ghost use Rattle.std.specs.Prelude.{◌≡◌, nat_eq, not};
ghost use Rattle.item_equations.specs.Progress.{nothing_met};

use crate::children::Extent;

/// How far an evaluation of `childrenRect` came that stopped at a place without a value: what it found among the
/// objects that it met before. Other equations begin anew.
#[derive(Clone, Copy)]
pub struct Progress {
    /// So many of the objects that the item owns, from the first on, were met.
    pub(crate) met: usize,
    /// The least place of the items among them.
    pub(crate) least: Option<i32>,
    /// Where the items among them begin and end.
    pub(crate) extent: Option<Extent>,
}

impl Progress {
    /// Nothing was met.
    pub fn none() -> Progress
        ensures { result ≡ nothing_met }
    {
        Progress {
            met: 0,
            least: None,
            extent: None,
        }
    }

    /// Whether something was met.
    pub fn has_begun(&self) -> bool
        ensures { result ≡ not (nat_eq self.now.met 0) }
    {
        self.met != 0
    }
}
