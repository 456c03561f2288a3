ghost use Rattle.std.specs.Prelude.{◌≡◌};
ghost use Rattle.anchors.specs.Rows.{gives_size};

/// What decides an item's place and size on one axis: each anchor that counts, with the target or the
/// line that it is tied to.
#[derive(Clone, Copy)]
pub enum Row<T, L> {
    /// Both lines follow those of the target.
    Fill(T),
    /// The centre follows that of the target.
    Center(T),
    /// Each line follows one of its own.
    NearAndFar { near: L, far: L },
    /// The left or top line follows this one.
    Near(L),
    /// The right or bottom line follows this one.
    Far(L),
    /// The left or top line and the centre are tied.
    NearAndCenter { near: L, center: T },
    /// The right or bottom line and the centre are tied.
    FarAndCenter { far: L, center: T },
    /// Nothing is tied.
    Free,
}

impl<T: Copy, L: Copy> Row<T, L> {
    /// Whether the row gives a size beside the place.
    pub fn gives_size(&self) -> bool
        ensures { result ≡ gives_size self.now }
    {
        match self {
            Row::Fill(_) => true,
            Row::NearAndFar { .. } => true,
            Row::NearAndCenter { .. } => true,
            Row::FarAndCenter { .. } => true,
            Row::Center(_) => false,
            Row::Near(_) => false,
            Row::Far(_) => false,
            Row::Free => false,
        }
    }
}
