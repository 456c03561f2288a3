ghost use Rattle.std.specs.Prelude.{◌≡◌};
ghost use Rattle.positioners.specs.Axis.{along, across};

/// The axis along which children stand one after the other.
#[derive(Clone, Copy)]
pub(crate) enum Axis {
    Horizontal,
    Vertical,
}

impl Axis {
    /// The part of a width and height that counts along the axis.
    pub(crate) fn along(self, size: (i32, i32)) -> i32
        ensures { result ≡ along self size }
    {
        match self {
            Axis::Horizontal => size.0,
            Axis::Vertical => size.1,
        }
    }

    /// The other part.
    pub(crate) fn across(self, size: (i32, i32)) -> i32
        ensures { result ≡ across self size }
    {
        match self {
            Axis::Horizontal => size.1,
            Axis::Vertical => size.0,
        }
    }
}
