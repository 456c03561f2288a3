ghost use Rattle.std.specs.Prelude.{◌≡◌, false, ◌↔◌, All, IsNone, IfSome, find, reverse};
ghost use Rattle.std.specs.Option.{option_copied};
ghost use Rattle.input_grab.specs.Area.{is_within, has_point, topmost, IsTopmost};

/// A rectangle of pixels that takes the pointer, as far as it can be seen. It has the columns from
/// `left` up to but not `right`, and the rows from `top` up to but not `bottom`; with none of either it
/// is empty.
#[derive(Clone, Copy, PartialEq, Eq)]
pub struct Area {
    /// Whose area it is.
    pub serial: u64,
    /// The first column, in pixels from the window's left edge.
    pub left: i64,
    /// The first row, in pixels from the window's top edge.
    pub top: i64,
    /// The first column to the right of the area.
    pub right: i64,
    /// The first row below the area.
    pub bottom: i64,
}

/// Whether a place is at or after `begin`, and before `end`.
fn is_within(begin: i64, place: i64, end: i64) -> bool
    ensures { result ≡ is_within begin place end }
{
    begin <= place && place < end
}

impl Area {
    /// Whether the area has this column and row.
    fn has(&self, x: i64, y: i64) -> bool
        ensures { result ≡ has_point self.now x y }
    {
        is_within(self.left, x, self.right) && is_within(self.top, y, self.bottom)
    }
}

/// The last of the areas that have column `x` of row `y`.
fn last_with(areas: &[Area], x: i64, y: i64) -> Option<&Area>
    ensures { option_copied result ≡ find (λ area. has_point area x y) (reverse areas.now) }
{
    areas.iter().rev().find(|area| area.has(x, y))
}

/// The serial of the last of the areas that have column `x` of row `y`, or `None` where none has it.
/// Areas come in the order of painting, so this is the topmost.
pub fn hit(areas: &[Area], x: i64, y: i64) -> Option<u64>
    ensures serial { result ≡ topmost areas.now x y }
    ensures last { IfSome result (IsTopmost areas.now x y) }
    ensures none { IsNone result ↔ All (λ area. has_point area x y ≡ false) areas.now }
{
    last_with(areas, x, y).map(|area| area.serial)
}
