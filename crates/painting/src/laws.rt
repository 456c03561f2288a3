//! What holds of all painting. The functions do nothing; the contract of each is a law.

ghost use Rattle.std.specs.Prelude.{◌≡◌, ℕ, ◌+◌, Some, slice_get};
ghost use Rattle.painting.specs.Painting.{Tree, paint_within, IsInside, IsOnLevels};
ghost use Rattle.item_geometry.specs.declared.clip_rect.ClipRect.{ClipRect};
ghost use Rattle.painting.specs.declared.painted.Painted.{Painted};
ghost use Rattle.painting.specs.declared.viewport.Viewport.{Viewport};

/// Where an item and what is in it stand on at most so many levels, more levels change nothing of what they
/// are painted as.
pub fn deeper_is_the_same()
    ensures { (levels more : ℕ) (tree : Tree) (viewport : Viewport) (serial : ℕ) → IsOnLevels levels tree serial
        → paint_within (levels + more) tree viewport serial ≡ paint_within levels tree viewport serial }
{}

/// Nothing that is painted in a viewport stands outside of what is seen there: a clip cuts an item's own
/// rectangles and all that is in the item, at whatever depth.
pub fn clips_keep_what_is_inside()
    ensures { (levels : ℕ) (tree : Tree) (viewport : Viewport) (serial : ℕ) (clip : ClipRect)
        → viewport.clip ≡ Some clip → (place : ℕ) (painted : Painted)
        → slice_get (paint_within levels tree viewport serial) place ≡ Some painted → IsInside clip painted }
{}
