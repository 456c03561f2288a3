ghost use Rattle.std.specs.Prelude.{◌≡◌, ◌+◌, ◌<◌, ◌≤◌, ◌+ℤ◌};
ghost use Rattle.painting.specs.Reach.{IsNear, IsWithin};
ghost use Rattle.painting.specs.Painting.{rect_of, area_at, seen, clip_within, within, inside, painted_part, window};

use crate::painted::Painted;
use crate::viewport::Viewport;
use item_geometry::{ClipRect, RectPart};
use scene::Paint;

/// How many levels of items are painted: the content item, and 256 below it.
const MOST_LEVELS: u32 = 257;

/// A viewport, and how many levels of items or nodes may be painted in it. As none stands farther than 2^31
/// pixels from its parent's edge, each place in it is an `i64`.
#[derive(Clone, Copy)]
pub struct Reach {
    /// Where they are painted.
    pub viewport: Viewport,
    /// How many levels there may be, 258 at most.
    pub levels: u32,
    ghost few: { levels ≤ 258 },
    ghost across: { IsNear levels viewport.left },
    ghost down: { IsNear levels viewport.top },
}

/// The place so many pixels on from another.
fn on(from: i64, by: i32) -> i64
    requires { IsWithin from }
    ensures { result ≡ from +ℤ by }
{
    from + i64::from(by)
}

/// The rectangle of these edges.
fn between(left: i64, top: i64, right: i64, bottom: i64) -> ClipRect
    ensures { result ≡ rect_of left top right bottom }
{
    ClipRect {
        left,
        top,
        right,
        bottom,
    }
}

/// What is seen of a rectangle.
fn seen(clip: Option<ClipRect>, area: ClipRect) -> ClipRect
    ensures { result ≡ seen clip area }
{
    match clip {
        Some(clip) => area.intersection(clip),
        None => area,
    }
}

impl Reach {
    /// The whole window, with so many levels.
    pub fn on_levels(levels: u32) -> Reach
        requires { levels ≤ 258 }
        ensures viewport { result.viewport ≡ window }
        ensures levels { result.levels ≡ levels }
    {
        Reach {
            viewport: Viewport {
                left: 0,
                top: 0,
                clip: None,
            },
            levels,
        }
    }

    /// The whole window, in which the content item stands.
    pub fn window() -> Reach
        ensures viewport { result.viewport ≡ window }
        ensures levels { result.levels ≡ 257 }
    {
        Reach::on_levels(MOST_LEVELS)
    }

    /// What is seen of a rectangle that begins at a place of the item and has so many columns and rows.
    fn area(&self, x: i32, y: i32, w: i32, h: i32) -> ClipRect
        ensures { result ≡ seen self.now.viewport.clip (area_at self.now.viewport x y w h) }
    {
        let left = on(self.viewport.left, x);
        let top = on(self.viewport.top, y);
        let area = between(left, top, on(left, w), on(top, h));
        seen(self.viewport.clip, area)
    }

    /// What one of the item's own rectangles is painted as.
    pub fn part(&self, part: RectPart) -> Painted
        ensures { result ≡ painted_part self.now.viewport part }
    {
        let area = self.area(part.x, part.y, part.w, part.h);
        Painted {
            left: area.left,
            top: area.top,
            right: area.right,
            bottom: area.bottom,
            argb: part.argb,
        }
    }

    /// What is seen of what stands in a rectangle that begins at a place of the item, and that may clip.
    fn clip_within(&self, x: i32, y: i32, w: i32, h: i32, clip: bool) -> Option<ClipRect>
        ensures { result ≡ clip_within self.now.viewport x y w h clip }
    {
        if clip {
            Some(self.area(x, y, w, h))
        } else {
            self.viewport.clip
        }
    }

    /// The viewport of what stands in a rectangle here: moved by x and y, and cut to the rectangle where it
    /// clips.
    pub fn within(&self, x: i32, y: i32, w: i32, h: i32, clip: bool) -> Reach
        requires { 0 < self.now.levels }
        ensures viewport { result.viewport ≡ within self.now.viewport x y w h clip }
        ensures levels { result.levels + 1 ≡ self.now.levels }
    {
        Reach {
            viewport: Viewport {
                left: on(self.viewport.left, x),
                top: on(self.viewport.top, y),
                clip: self.clip_within(x, y, w, h, clip),
            },
            levels: self.levels - 1,
        }
    }

    /// The viewport of an item that stands here.
    pub fn inside(&self, item: &Paint) -> Reach
        requires { 0 < self.now.levels }
        ensures viewport { result.viewport ≡ inside self.now.viewport item.now }
        ensures levels { result.levels + 1 ≡ self.now.levels }
    {
        self.within(item.x, item.y, item.w, item.h, item.clip)
    }
}
