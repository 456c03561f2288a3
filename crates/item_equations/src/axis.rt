ghost use Rattle.std.specs.Prelude.{◌≡◌};
ghost use Rattle.item_equations.specs.Slots.{slots_of, slot_asked};

use anchors::Asked;
use type_table::item_slots::*;

/// An axis of the plane. What is left on the horizontal one is top on the vertical one.
#[derive(Clone, Copy, PartialEq, Eq)]
pub enum Axis {
    Horizontal,
    Vertical,
}

/// The numbers of an item's slots for one axis.
#[derive(Clone, Copy)]
pub(crate) struct AxisSlots {
    /// `x` or `y`.
    pub(crate) place: u32,
    /// `width` or `height`.
    pub(crate) size: u32,
    /// `implicitWidth` or `implicitHeight`.
    pub(crate) implicit_size: u32,
    /// `anchors.left` or `anchors.top`.
    pub(crate) near: u32,
    /// `anchors.right` or `anchors.bottom`.
    pub(crate) far: u32,
    /// The anchor of the centre line.
    pub(crate) center: u32,
    /// `anchors.leftMargin` or `anchors.topMargin`.
    pub(crate) near_margin: u32,
    /// `anchors.rightMargin` or `anchors.bottomMargin`.
    pub(crate) far_margin: u32,
    /// The offset of the centre line.
    pub(crate) offset: u32,
}

impl Axis {
    /// The slots for this axis.
    #[tactic(auto, unfolding(crate::specs::Slots::slots_of))]
    pub(crate) fn slots(self) -> AxisSlots
        ensures { result ≡ slots_of self }
    {
        match self {
            Axis::Horizontal => AxisSlots {
                place: X,
                size: WIDTH,
                implicit_size: IMPLICIT_WIDTH,
                near: ANCHORS_LEFT,
                far: ANCHORS_RIGHT,
                center: ANCHORS_HORIZONTAL_CENTER,
                near_margin: ANCHORS_LEFT_MARGIN,
                far_margin: ANCHORS_RIGHT_MARGIN,
                offset: ANCHORS_HORIZONTAL_CENTER_OFFSET,
            },
            Axis::Vertical => AxisSlots {
                place: Y,
                size: HEIGHT,
                implicit_size: IMPLICIT_HEIGHT,
                near: ANCHORS_TOP,
                far: ANCHORS_BOTTOM,
                center: ANCHORS_VERTICAL_CENTER,
                near_margin: ANCHORS_TOP_MARGIN,
                far_margin: ANCHORS_BOTTOM_MARGIN,
                offset: ANCHORS_VERTICAL_CENTER_OFFSET,
            },
        }
    }

    /// The slot of an anchor.
    pub(crate) fn slot_asked(self, asked: Asked) -> u32
        ensures { result ≡ slot_asked self asked }
    {
        match asked {
            Asked::Fill => ANCHORS_FILL,
            Asked::CenterIn => ANCHORS_CENTER_IN,
            Asked::Near => self.slots().near,
            Asked::Far => self.slots().far,
            Asked::Center => self.slots().center,
        }
    }
}
