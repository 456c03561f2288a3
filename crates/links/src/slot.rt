ghost use Rattle.std.specs.Prelude.{◌≡◌};
ghost use Rattle.links.specs.Packed.{number_of};
ghost use Rattle.links.specs.Free.{next_free, previous_free, changed_at, after_previous, before_next, bypassed, first_bypassed};

use crate::number::Number;

/// The free slots before and after a free slot, if there are any.
#[derive(Clone, Copy)]
pub(crate) struct FreeLink {
    pub(crate) previous: Number,
    pub(crate) next: Number,
}

/// What a pool keeps under a number.
#[derive(Drop)]
pub(crate) enum Slot<T> {
    Free(FreeLink),
    Full(T),
}

/// Gives a free slot another free one after it.
pub(crate) fn set_next<T: Copy>(slots: &mut [Slot<T>], at: usize, next: Number)
    ensures { slots.new ≡ changed_at (next_free next) at slots.old }
{
    match slots.get(at) {
        Some(Slot::Free(link)) => {
            let link = *link;
            slots[at] = Slot::Free(FreeLink { next, ..link });
        }
        Some(Slot::Full(_)) => {}
        None => {}
    }
}

/// Gives a free slot another free one before it.
pub(crate) fn set_previous<T: Copy>(slots: &mut [Slot<T>], at: usize, previous: Number)
    ensures { slots.new ≡ changed_at (previous_free previous) at slots.old }
{
    match slots.get(at) {
        Some(Slot::Free(link)) => {
            let link = *link;
            slots[at] = Slot::Free(FreeLink { previous, ..link });
        }
        Some(Slot::Full(_)) => {}
        None => {}
    }
}

/// Gives a free slot, if one is given, another free one before it.
pub(crate) fn precede<T: Copy>(slots: &mut [Slot<T>], at: Number, previous: Number)
    ensures { slots.new ≡ before_next slots.old (number_of at) previous }
{
    match at.get() {
        Some(at) => set_previous(slots, at, previous),
        None => {}
    }
}

/// Makes the free slots beside a link each other's neighbours; `first` is the first free slot.
pub(crate) fn bypass<T: Copy>(slots: &mut [Slot<T>], first: &mut Number, link: FreeLink)
    ensures slots { slots.new ≡ bypassed slots.old link }
    ensures first { first.new ≡ first_bypassed first.old (number_of link.previous) link.next }
{
    match link.previous.get() {
        Some(previous) => set_next(slots, previous, link.next),
        None => *first = link.next,
    }
    precede(slots, link.next, link.previous);
}
