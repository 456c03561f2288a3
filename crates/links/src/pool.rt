ghost use Rattle.std.specs.Prelude.{◌≡◌, ◌≢◌, ℕ, ◌+◌, ◌-◌, ◌<◌, ◌≤◌, max, [], length, slice_get, slice_set, unwrap_or, IsSome, OnOk, OnErr};
ghost use Rattle.links.specs.Packed.{no_number};
ghost use Rattle.links.specs.Slots.{placed, empty_count};

use crate::number::Number;
use crate::slot::{FreeLink, Slot, bypass, precede};
use std::alloc::{AllocError, Global};
use std::marker::Model;

/// How many numbers there are: those of 32 bits but for the one that stands for none.
const NUMBERS: usize = 4294967295;

/// Values under numbers from 0 on, in memory that is reserved beforehand.
#[derive(Drop)]
pub(crate) struct Pool<T> {
    slots: Vec<Slot<T>>,
    // The number that is used next, where one is free. Free slots are linked both ways.
    first_free: Number,
    free: usize,
    spare: usize,
}

impl<T> Model for Pool<T> {
    ghost use Rattle.std.specs.Vec.{vec_capacity};
    ghost use Rattle.links.specs.Slots.{Slots, slots_code};

    ghost Value = { Slots T };

    ghost coded = { slots_code T.code };

    ghost use Rattle.links.specs.Free.{values_of, HasRoom};

    ghost view = { λ p. record {
      slots = values_of p.slots.items;
      spare = p.spare;
    } };

    ghost invariant = { λ p. HasRoom p.slots.items p.first_free p.free p.spare
        (vec_capacity p.slots) };
}

impl<T: Copy> Pool<T> {
    /// No value, and room for none.
    pub(crate) fn new(alloc: Global) -> Self
        ensures slots { result.slots ≡ [] }
        ensures spare { result.spare ≡ 0 }
    {
        Pool {
            slots: Vec::new(alloc),
            first_free: Number::new(None),
            free: 0,
            spare: 0,
        }
    }

    /// How many values may be added.
    pub(crate) fn spare(&self) -> usize
        ensures value { result ≡ self.now.spare }
        ensures free { empty_count self.now.slots ≤ result }
    {
        let _free = self.free;
        self.spare
    }

    /// Makes room for so many values. The only errors are that memory ran out, and that a number would
    /// be `u32::MAX` or more.
    pub(crate) fn reserve(&mut self, count: usize) -> Result<(), AllocError>
        ensures ok { OnOk result (self.new ≡ record self.old { spare = max self.old.spare count }) }
        ensures err { OnErr result (self.new ≡ self.old) }
        ensures slots { self.new.slots ≡ self.old.slots }
    {
        let fresh = count.saturating_sub(self.free);
        if fresh > NUMBERS - self.slots.len() {
            return Err(AllocError);
        }
        self.slots.reserve(fresh)?;
        self.spare = self.spare.max(count);
        Ok(())
    }

    /// Gives up room, so that it is left for so many values.
    pub(crate) fn lower_spare(&mut self, spare: usize)
        requires spare { spare ≤ self.old.spare }
        requires free { empty_count self.old.slots ≤ spare }
        ensures { self.new ≡ record self.old { spare = spare } }
    {
        self.spare = spare;
    }

    /// The number that is used next.
    fn next_number(&self) -> usize
        requires { 0 < self.now.spare }
        ensures within { result ≤ length self.now.slots }
        ensures vacant { (other : T) → slice_get self.now.slots result ≢ Some (Some other) }
        ensures room { result ≡ length self.now.slots → empty_count self.now.slots < self.now.spare }
        ensures new_number { ((number : ℕ) → slice_get self.now.slots number ≢ Some None)
            → result ≡ length self.now.slots }
    {
        match self.first_free.get() {
            Some(number) => number,
            None => self.slots.len(),
        }
    }

    /// Adds a value, and gives its number.
    pub(crate) fn add(&mut self, value: T) -> usize
        requires { 0 < self.old.spare }
        ensures within { result ≤ length self.old.slots }
        ensures vacant { (other : T) → slice_get self.old.slots result ≢ Some (Some other) }
        ensures after { self.new ≡ record self.old {
          slots = placed self.old.slots result (Some value);
          spare = self.old.spare - 1;
        } }

        // Where no removed number may be used again, numbers go up by one.
        ensures new_number { ((number : ℕ) → slice_get self.old.slots number ≢ Some None)
            → result ≡ length self.old.slots }
    {
        let number = self.next_number();
        self.add_at(number, value);
        number
    }

    /// Adds a value under a number without one: one that was removed, or the next, for which there is
    /// room where not all that is spare are numbers that were removed.
    pub(crate) fn add_at(&mut self, number: usize, value: T)
        requires within { number ≤ length self.old.slots }
        requires vacant { (other : T) → slice_get self.old.slots number ≢ Some (Some other) }
        requires room { number ≡ length self.old.slots → empty_count self.old.slots < self.old.spare }
        ensures { self.new ≡ record self.old {
          slots = placed self.old.slots number (Some value);
          spare = self.old.spare - 1;
        } }
    {
        self.spare -= 1;
        match self.slots.get(number) {
            Some(Slot::Free(link)) => {
                let link = *link;
                bypass(&mut self.slots, &mut self.first_free, link);
                self.slots[number] = Slot::Full(value);
                self.free -= 1;
            }
            Some(Slot::Full(_)) => unreachable!(),
            None => self.slots.push_reserved(Slot::Full(value)),
        }
    }

    /// Takes a value away, and leaves room for one more.
    pub(crate) fn remove(&mut self, number: usize)
        requires { IsSome (unwrap_or (slice_get self.old.slots number) None) }
        ensures { self.new ≡ record self.old {
          slots = slice_set self.old.slots number None;
          spare = self.old.spare + 1;
        } }
    {
        let next = self.first_free;
        let previous = Number::new(None);
        let own = Number::new(Some(number));
        self.slots[number] = Slot::Free(FreeLink { previous, next });
        precede(&mut self.slots, next, own);
        self.first_free = own;
        self.free += 1;
        self.spare += 1;
    }

    /// The value of that number.
    pub(crate) fn get(&self, number: usize) -> Option<T>
        ensures value { result ≡ unwrap_or (slice_get self.now.slots number) None }
        ensures small { IsSome result → number < no_number }
    {
        match self.slots.get(number) {
            Some(Slot::Full(value)) => Some(*value),
            _ => None,
        }
    }

    /// Gives the number another value.
    pub(crate) fn set(&mut self, number: usize, value: T)
        requires { IsSome (unwrap_or (slice_get self.old.slots number) None) }
        ensures after { self.new ≡ record self.old {
          slots = slice_set self.old.slots number (Some value);
        } }
        ensures small { number < no_number }
    {
        self.slots[number] = Slot::Full(value);
    }
}
