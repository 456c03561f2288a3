ghost use Rattle.std.specs.Prelude.{◌≡◌, ◌==◌, ◌+◌, ◌^◌, ◌<◌, [], length, filter, option_copied, IsSome, Some, IfOk, OnOk, OnErr};
ghost use Rattle.std.specs.List.Sorted.{IsStrictlySortedBy};
ghost use Rattle.std.specs.Map.{keys_of};
ghost use Rattle.std.specs.Option.{option_copied_mut, option_map};
ghost use Rattle.std.specs.Borrow.{sem};
ghost use Rattle.arena.specs.Arena.{AreGiven, thing_at, with_thing, without, without_later, up_to, with_next, next_above, first_of};
ghost use Rattle.std.specs.Ordering.{nat_cmp, is_lt};
ghost use Rattle.arena.specs.Lends.{lends_thing, lends_present};

use slab::Slab;
use std::alloc::{AllocError, Global};
use std::collections::BTreeMap;
use std::marker::Model;
use std::ops::Bound;

/// Values under serials. Contracts see the last serial that was given, and the values that are there, each
/// with its serial, by rising serial.
///
/// The values lie in a slab, where the room of those that went is used again.
#[derive(Drop)]
pub struct Arena<T> {
    last: u64,
    slots: Slab<T>,
    // The slab's key of each serial.
    keys: BTreeMap<u64, usize>,
}

impl<T> Model for Arena<T> {
    ghost use Rattle.arena.specs.Arena.{Arena as Things, arena_code};
    ghost use Rattle.arena.specs.Slots.{things, IsHeld};

    ghost Value = { Things T };

    ghost coded = { arena_code T.code };

    ghost view = { λ a. record { last = a.last; things = things a.slots.slots a.keys.entries } };

    ghost invariant = { λ a. IsHeld a.last a.slots.slots a.keys.entries };
}

// The least serial above this one, with its key.
fn key_after(keys: &BTreeMap<u64, usize>, serial: u64) -> Option<(u64, usize)>
    ensures { result ≡ first_of (filter (λ e. is_lt (nat_cmp serial e.0)) keys.now.entries) }
{
    let above = (Bound::Excluded(serial), Bound::Unbounded);
    match keys.range(above).next() {
        Some((found, key)) => Some((*found, *key)),
        None => None,
    }
}

impl<T: Drop> Arena<T> {
    /// No value, and no serial given.
    pub fn new(alloc: Global) -> Arena<T>
        ensures { result ≡ record { last = 0; things = [] } }
    {
        Arena {
            last: 0,
            slots: Slab::new(alloc),
            keys: BTreeMap::new(alloc),
        }
    }

    /// The last serial that was given, or 0. What has a value is one of the serials from 1 up to it.
    #[tactic(auto, using(crate::proofs::Slots::keys_things))]
    pub fn last(&self) -> u64
        ensures last { result ≡ self.now.last }
        ensures given { AreGiven self.now.last (keys_of self.now.things) }
    {
        self.last
    }

    /// How many values there are.
    #[tactic(auto, using(crate::proofs::Slots::length_things))]
    pub fn len(&self) -> usize
        ensures { result ≡ length self.now.things }
    {
        self.keys.len()
    }

    /// Whether there is no value.
    pub fn is_empty(&self) -> bool
        ensures { result ≡ (length self.now.things == 0) }
    {
        self.len() == 0
    }

    /// The value under a serial.
    #[tactic(auto, using(crate::proofs::Slots::got, crate::proofs::Slots::got_none))]
    pub fn get(&self, serial: u64) -> Option<&T>
        ensures { option_copied result ≡ thing_at serial self.now }
    {
        match self.keys.get(&serial) {
            Some(key) => self.slots.get(*key),
            None => None,
        }
    }

    /// The value under a serial, for writing.
    pub fn get_mut(&mut self, serial: u64) -> Option<&mut T>
        ensures* writes_back { sem 𝓛 (lends_thing T.row self.entry serial result) }
        ensures value { option_copied_mut result ≡ thing_at serial self.old }
    {
        if self.get(serial).is_some() {
            Some(self.present_mut(serial))
        } else {
            None
        }
    }

    // The value under a serial that has one, for writing.
    fn present_mut(&mut self, serial: u64) -> &mut T
        requires { IsSome (thing_at serial self.old) }
        ensures* writes_back { sem 𝓛 (lends_present T.row self.entry serial result) }
        ensures value { thing_at serial self.old ≡ Some result.now }
    {
        let key = self.keys[&serial];
        &mut self.slots[key]
    }

    /// Puts a value under the next serial. The only error is that memory ran out, and then nothing has
    /// changed.
    pub fn insert(&mut self, thing: T) -> Result<u64, AllocError>
        requires { self.old.last + 1 < 2 ^ 64 }
        ensures serial { IfOk result (λ serial. serial ≡ self.old.last + 1) }
        ensures ok { OnOk result (self.new ≡ with_next self.old thing) }
        ensures err { OnErr result (self.new ≡ self.old) }
    {
        self.slots.reserve(1)?;
        let serial = self.last + 1;
        let key = self.slots.vacant_key();
        self.keys.insert(serial, key)?;
        self.slots.insert_reserved(thing);
        self.last = serial;
        Ok(serial)
    }

    /// Takes out the value under a serial, if there is one.
    pub fn remove(&mut self, serial: u64) -> Option<T>
        ensures value { result ≡ thing_at serial self.old }
        ensures rest { self.new ≡ without serial self.old }
    {
        match self.keys.remove(&serial) {
            Some(key) => self.slots.try_remove(key),
            None => None,
        }
    }

    // Takes out all values under serials after this one.
    fn remove_after(&mut self, last: u64)
        ensures { self.new ≡ without_later last self.old }
    {
        while let Some((serial, _)) = self.next_after(last) {
            self.remove(serial);
        }
    }

    /// Takes out all values that were put in after this serial, which is then the last one that was given.
    pub fn take_back_after(&mut self, last: u64)
        ensures { self.new ≡ up_to last self.old }
    {
        self.remove_after(last);
        self.last = last;
    }

    /// The serials that have a value, rising. The only error is that memory ran out.
    #[tactic(auto, using(crate::proofs::Slots::keys_things))]
    pub fn serials(&self, alloc: Global) -> Result<Vec<u64>, AllocError>
        ensures serials { IfOk result (λ serials. serials.items ≡ keys_of self.now.things) }
        ensures rising { IfOk result (λ serials. IsStrictlySortedBy nat_cmp serials.items) }
    {
        self.keys.keys().copied().collect(alloc)
    }

    /// The value under the least serial above this one, with its serial.
    #[tactic(auto, using(crate::proofs::Slots::none_above, crate::proofs::Slots::one_above, crate::proofs::Slots::lost_above))]
    pub fn next_after(&self, serial: u64) -> Option<(u64, &T)>
        ensures { option_map (λ found. (found.0, found.1.now)) result ≡ next_above serial self.now }
    {
        match key_after(&self.keys, serial) {
            Some((found, key)) => match self.slots.get(key) {
                Some(thing) => Some((found, thing)),
                None => None,
            },
            None => None,
        }
    }
}
