ghost use Rattle.std.specs.Prelude.{◌≡◌, ℕ, ◌+◌, ◌^◌, ◌<◌, ◌≤◌, [], ◌∷◌, length, nat_le, OnOk, IfSome, All, IsPermutation};
ghost use Rattle.std.specs.Bool.{OnFalse};
ghost use Rattle.timers.specs.Schedule.{IsNotAfter};
ghost use Rattle.timers.specs.Queue.{firing, first_of, most_firings, LosesFirst};

use std::alloc::{AllocError, Global};
use std::cmp::Reverse;
use std::collections::BinaryHeap;
use std::marker::Model;

// Half of the stale firings that a queue may have beside one for each timer and its number of timers.
const SPARE: usize = 16;

// Firings, each a time in milliseconds and a serial, of which the least pair comes first.
#[derive(Drop)]
pub(crate) struct FiringQueue {
    heap: BinaryHeap<Reverse<(u64, u64)>>,
}

impl Model for FiringQueue {
    ghost use Rattle.timers.specs.Queue.{Queued, queued_code, firing_cmp};
    ghost use Rattle.std.specs.BinaryHeap.{heap_items, heap_capacity, IsHeap};

    ghost Value = { Queued };

    ghost coded = { queued_code };

    ghost view = { λ q. record { firings = heap_items q.heap; room = heap_capacity q.heap } };

    ghost invariant = { λ q. IsHeap firing_cmp (heap_items q.heap) };
}

impl FiringQueue {
    pub(crate) fn new(alloc: Global) -> FiringQueue
        ensures { result.firings ≡ [] }
    {
        FiringQueue {
            heap: BinaryHeap::new(alloc),
        }
    }

    // Makes room for the firings of so many timers and one more, and mostly for as many stale ones. The
    // only error is that memory ran out.
    pub(crate) fn make_room(&mut self, timers: usize) -> Result<(), AllocError>
        requires { timers < 2 ^ 63 }
        ensures firings { self.new.firings ≡ self.old.firings }
        ensures more { self.old.room ≤ self.new.room }
        ensures ok { OnOk result (timers + 1 ≤ self.new.room) }
    {
        if self.heap.capacity() / 2 < timers + SPARE {
            self.heap.reserve(timers + SPARE)?;
        }
        Ok(())
    }

    // It has at least twice as many firings as there are timers, and some more, so that most of them are
    // stale.
    pub(crate) fn is_crowded(&self, timers: usize) -> bool
        requires { timers < 2 ^ 63 }
        ensures { OnFalse result (length self.now.firings ≤ most_firings timers) }
    {
        self.heap.len() / 2 >= timers + SPARE
    }

    // There is no room for another one.
    pub(crate) fn is_full(&self) -> bool
        ensures { result ≡ nat_le self.now.room (length self.now.firings) }
    {
        self.heap.len() >= self.heap.capacity()
    }

    // The first firing: its time and serial.
    pub(crate) fn first(&self) -> Option<(u64, u64)>
        ensures first { result ≡ first_of self.now.firings }
        ensures least { IfSome result (λ first. All (λ f. IsNotAfter first f.0) self.now.firings) }
    {
        match self.heap.peek() {
            Some(Reverse(first)) => Some(*first),
            None => None,
        }
    }

    // Takes the first firing away.
    pub(crate) fn pop(&mut self)
        ensures firings { LosesFirst self.old.firings self.new.firings }
        ensures room { self.new.room ≡ self.old.room }
    {
        let _ = self.heap.pop();
    }

    // Adds a firing.
    pub(crate) fn push(&mut self, time: u64, serial: u64)
        requires { length self.old.firings < self.old.room }
        ensures firings { IsPermutation (firing time serial ∷ self.old.firings) self.new.firings }
        ensures room { self.old.room ≤ self.new.room }
    {
        match self.heap.push(Reverse((time, serial))) {
            Ok(()) => {}
            Err(_) => unreachable!(),
        }
    }

    // Takes all firings away.
    pub(crate) fn clear(&mut self)
        ensures firings { self.new.firings ≡ [] }
        ensures room { self.new.room ≡ self.old.room }
    {
        self.heap.clear();
    }
}
