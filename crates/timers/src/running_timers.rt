ghost use Rattle.std.specs.Prelude.{◌≡◌, ℕ, ◌+◌, ◌^◌, ◌<◌, ◌≤◌, length, OnOk, OnErr, IsSome};
ghost use Rattle.std.specs.FinMap as map;
ghost use Rattle.timers.specs.Schedule.{next_time};
ghost use Rattle.timers.specs.Queue.{IsQueued};

use crate::firing_queue::FiringQueue;
use crate::timer::RunningTimer;
use std::alloc::{AllocError, Global};
use std::collections::BTreeMap;
use std::marker::Model;

// The running timers by serial.
#[derive(Drop)]
pub(crate) struct RunningTimers {
    timers: BTreeMap<u64, RunningTimer>,
}

impl Model for RunningTimers {
    ghost use Rattle.timers.specs.Queue.{Stored, stored_code};
    ghost use Rattle.std.specs.FinMap as map;
    ghost use Rattle.std.specs.BTreeMap.{btree_map_len};

    ghost Value = { Stored };

    ghost coded = { stored_code };

    ghost view = { λ r. record {
      timers = map.from_entries r.timers.entries;
      count = btree_map_len r.timers;
    } };
}

impl RunningTimers {
    pub(crate) fn new(alloc: Global) -> RunningTimers
        ensures { result ≡ record { timers = map.empty; count = 0 } }
    {
        RunningTimers {
            timers: BTreeMap::new(alloc),
        }
    }

    // How many run.
    pub(crate) fn len(&self) -> usize
        ensures count { result ≡ self.now.count }
        ensures small { result < 2 ^ 63 }
    {
        self.timers.len()
    }

    // The timer of that serial, where it runs.
    pub(crate) fn get(&self, serial: u64) -> Option<RunningTimer>
        ensures { result ≡ map.get self.now.timers serial }
    {
        self.timers.get(&serial).copied()
    }

    // When the timer of that serial fires first, where it runs.
    pub(crate) fn next_time(&self, serial: u64) -> Option<u64>
        ensures { result ≡ next_time self.now.timers serial }
    {
        match self.get(serial) {
            Some(timer) => Some(timer.first_time()),
            None => None,
        }
    }

    // Makes this the timer of the serial. The only error is that memory ran out, and then nothing has
    // changed.
    pub(crate) fn insert(&mut self, serial: u64, timer: RunningTimer) -> Result<(), AllocError>
        ensures ok { OnOk result (self.new.timers ≡ map.insert self.old.timers serial timer) }
        ensures count { OnOk result (self.new.count ≤ self.old.count + 1) }
        ensures err { OnErr result (self.new ≡ self.old) }
    {
        self.timers.insert(serial, timer)?;
        Ok(())
    }

    // Makes this the timer of the serial, in place of the one that runs.
    pub(crate) fn replace(&mut self, serial: u64, timer: RunningTimer)
        requires { IsSome (map.get self.old.timers serial) }
        ensures timers { self.new.timers ≡ map.insert self.old.timers serial timer }
        ensures count { self.new.count ≡ self.old.count }
    {
        match self.timers.insert(serial, timer) {
            Ok(_) => {}
            Err(_) => unreachable!(),
        }
    }

    // Removes the timer of that serial, if it runs.
    pub(crate) fn remove(&mut self, serial: u64)
        ensures timers { self.new.timers ≡ map.remove self.old.timers serial }
        ensures count { self.new.count ≤ self.old.count }
    {
        let _ = self.timers.remove(&serial);
    }

    // Fills the queue anew: with the first firing of each timer, and nothing else.
    pub(crate) fn refill(&self, queue: &mut FiringQueue)
        requires { self.now.count ≤ queue.old.room }
        ensures queued { IsQueued self.now.timers queue.new.firings }
        ensures few { length queue.new.firings ≤ self.now.count }
        ensures room { queue.old.room ≤ queue.new.room }
    {
        queue.clear();
        for (serial, timer) in &self.timers {
            queue.push(timer.first_time(), *serial);
        }
    }
}
