ghost use Rattle.std.specs.Prelude.{◌≡◌, ◌≢◌, ℕ, ◌+◌, ◌^◌, ◌<◌, ◌≤◌, true, false, Some, [], ◌∷◌, length, OnOk, OnErr, IsSome, IsSomeAnd, IfSome, IfNone, IfOk, Contains};
ghost use Rattle.std.specs.Bool.{OnTrue, OnFalse};
ghost use Rattle.std.specs.Option.{option_map, option_or};
ghost use Rattle.std.specs.FinMap as map;
ghost use Rattle.timers.specs.Timer.{first_time, released, start_waits, IsStartInTime, IsWithinBounds};
ghost use Rattle.timers.specs.Schedule.{next_time, start_kept, started, after_fired, after_skip, first_due, IsFirstDue, IsNoneDue};
ghost use Rattle.timers.specs.Queue.{firing, first_of, IsQueued, BeginsLive, BeginsStale, ListsWaiting, AreWithinBounds, IsReleasedAt, IsReleased, Serves};

use crate::firing_queue::FiringQueue;
use crate::running_timers::RunningTimers;
use crate::timer::{RunningTimer, StartFiring};
use std::alloc::{AllocError, Global};
use std::marker::Model;

/// The time, and the timers that run, each under its serial. Times are in milliseconds.
#[derive(Drop)]
pub struct Timers {
    time: u64,
    firing: bool,
    timers: RunningTimers,
    // The first firing of each timer is in it, beside some that have become stale.
    queue: FiringQueue,
    // The serials of the timers whose firing at the start waits, beside some others.
    waiting: Vec<u64>,
}

impl Model for Timers {
    ghost use Rattle.timers.specs.Schedule.{Schedule, schedule_code};
    ghost use Rattle.timers.specs.Sound.{IsSound};

    ghost Value = { Schedule };

    ghost coded = { schedule_code };

    ghost view = { λ t. record { time = t.time; firing = t.firing; running = t.timers.timers } };

    ghost invariant = { λ t. IsSound t.time t.timers t.queue t.waiting.items };
}

impl Timers {
    /// No timers, and the time 0.
    pub fn new(alloc: Global) -> Timers
        ensures { result ≡ record { time = 0; firing = false; running = map.empty } }
    {
        Timers {
            time: 0,
            firing: false,
            timers: RunningTimers::new(alloc),
            queue: FiringQueue::new(alloc),
            waiting: Vec::new(alloc),
        }
    }

    /// The time.
    pub fn now(&self) -> u64
        ensures { result ≡ self.now.time }
    {
        self.time
    }

    /// Starts the timer of that serial, which is due an interval of so many milliseconds from now, and
    /// then after each further one. `at_once` asks for one more firing, from now on, or, where a
    /// firing was taken since the last `advance`, from the next `advance` on.
    ///
    /// A timer that runs already gets the interval and the due time of one that starts now. Its
    /// outstanding firing at the start stays, unless `at_once` asks for a new one in its place.
    ///
    /// The only error is that memory ran out, and then nothing has changed.
    pub fn start(&mut self, serial: u64, interval: u32, at_once: bool) -> Result<(), AllocError>
        requires { 0 < interval }
        ensures ok { OnOk result (self.new ≡ started self.old serial interval at_once) }
        ensures err { OnErr result (self.new ≡ self.old) }
    {
        let asked = if at_once {
            Some(StartFiring {
                time: self.time,
                waits: self.firing,
            })
        } else {
            None
        };
        let at_start = start_firing(&self.timers, &mut self.waiting, serial, asked)?;
        let timer = RunningTimer {
            interval,
            due: self.time + u64::from(interval),
            at_start,
        };
        add(&mut self.timers, &mut self.queue, serial, timer)?;
        Ok(())
    }

    /// Stops the timer of that serial. One that doesn't run stays so.
    pub fn stop(&mut self, serial: u64)
        ensures { self.new ≡ record self.old { running = map.remove self.old.running serial } }
    {
        discard(&mut self.timers, &mut self.queue, serial);
    }

    /// The timer of that serial runs.
    pub fn is_running(&self, serial: u64) -> bool
        ensures { result ≡ map.contains_key self.now.running serial }
    {
        self.timers.get(serial).is_some()
    }

    /// The time and the serial of the first timer that is due by `until`: the one that fires at the
    /// earliest time, and of several the one of the least serial. A firing at the start counts unless
    /// it waits for the next `advance`. `None` where no timer is due by then.
    pub fn due(&self, until: u64) -> Option<(u64, u64)>
        ensures found { IfSome result (λ first. IsFirstDue self.now.running until first) }
        ensures none { IfNone result (IsNoneDue self.now.running until) }
        ensures least { result ≡ first_due self.now.running until }
    {
        match self.queue.first() {
            Some((time, serial)) if time <= until => Some((time, serial)),
            _ => None,
        }
    }

    /// Takes the first firing of that timer, which `due` gave. The time is then the one of that
    /// firing, or stays where it is later. The timer is due again an interval after the firing, or
    /// stops where `repeat` is false. A firing at the start leaves the due time as it is, and stops
    /// nothing.
    pub fn fired(&mut self, serial: u64, repeat: bool)
        requires { IsSomeAnd (next_time self.old.running serial) (λ time. time < 2 ^ 63) }
        ensures { self.new ≡ after_fired self.old serial repeat }
    {
        let Some(timer) = self.timers.get(serial) else {
            return;
        };
        self.time = self.time.max(timer.first_time());
        self.firing = true;
        match timer.after_firing(repeat) {
            Some(next) => change(&mut self.timers, &mut self.queue, serial, next),
            None => discard(&mut self.timers, &mut self.queue, serial),
        }
    }

    /// Skips the firings of that timer that are due by `until`: it is due at its first multiple after
    /// that time, and a firing at the start that was due is dropped.
    pub fn skip(&mut self, serial: u64, until: u64)
        requires runs { IsSome (map.get self.old.running serial) }
        requires soon { until < 2 ^ 63 }
        ensures { self.new ≡ after_skip self.old serial until }
    {
        let Some(timer) = self.timers.get(serial) else {
            return;
        };
        change(
            &mut self.timers,
            &mut self.queue,
            serial,
            timer.skipped(until),
        );
    }

    /// Ends a tick: the time is `until`, and firings at the start wait no longer.
    pub fn advance(&mut self, until: u64)
        requires { until < 2 ^ 63 }
        ensures time { self.new.time ≡ until }
        ensures firing { self.new.firing ≡ false }
        ensures timers { (serial : ℕ) →
            map.get self.new.running serial ≡ option_map released (map.get self.old.running serial) }
    {
        self.time = until;
        self.firing = false;
        release_all(&mut self.timers, &mut self.queue, &mut self.waiting);
    }
}

// The firing at the start of a timer that starts: the one that is asked for, or else the outstanding
// one. It is listed if it waits. The only error is that memory ran out.
fn start_firing(
    timers: &RunningTimers,
    waiting: &mut Vec<u64>,
    serial: u64,
    asked: Option<StartFiring>,
) -> Result<Option<StartFiring>, AllocError>
    requires waiting { ListsWaiting timers.now.timers waiting.old.items }
    requires time { IsStartInTime asked }
    requires bounds { AreWithinBounds timers.now.timers }
    ensures ok { IfOk result (λ start.
        start ≡ option_or asked (start_kept (map.get timers.now.timers serial))) }
    ensures listed { IfOk result (λ start.
        start_waits start ≡ true → Contains waiting.new.items serial) }
    ensures time { IfOk result IsStartInTime }
    ensures waiting { ListsWaiting timers.now.timers waiting.new.items }
{
    match asked {
        Some(start) => {
            if start.waits {
                waiting.push(serial)?;
            }
            Ok(asked)
        }
        None => match timers.get(serial) {
            Some(timer) => Ok(timer.at_start),
            None => Ok(None),
        },
    }
}

// The queue begins with what isn't the first firing of a timer any more.
fn begins_stale(timers: &RunningTimers, queue: &FiringQueue) -> bool
    ensures stale { OnTrue result (BeginsStale timers.now.timers queue.now.firings) }
    ensures live { OnFalse result (BeginsLive timers.now.timers queue.now.firings) }
{
    match queue.first() {
        Some((time, serial)) => match timers.next_time(serial) {
            Some(next) => next != time,
            None => true,
        },
        None => false,
    }
}

// Takes stale firings away until the queue begins with the first firing of a timer, or is empty.
fn drop_stale(timers: &RunningTimers, queue: &mut FiringQueue)
    requires { IsQueued timers.now.timers queue.old.firings }
    ensures queued { IsQueued timers.now.timers queue.new.firings }
    ensures live { BeginsLive timers.now.timers queue.new.firings }
    ensures few { length queue.new.firings ≤ length queue.old.firings }
    ensures room { queue.new.room ≡ queue.old.room }
{
    while begins_stale(timers, queue) {
        queue.pop();
    }
}

// Makes the queue, which has the first firing of each timer, serve the timers: where stale ones crowd it,
// it is filled anew.
fn tidy(timers: &RunningTimers, queue: &mut FiringQueue)
    requires queued { IsQueued timers.now.timers queue.old.firings }
    requires room { timers.now.count ≤ queue.old.room }
    ensures { Serves timers.now queue.new }
{
    if queue.is_crowded(timers.len()) {
        timers.refill(queue);
    }
    drop_stale(timers, queue);
}

// Puts the first firing of the serial's timer into the queue, which has those of the others. Where the
// queue is full of stale ones, it is filled anew.
fn enqueue(timers: &RunningTimers, queue: &mut FiringQueue, time: u64, serial: u64)
    requires others { IsQueued timers.now.timers (firing time serial ∷ queue.old.firings) }
    requires room { timers.now.count ≤ queue.old.room }
    ensures queued { IsQueued timers.now.timers queue.new.firings }
    ensures room { queue.old.room ≤ queue.new.room }
{
    if queue.is_full() {
        timers.refill(queue);
    } else {
        queue.push(time, serial);
    }
}

// Makes this the timer of the serial, whether one runs or not. The only error is that memory ran out,
// and then the timers have not changed.
fn add(
    timers: &mut RunningTimers,
    queue: &mut FiringQueue,
    serial: u64,
    timer: RunningTimer,
) -> Result<(), AllocError>
    requires { Serves timers.old queue.old }
    ensures ok { OnOk result (timers.new.timers ≡ map.insert timers.old.timers serial timer) }
    ensures err { OnErr result (timers.new ≡ timers.old) }
    ensures serves { Serves timers.new queue.new }
{
    queue.make_room(timers.len())?;
    timers.insert(serial, timer)?;
    enqueue(timers, queue, timer.first_time(), serial);
    tidy(timers, queue);
    Ok(())
}

// Makes this the timer of the serial, in place of the one that runs.
fn change(timers: &mut RunningTimers, queue: &mut FiringQueue, serial: u64, timer: RunningTimer)
    requires runs { IsSome (map.get timers.old.timers serial) }
    requires serves { Serves timers.old queue.old }
    ensures timers { timers.new.timers ≡ map.insert timers.old.timers serial timer }
    ensures serves { Serves timers.new queue.new }
{
    timers.replace(serial, timer);
    enqueue(timers, queue, timer.first_time(), serial);
    tidy(timers, queue);
}

// Removes the timer of the serial, if it runs.
fn discard(timers: &mut RunningTimers, queue: &mut FiringQueue, serial: u64)
    requires { Serves timers.old queue.old }
    ensures timers { timers.new.timers ≡ map.remove timers.old.timers serial }
    ensures serves { Serves timers.new queue.new }
{
    timers.remove(serial);
    tidy(timers, queue);
}

// The firing at the start of the serial's timer waits no longer, if there is one.
fn release(timers: &mut RunningTimers, queue: &mut FiringQueue, serial: u64)
    requires serves { Serves timers.old queue.old }
    ensures timers { IsReleasedAt timers.old.timers serial timers.new.timers }
    ensures serves { Serves timers.new queue.new }
{
    if let Some(timer) = timers.get(serial) {
        change(timers, queue, serial, timer.released());
    }
}

// Firings at the start wait no longer.
fn release_all(timers: &mut RunningTimers, queue: &mut FiringQueue, waiting: &mut Vec<u64>)
    requires waiting { ListsWaiting timers.old.timers waiting.old.items }
    requires serves { Serves timers.old queue.old }
    ensures timers { IsReleased timers.old.timers timers.new.timers }
    ensures serves { Serves timers.new queue.new }
    ensures waiting { waiting.new.items ≡ [] }
{
    while let Some(serial) = waiting.pop() {
        release(timers, queue, serial);
    }
}
