use std::alloc::{AllocError, Global};
use std::test::Fail;
use timers::Timers;

struct Start {
    serial: u64,
    interval: u32,
    at_once: bool,
}

macro_rules! start {
    ($serial:expr, $interval:expr) => {
        start!($serial, $interval, false)
    };
    ($serial:expr, $interval:expr, $at_once:expr) => {
        Start {
            serial: $serial,
            interval: $interval,
            at_once: $at_once,
        }
    };
}

/// Timers that start, of which `once` doesn't repeat, the ends of two ticks, and the firings of both,
/// each a time and a serial.
struct Ticks {
    starts: &'static [Start],
    once: u64,
    ends: [u32; 2],
    firings: &'static [(u64, u64)],
}

static TICKS: [Ticks; 8] = [
    // every interval, from the due time on
    Ticks {
        starts: &[start!(1, 10)],
        once: 0,
        ends: [25, 30],
        firings: &[(10, 1), (20, 1), (30, 1)],
    },
    Ticks {
        starts: &[start!(1, 10)],
        once: 0,
        ends: [9, 10],
        firings: &[(10, 1)],
    },
    Ticks {
        starts: &[start!(1, 10)],
        once: 0,
        ends: [10, 10],
        firings: &[(10, 1)],
    },
    // together by serial, and else by time
    Ticks {
        starts: &[start!(7, 10), start!(3, 10), start!(5, 6)],
        once: 0,
        ends: [10, 12],
        firings: &[(6, 5), (10, 3), (10, 7), (12, 5)],
    },
    // one that doesn't repeat
    Ticks {
        starts: &[start!(4, 10), start!(2, 10)],
        once: 4,
        ends: [10, 20],
        firings: &[(10, 2), (10, 4), (20, 2)],
    },
    // at the start, which stops nothing
    Ticks {
        starts: &[start!(4, 10, true)],
        once: 4,
        ends: [0, 30],
        firings: &[(0, 4), (10, 4)],
    },
    Ticks {
        starts: &[start!(8, 3), start!(9, 5, true)],
        once: 0,
        ends: [5, 5],
        firings: &[(0, 9), (3, 8), (5, 9)],
    },
    // once more with another interval: the firing at the start stays
    Ticks {
        starts: &[start!(1, 10, true), start!(1, 4)],
        once: 0,
        ends: [9, 9],
        firings: &[(0, 1), (4, 1), (8, 1)],
    },
];

fn start_all(timers: &mut Timers, starts: &[Start]) -> Result<(), AllocError> {
    for start in starts {
        timers.start(start.serial, start.interval.max(1), start.at_once)?;
    }
    Ok(())
}

fn fire_all(
    timers: &mut Timers,
    until: u32,
    once: u64,
    firings: &mut Vec<(u64, u64)>,
) -> Result<(), AllocError> {
    let until = u64::from(until);
    for _ in 0..20 {
        if let Some((time, serial)) = timers.due(until) {
            firings.push((time, serial))?;
            timers.fired(serial, serial != once);
        }
    }
    timers.advance(until);
    Ok(())
}

fn firings_of(alloc: Global, case: &Ticks) -> Result<Vec<(u64, u64)>, AllocError> {
    let mut timers = Timers::new(alloc);
    let mut firings = Vec::new(alloc);
    start_all(&mut timers, case.starts)?;
    fire_all(&mut timers, case.ends[0], case.once, &mut firings)?;
    fire_all(&mut timers, case.ends[1], case.once, &mut firings)?;
    Ok(firings)
}

#[test]
fn two_ticks(rt: HostRuntime) -> Result<(), Fail> {
    for case in &TICKS {
        let firings = firings_of(rt.alloc(), case)?;
        assert!(rt; firings.as_slice() == case.firings);
    }
    Ok(())
}

/// A call on timers. `Fire` and `Skip` are for the timer that is due first by 1000.
#[derive(Clone, Copy)]
enum Step {
    Start(u64, u32, bool),
    Fire { repeat: bool },
    Skip { until: u32 },
    Stop(u64),
    Advance(u32),
}

/// What is so after a step: the first firing by 1000, the time, and whether timer 2 runs.
struct After {
    step: Step,
    due: Option<(u64, u64)>,
    now: u64,
    second_runs: bool,
}

macro_rules! after {
    ($step:expr => $due:expr, $now:expr, $second_runs:expr) => {
        After {
            step: $step,
            due: $due,
            now: $now,
            second_runs: $second_runs,
        }
    };
}

static STEPS: [After; 16] = [
    after!(Step::Start(1, 10, false) => Some((10, 1)), 0, false),
    after!(Step::Fire { repeat: true } => Some((20, 1)), 10, false),
    // what starts now is due from now, and its firing at the start in the next tick
    after!(Step::Start(2, 5, true) => Some((15, 2)), 10, true),
    after!(Step::Stop(1) => Some((15, 2)), 10, true),
    after!(Step::Stop(1) => Some((15, 2)), 10, true),
    after!(Step::Skip { until: 20 } => Some((25, 2)), 10, true),
    after!(Step::Advance(20) => Some((10, 2)), 20, true),
    after!(Step::Fire { repeat: false } => Some((25, 2)), 20, true),
    // multiples of the interval, after the time and not at it
    after!(Step::Skip { until: 25 } => Some((30, 2)), 20, true),
    after!(Step::Skip { until: 29 } => Some((30, 2)), 20, true),
    after!(Step::Skip { until: 42 } => Some((45, 2)), 20, true),
    after!(Step::Stop(2) => None, 20, false),
    after!(Step::Advance(42) => None, 42, false),
    // a firing at the start that was due is dropped, and the due time stays as it is
    after!(Step::Start(3, 50, true) => Some((42, 3)), 42, false),
    after!(Step::Skip { until: 42 } => Some((92, 3)), 42, false),
    after!(Step::Fire { repeat: false } => None, 92, false),
];

fn act(timers: &mut Timers, step: Step) -> Result<(), AllocError> {
    let first = timers.due(1000);
    match step {
        Step::Start(serial, interval, at_once) => timers.start(serial, interval.max(1), at_once)?,
        Step::Stop(serial) => timers.stop(serial),
        Step::Advance(until) => timers.advance(u64::from(until)),
        Step::Fire { repeat } => {
            if let Some((_, serial)) = first {
                timers.fired(serial, repeat);
            }
        }
        Step::Skip { until } => {
            if let Some((_, serial)) = first {
                timers.skip(serial, u64::from(until));
            }
        }
    }
    Ok(())
}

#[test]
fn one_step_after_another(rt: HostRuntime) -> Result<(), Fail> {
    let mut timers = Timers::new(rt.alloc());
    for after in &STEPS {
        act(&mut timers, after.step)?;
        let seen = (timers.due(1000), timers.now(), timers.is_running(2));
        assert!(rt; seen == (after.due, after.now, after.second_runs));
    }
    Ok(())
}

#[test]
fn the_same_timers_over_and_over(rt: HostRuntime) -> Result<(), Fail> {
    let mut timers = Timers::new(rt.alloc());
    timers.start(2, 7, false)?;
    for n in 1..=140 {
        timers.start(1, 5000 + n, false)?;
        act(&mut timers, Step::Skip { until: 7 * n })?;
        assert!(rt; timers.due(4000) == Some((7 * u64::from(n) + 7, 2)));
    }
    Ok(())
}
