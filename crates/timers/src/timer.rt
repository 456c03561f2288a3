ghost use Rattle.std.specs.Prelude.{◌≡◌, ℕ, ◌+◌, ◌^◌, ◌<◌, true, IfSome};
ghost use Rattle.timers.specs.Timer.{start_time, first_time, after_firing, first_after, start_after, skipped, start_waits, IsStartInTime, IsWithinBounds, released};

/// A firing for which a timer asked when it started, beside those at its due times.
#[derive(Clone, Copy)]
pub struct StartFiring {
    /// When it was asked for, and so the time from which it is due, in milliseconds.
    pub time: u64,
    /// It isn't due before the next `advance`, whatever the time.
    pub waits: bool,
}

/// A timer that runs.
#[derive(Clone, Copy)]
pub struct RunningTimer {
    /// The milliseconds between two firings.
    pub interval: u32,
    /// When it fires next, the firing at the start aside, in milliseconds.
    pub due: u64,
    /// The firing at the start, while it is outstanding.
    pub at_start: Option<StartFiring>,
}

impl RunningTimer {
    // The time of the firing at the start, where there is one that doesn't wait.
    pub(crate) fn start_time(self) -> Option<u64>
        ensures { result ≡ start_time self.at_start }
    {
        match self.at_start {
            Some(start) if !start.waits => Some(start.time),
            _ => None,
        }
    }

    // The time of the first firing.
    #[tactic(auto, unfolding(crate::specs::Timer::first_time))]
    pub(crate) fn first_time(self) -> u64
        ensures { result ≡ first_time self }
    {
        match self.start_time() {
            Some(time) => time.min(self.due),
            None => self.due,
        }
    }

    // What the first firing leaves, or `None` where the timer stops.
    #[tactic(auto, unfolding(crate::specs::Timer::first_time, crate::specs::Timer::after_firing))]
    pub(crate) fn after_firing(self, repeat: bool) -> Option<RunningTimer>
        requires soon { first_time self < 2 ^ 63 }
        ensures timer { result ≡ after_firing repeat self }
        ensures bounds { IsWithinBounds self → IfSome result IsWithinBounds }
        ensures waits { IfSome result (λ next. start_waits next.at_start ≡ true →
            start_waits self.at_start ≡ true) }
    {
        match self.start_time() {
            Some(time) if time <= self.due => Some(RunningTimer {
                at_start: None,
                ..self
            }),
            _ if repeat => Some(RunningTimer {
                due: self.due + u64::from(self.interval),
                ..self
            }),
            _ => None,
        }
    }

    // What is left where each firing that is due by `until` is skipped.
    #[tactic(auto, unfolding(crate::specs::Timer::skipped))]
    pub(crate) fn skipped(self, until: u64) -> RunningTimer
        requires interval { 0 < self.interval }
        requires until { until < 2 ^ 63 }
        ensures timer { result ≡ skipped until self }
        ensures bounds { IsWithinBounds self → IsWithinBounds result }
        ensures waits { start_waits result.at_start ≡ true → start_waits self.at_start ≡ true }
    {
        RunningTimer {
            due: first_after(self.due, self.interval, until),
            at_start: start_after(self.at_start, until),
            ..self
        }
    }

    // The timer once its firing at the start waits no more.
    #[tactic(auto, unfolding(crate::specs::Timer::released))]
    pub(crate) fn released(self) -> RunningTimer
        ensures { result ≡ released self }
    {
        RunningTimer {
            at_start: match self.at_start {
                Some(start) => Some(StartFiring {
                    waits: false,
                    ..start
                }),
                None => None,
            },
            ..self
        }
    }
}

// The first of `due`, `due + interval`, `due + 2 * interval` .. that is after `until`.
#[tactic(auto, unfolding(crate::specs::Timer::first_after), using(crate::proofs::Multiples::after_left_over))]
fn first_after(due: u64, interval: u32, until: u64) -> u64
    requires interval { 0 < interval }
    requires until { until < 2 ^ 63 }
    ensures time { result ≡ first_after due interval until }
    ensures bound { due < 2 ^ 63 + 2 ^ 32 → result < 2 ^ 63 + 2 ^ 32 }
{
    if until < due {
        return due;
    }
    let interval = u64::from(interval);
    until - (until - due) % interval + interval
}

// The firing at the start, unless it is due by `until`.
fn start_after(at_start: Option<StartFiring>, until: u64) -> Option<StartFiring>
    ensures firing { result ≡ start_after until at_start }
    ensures in_time { IsStartInTime at_start → IsStartInTime result }
    ensures waits { start_waits result ≡ true → start_waits at_start ≡ true }
{
    match at_start {
        Some(start) if !start.waits && start.time <= until => None,
        other => other,
    }
}
