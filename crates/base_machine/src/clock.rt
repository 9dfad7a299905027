// The edge to the system's clock.
ghost use Rattle.std.specs.Prelude.{◌≡◌};
ghost use Rattle.std.specs.Duration.{as_nanos};
ghost use Rattle.base_machine.specs.FileTime.{file_time};

use base_outside::Clock;
use std::time;
use std::time::{Duration, Instant, SystemTime, UNIX_EPOCH};

/// The time of day as a server tells it: the machine's at the first call and what has passed since, by a clock that nobody sets, so that
/// deadlines don't pass where the machine's time jumps. Toward the machine's time it moves by a hundredth of what has passed at most.
/// Where a clock can't be read, or the machine's stands before 1970, the moment that was told last is told again. What the system answers
/// is trusted.
#[derive(Drop)]
pub struct StdClock<R> {
    rt: R,
    /// What was told last, and when by the clock that nobody sets.
    last: Option<(u64, Instant)>,
}

impl<R: time::Clock> StdClock<R> {
    pub fn new(rt: R) -> StdClock<R> {
        StdClock { rt, last: None }
    }

    // The machine's time of day.
    fn time_of_day(&self) -> Option<u64> {
        let time = SystemTime::now(&self.rt).ok()?;
        let since_1970 = time.duration_since(UNIX_EPOCH).ok()?;
        Some(file_time(since_1970))
    }
}

/// The moment that is so long after the beginning of 1970, in units of 100 nanoseconds since 1601.
pub fn file_time(since_1970: Duration) -> u64
    ensures { result ≡ file_time (as_nanos since_1970) }
{
    let units = since_1970.as_nanos() / 100 + 116_444_736_000_000_000;
    units.min(u64::MAX as u128) as u64
}

/// So many units of 100 nanoseconds later, and toward a time of day by a hundredth of these at most.
fn moved(last: u64, passed: u64, wanted: u64) -> u64 {
    let later = last.saturating_add(passed);
    let most = passed / 100;
    if wanted > later {
        later.saturating_add(most.min(wanted - later))
    } else {
        later.saturating_sub(most.min(later - wanted))
    }
}

impl<R: time::Clock> Clock for StdClock<R> {
    fn now(&mut self) -> u64 {
        let Ok(instant) = Instant::now(&self.rt) else {
            return self.last.map_or(0, |(last, _)| last);
        };
        let now = match (self.last, self.time_of_day()) {
            (None, None) => return 0,
            (None, Some(time)) => time,
            (Some((last, at)), time) => {
                let passed = instant.duration_since(at).as_nanos() / 100;
                let passed = passed.min(u64::MAX as u128) as u64;
                moved(last, passed, time.unwrap_or(last.saturating_add(passed)))
            }
        };
        self.last = Some((now, instant));
        now
    }
}
