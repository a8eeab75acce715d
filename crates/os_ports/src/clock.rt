ghost use Rattle.std.specs.Prelude.{◌≡◌};
ghost use Rattle.jiff_core.specs.DateTime.{civil_nanos};
ghost use Rattle.jiff_core.specs.declared.civil.datetime.DateTime.{DateTime as Shown};
ghost use Rattle.os_ports.specs.Shown.{Shows};

use dump_ports::Moment;
use jiff_core::civil::DateTime;
use jiff_core::{Offset, Timestamp};
use std::time::Clock;

/// What the clock shows, in UTC.
///
/// Where it gives no moment, or one after 9999-12-30 22:00:00, that is the first second of 1970.
pub fn moment_now(clock: &impl Clock) -> Moment
    ensures { (shown : Shown) × Shows shown result }
{
    moment_at(instant_now(clock).unwrap_or(Timestamp::UNIX_EPOCH))
}

/// The instant that the clock gives, where the calendar reaches so far.
fn instant_now(clock: &impl Clock) -> Option<Timestamp> {
    let since_1970 = clock.since_1970().ok()?;
    let nanoseconds = i128::try_from(since_1970.as_nanos()).ok()?;
    Timestamp::from_nanosecond(nanoseconds).ok()
}

/// What a clock in UTC shows at an instant.
fn moment_at(instant: Timestamp) -> Moment
    ensures { (shown : Shown) × (civil_nanos shown ≡ instant.nanosecond) × Shows shown result }
{
    moment_of(Offset::UTC.to_datetime(instant))
}

/// The moment with the parts of a date and time.
fn moment_of(shown: DateTime) -> Moment
    ensures { Shows shown result }
{
    let DateTime { date, time } = shown;
    Moment {
        sec: time.second as i64,
        min: time.minute as i64,
        hour: time.hour as i64,
        mday: date.day as i64,
        mon: date.month as i64 - 1,
        year: date.year as i64 - 1900,
        isdst: 0,
    }
}
