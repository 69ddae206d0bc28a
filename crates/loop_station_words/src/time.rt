// Dates with their times of day, as texts: ISO 8601.
ghost use Rattle.std.specs.Prelude.{◌≡◌, ◌<◌, ◌≤◌, ◌-◌, ◌^◌};
ghost use Rattle.loop_station_words.specs.Times.{below, clock_said, day_of, day_said, decimals_said, east, micros_of_second, minutes_of, offset_said, seconds_said, sized, sum_of, time_said, west, zoned};

use crate::calendar::{days_before, days_before_month, month_length};
use crate::cut::cut;
use loop_script::small_number;

// The microseconds of a day.
const DAY: u64 = 86_400_000_000;

/// The time in microseconds since 1970 that a text says, such as `2026-11-22T15:38:00Z`. The second may have up to six
/// decimals, and the zone is `Z` or an offset such as `+01:00`. `None` where it says none, or a time before 1970.
pub fn read_time(text: &str) -> Option<u64>
    ensures { result ≡ time_said text.now }
{
    match cut(text, 'T') {
        None => None,
        Some((date, clock)) => read_zoned(read_day(date), clock),
    }
}

// The time of a day and of the text after the `T`: a time of day, and a zone.
#[tactic(auto, unfolding(crate::specs::Times::zoned))]
fn read_zoned(day: Option<u64>, text: &str) -> Option<u64>
    requires { below 3652059 day }
    ensures { result ≡ zoned day text.now }
{
    if let Some((clock, rest)) = cut(text, 'Z') {
        return if rest.is_empty() {
            east(day, read_clock(clock), Some(0))
        } else {
            None
        };
    }
    if let Some((clock, offset)) = cut(text, '+') {
        return east(day, read_clock(clock), read_offset(offset));
    }
    match cut(text, '-') {
        None => None,
        Some((clock, offset)) => west(day, read_clock(clock), read_offset(offset)),
    }
}

// The time of a day and a time of day where clocks are so much ahead of UTC.
fn east(day: Option<u64>, clock: Option<u64>, offset: Option<u64>) -> Option<u64>
    requires day { below 3652059 day }
    requires clock { below (2 ^ 54) clock }
    ensures { result ≡ east day clock offset }
{
    (day? * DAY + clock?).checked_sub(offset?)
}

// The time of a day and a time of day where clocks are so much behind UTC.
fn west(day: Option<u64>, clock: Option<u64>, offset: Option<u64>) -> Option<u64>
    requires day { below 3652059 day }
    requires clock { below (2 ^ 54) clock }
    requires offset { below 86400000000 offset }
    ensures { result ≡ west day clock offset }
{
    Some(day? * DAY + clock? + offset?)
}

// The number of the day that `YYYY-MM-DD` names, counted from the first day of 1970.
#[tactic(auto, unfolding(crate::specs::Times::day_said))]
fn read_day(text: &str) -> Option<u64>
    ensures day { result ≡ day_said text.now }
    ensures few { below 3652059 result }
{
    match cut(text, '-') {
        None => None,
        Some((year, rest)) => match cut(rest, '-') {
            None => None,
            Some((month, day)) => day_of(sized(year, 4), sized(month, 2), sized(day, 2)),
        },
    }
}

// The number of a day, counted in the same way.
fn day_of(year: Option<u32>, month: Option<u32>, day: Option<u32>) -> Option<u64>
    ensures day { result ≡ day_of year month day }
    ensures few { below 3652059 result }
{
    let (year, month, day) = (u64::from(year?), u64::from(month?), u64::from(day?));
    if year < 1970
        || year > 9999
        || month < 1
        || month > 12
        || day < 1
        || day > month_length(year, month - 1)
    {
        return None;
    }
    Some(days_before(year) + days_before_month(year, month - 1) + (day - 1))
}

// The microseconds of a time of day, `HH:MM:SS` or with decimals.
#[tactic(auto, unfolding(crate::specs::Times::clock_said))]
fn read_clock(text: &str) -> Option<u64>
    ensures clock { result ≡ clock_said text.now }
    ensures few { below (2 ^ 54) result }
{
    match cut(text, ':') {
        None => None,
        Some((hour, rest)) => match cut(rest, ':') {
            None => None,
            Some((minute, seconds)) => sum_of(
                minutes_of(sized(hour, 2), sized(minute, 2)),
                read_seconds(seconds),
            ),
        },
    }
}

// The sum of both.
fn sum_of(minutes: Option<u64>, seconds: Option<u64>) -> Option<u64>
    requires minutes { below 86340000001 minutes }
    requires seconds { below (2 ^ 53) seconds }
    ensures sum { result ≡ sum_of minutes seconds }
    ensures few { below (2 ^ 54) result }
{
    Some(minutes? + seconds?)
}

// The microseconds of `HH:MM`.
#[tactic(auto, unfolding(crate::specs::Times::offset_said))]
fn read_offset(text: &str) -> Option<u64>
    ensures offset { result ≡ offset_said text.now }
    ensures few { below 86400000000 result }
{
    match cut(text, ':') {
        None => None,
        Some((hour, minute)) => minutes_of(sized(hour, 2), sized(minute, 2)),
    }
}

// The microseconds of hours and minutes.
fn minutes_of(hour: Option<u32>, minute: Option<u32>) -> Option<u64>
    ensures minutes { result ≡ minutes_of hour minute }
    ensures few { below 86340000001 result }
{
    let (hour, minute) = (u64::from(hour?), u64::from(minute?));
    if hour >= 24 || minute >= 60 {
        return None;
    }
    Some((hour * 60 + minute) * 60_000_000)
}

// The microseconds of `SS`, or of `SS.` with decimals.
#[tactic(auto, unfolding(crate::specs::Times::seconds_said))]
fn read_seconds(text: &str) -> Option<u64>
    ensures seconds { result ≡ seconds_said text.now }
    ensures few { below (2 ^ 53) result }
{
    match cut(text, '.') {
        None => micros_of_second(sized(text, 2), Some(0)),
        Some((seconds, decimals)) => micros_of_second(sized(seconds, 2), read_decimals(decimals)),
    }
}

// The microseconds of whole seconds and a part.
fn micros_of_second(seconds: Option<u32>, part: Option<u64>) -> Option<u64>
    requires { below (2 ^ 52) part }
    ensures seconds { result ≡ micros_of_second seconds part }
    ensures few { below (2 ^ 53) result }
{
    let (seconds, part) = (u64::from(seconds?), part?);
    if seconds >= 60 {
        return None;
    }
    Some(seconds * 1_000_000 + part)
}

// The microseconds that 1 to 6 decimals of a second are.
#[tactic(auto, unfolding(crate::specs::Times::decimals_said))]
fn read_decimals(text: &str) -> Option<u64>
    ensures decimals { result ≡ decimals_said text.now }
    ensures few { below (2 ^ 52) result }
{
    if text.len() > 6 {
        return None;
    }
    Some(u64::from(small_number(text)?) * unit(text.len()))
}

// The microseconds of a unit in the last of so many decimals.
fn unit(decimals: usize) -> u64
    requires { decimals ≤ 6 }
    ensures unit { result ≡ 10 ^ (6 - decimals) }
    ensures few { result ≤ 1000000 }
{
    match decimals {
        0 => 1_000_000,
        1 => 100_000,
        2 => 10_000,
        3 => 1_000,
        4 => 100,
        5 => 10,
        _ => 1,
    }
}

// The number that exactly so many digits write.
#[tactic(auto, unfolding(crate::specs::Times::sized))]
fn sized(word: &str, count: usize) -> Option<u32>
    ensures number { result ≡ sized count word.now }
{
    if word.len() != count {
        return None;
    }
    small_number(word)
}
