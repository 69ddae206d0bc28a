// Days of the calendar, and civil times: a day with its time of day.
ghost use Rattle.std.specs.Prelude.{◌≡◌, ◌+◌, ◌-◌, ◌*◌, ◌^◌, ◌<◌, ◌≤◌, ◌/◌};
ghost use Rattle.loop_station_words.specs.Calendar.{IsCivilTimeOf, days_to_month, days_to_year, is_leap, month_length, year_length};

// The year that time is counted from.
const FIRST_YEAR: u64 = 1970;

// The months of a year.
const MONTHS: u64 = 12;

/// A date and time of day in UTC.
#[derive(Clone, Copy, Debug, PartialEq, Eq)]
pub struct CivilTime {
    /// The year, from 1970.
    pub year: u64,
    /// The month, from 1.
    pub month: u64,
    /// The day of the month, from 1.
    pub day: u64,
    /// The hour, up to 23.
    pub hour: u64,
    /// The minute, up to 59.
    pub minute: u64,
    /// The second, up to 59.
    pub second: u64,
    /// The microsecond, up to 999,999.
    pub micro: u64,
}

/// The date and time of day of a time in microseconds since 1970.
pub fn civil_time_of(micros: u64) -> CivilTime
    ensures { IsCivilTimeOf micros result }
{
    let seconds = micros / 1_000_000;
    let minutes = seconds / 60;
    let hours = minutes / 60;
    let (year, day) = year_of(hours / 24);
    let (month, day) = month_of(year, day);
    CivilTime {
        year,
        month: month + 1,
        day: day + 1,
        hour: hours % 24,
        minute: minutes % 60,
        second: seconds % 60,
        micro: micros % 1_000_000,
    }
}

// The year of a day, counted from the first day of 1970, and the day in that year, from 0.
fn year_of(day: u64) -> (u64, u64)
    requires { day < 2 ^ 48 }
    ensures since { 1970 ≤ result.0 }
    ensures few { result.0 ≤ 1970 + day }
    ensures within { result.1 < year_length result.0 }
    ensures sum { days_to_year (result.0 - 1970) + result.1 ≡ day }
{
    let mut years = 0;
    let mut left = day;
    'years: while left >= year_length(FIRST_YEAR + years) {
        left -= year_length(FIRST_YEAR + years);
        years += 1;
    }
    (FIRST_YEAR + years, left)
}

// The month of a day of a year, and the day in that month, both from 0.
fn month_of(year: u64, day: u64) -> (u64, u64)
    requires { day < year_length year }
    ensures month { result.0 < 12 }
    ensures within { result.1 < month_length year result.0 }
    ensures sum { days_to_month year result.0 + result.1 ≡ day }
{
    let mut left = day;
    'months: for month in 0..MONTHS {
        let days = month_length(year, month);
        if left < days {
            return (month, left);
        }
        left -= days;
    }
    unreachable!()
}

// Whether a year has 366 days.
#[tactic(auto, unfolding(crate::specs::Calendar::is_leap))]
fn is_leap(year: u64) -> bool
    ensures { result ≡ is_leap year }
{
    year % 4 == 0 && (year % 100 != 0 || year % 400 == 0)
}

// The days of a year.
fn year_length(year: u64) -> u64
    ensures { result ≡ year_length year }
{
    if is_leap(year) { 366 } else { 365 }
}

/// The days of a month; January is 0.
pub(crate) fn month_length(year: u64, month: u64) -> u64
    ensures { result ≡ month_length year month }
{
    match month {
        1 => { if is_leap(year) { 29 } else { 28 } }
        3 | 5 | 8 | 10 => 30,
        _ => 31,
    }
}

/// The days from 1970 up to the beginning of a year.
pub(crate) fn days_before(year: u64) -> u64
    requires since { 1970 ≤ year }
    requires until { year < 10000 }
    ensures days { result ≡ days_to_year (year - 1970) }
    ensures few { result ≤ (year - 1970) * 366 }
{
    let mut days = 0;
    'years: for years in 0..year - FIRST_YEAR {
        days += year_length(FIRST_YEAR + years);
    }
    days
}

/// The days of a year before a month.
pub(crate) fn days_before_month(year: u64, month: u64) -> u64
    requires { month < 12 }
    ensures days { result ≡ days_to_month year month }
    ensures few { result ≤ month * 31 }
{
    let mut days = 0;
    'months: for earlier in 0..month {
        days += month_length(year, earlier);
    }
    days
}
