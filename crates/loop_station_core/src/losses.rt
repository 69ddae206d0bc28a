//! Frames that a source without numbers of its own lost, judged by how far apart those came that did.

ghost use Rattle.std.specs.Prelude.{◌≡◌, ◌<◌, IfSome, count_by, length, nat_le, nat_lt, position};
ghost use Rattle.loop_station_core.specs.Losses.{is_judged, is_median, is_near, is_regular, lost_by_time, median, period_of, rounded};

/// How many distances of a source's frames are looked at: the newest ones.
pub const MOST_DISTANCES: usize = 64;

// Fewer distances than these don't say the period: then the header does.
const SOME_DISTANCES: usize = 16;

// Where the next frame comes within so many microseconds, none is lost: it came late.
const LATE_FRAME: u64 = 250_000;

// A source that gave nothing for longer than so many microseconds made a pause.
const LONGEST: u64 = 10_000_000;

// Whether a distance is within three tenths of the period.
fn is_near(period: u64, distance: u64) -> bool
    ensures { result ≡ is_near period distance }
{
    let most = period / 10 * 3;
    distance.saturating_sub(period) <= most && period.saturating_sub(distance) <= most
}

// Whether three quarters of some distances are near the period.
fn is_regular(distances: &[u64], period: u64) -> bool
    ensures { result ≡ is_regular distances.now period }
{
    let near = distances
        .iter()
        .filter(|distance| is_near(period, **distance))
        .count();
    near > 0 && near >= distances.len() - distances.len() / 4
}

// Whether fewer than half of some distances are less than this one, and half of them or more are no greater.
fn is_median(distances: &[u64], middle: u64) -> bool
    ensures { result ≡ is_median distances.now middle }
{
    let half = distances.len() - distances.len() / 2;
    count_less(distances, middle) < half && half <= count_upto(distances, middle)
}

// How many distances are less than this one.
fn count_less(distances: &[u64], middle: u64) -> usize
    ensures { result ≡ count_by (λ d. nat_lt d middle) distances.now }
{
    distances.iter().filter(|other| **other < middle).count()
}

// How many are no greater.
fn count_upto(distances: &[u64], middle: u64) -> usize
    ensures { result ≡ count_by (λ d. nat_le d middle) distances.now }
{
    distances.iter().filter(|other| **other <= middle).count()
}

// The place of the median of some distances.
fn median_at(distances: &[u64]) -> Option<usize>
    ensures place { result ≡ position (is_median distances.now) distances.now }
    ensures within { IfSome result (λ i. i < length distances.now) }
{
    distances
        .iter()
        .position(|distance| is_median(distances, *distance))
}

// The median of some distances; 0 of none.
fn median(distances: &[u64]) -> u64
    ensures { result ≡ median distances.now }
{
    match median_at(distances) {
        Some(i) => distances[i],
        None => 0,
    }
}

// How far apart a source's frames come: as they did, or, where few are known, as its header says.
fn period_of(distances: &[u64], header: u64) -> u64
    ensures { result ≡ period_of distances.now header }
{
    if distances.len() < SOME_DISTANCES {
        header
    } else {
        median(distances)
    }
}

// Whether a distance says how many frames are lost in it.
fn is_judged(distances: &[u64], period: u64, distance: u64) -> bool
    ensures { result ≡ is_judged distances.now period distance }
{
    distance > LATE_FRAME && distance <= LONGEST && period > 0 && is_regular(distances, period)
}

// How many periods a distance is, rounded.
fn rounded(distance: u64, period: u64) -> u64
    ensures { result ≡ rounded distance period }
{
    if period == 0 {
        return 0;
    }
    let rest = distance % period;
    if rest > period - rest {
        (distance / period).saturating_add(1)
    } else {
        distance / period
    }
}

/// How many frames a source lost before one that came so many microseconds after the one before. `distances`: how far
/// apart the newest ones before came, 64 at most; `header`: how far apart frames come at the rate of its header. Nothing
/// is lost where frames come irregularly, as those of a camera do that is triggered, or in a pause.
pub fn lost_by_time(distances: &[u64], header: u64, distance: u64) -> u64
    ensures { result ≡ lost_by_time distances.now header distance }
{
    let period = period_of(distances, header);
    if is_judged(distances, period, distance) {
        rounded(distance, period).saturating_sub(1)
    } else {
        0
    }
}
