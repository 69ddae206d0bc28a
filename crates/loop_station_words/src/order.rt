// Orders: the lines that ask for something. docs/station.md says why it is so.
ghost use Rattle.std.specs.Prelude.{◌≡◌, option_map};
ghost use Rattle.loop_station_words.specs.Cuts.{cut};
ghost use Rattle.loop_station_words.specs.Orders.{after_said, after_seconds, alone_said, between_of, cancel_of, cancel_said, event_said, first_word, from_said, keep_of, keep_said, label_said, order_said, plain_said, release_of, release_said, said_number, save_event_of, save_of, save_said, tagged, timed_said, times_in, times_kept, times_said, to_cut};

use crate::cut::cut;
use crate::name::{Name, is_label, named};
use crate::time::read_time;
use loop_script::number::number;
use loop_script::small_number;

/// What a line asks for.
#[derive(Drop)]
pub enum Order<'a> {
    /// `keep [CAMERA] [SECONDS] [+AFTER] [TAG]`: the frames of the last seconds are locked, and those of the AFTER
    /// seconds to come, of one camera or of all. What is left out is the camera's own. A TAG has seconds or an AFTER
    /// before it.
    Keep {
        camera: Option<Name<'a>>,
        seconds: Option<u32>,
        after: Option<u32>,
        tag: Option<u64>,
    },
    /// `keep [CAMERA] from T to T [TAG]`: the frames of that time, in microseconds since 1970, are locked. It may end
    /// after the order.
    KeepBetween {
        camera: Option<Name<'a>>,
        since: u64,
        until: u64,
        tag: Option<u64>,
    },
    /// `release CAMERA ID [FIRST]`: the clip of that id is unlocked, where a FIRST is given only if the clip begins
    /// with the frame of that number.
    Release {
        camera: Name<'a>,
        id: u32,
        first: Option<u64>,
    },
    /// `list`: what each camera's store holds.
    List,
    /// `save CAMERA ID OUT`: the clip's frames are written to a file. OUT is everything after the third space, and may
    /// have spaces. `save! CAMERA ID OUT` replaces a file that exists.
    Save {
        camera: Name<'a>,
        id: u32,
        out: Name<'a>,
        replace: bool,
    },
    /// `save CAMERA #TAG OUT`: the frames of all clips of the camera that have the tag, in whichever of its stores they
    /// lie, are written to a file as one text, in the order of their times. An event's number is the tag of its clips,
    /// unless they were given another. `save! CAMERA #TAG OUT` replaces a file that exists.
    SaveEvent {
        camera: Name<'a>,
        tag: u64,
        out: Name<'a>,
        replace: bool,
    },
    /// `cancel CAMERA ID`: the save of the clip of that id ends.
    Cancel {
        camera: Name<'a>,
        id: u32,
    },
    /// `status`: the status of each camera.
    Status,
    /// `reload`: the configuration is read anew.
    Reload,
    /// `help`: what may be asked for.
    Help,
    /// `stop`: the program ends.
    Stop,
}

// How long a keep is, before and after its order, in seconds, and its tag: each where it is given.
struct KeepTimes {
    seconds: Option<u32>,
    after: Option<u32>,
    tag: Option<u64>,
}

/// The label of a line that begins with `@LABEL `, and the rest of the line.
#[tactic(auto, unfolding(crate::specs::Orders::label_said))]
pub fn label_of<'a>(line: &'a str) -> Option<(Name<'a>, Name<'a>)>
    ensures { result ≡ label_said line.now }
{
    match cut(line, '@') {
        Some((before, after)) if before.is_empty() => match cut(after, ' ') {
            Some((label, rest)) if is_label(label) => Some((Name::of(label), Name::of(rest))),
            _ => None,
        },
        _ => None,
    }
}

/// What a line, without its 0x0A and its label, asks for; `None` where it can't be read.
pub fn read_order<'a>(line: &'a str) -> Option<Order<'a>>
    ensures { result ≡ order_said line.now }
{
    match read_timed(line) {
        Some(order) => Some(order),
        None => read_plain(line),
    }
}

// What a line with times of day asks for.
#[tactic(auto, unfolding(crate::specs::Orders::timed_said))]
fn read_timed<'a>(line: &'a str) -> Option<Order<'a>>
    ensures { result ≡ timed_said line.now }
{
    match cut(line, ' ') {
        Some((word, rest)) if word == "keep" => read_times_kept(rest),
        _ => None,
    }
}

// What follows `keep `: `from T to T`, with or without a camera before it.
#[tactic(auto, unfolding(crate::specs::Orders::times_kept))]
fn read_times_kept<'a>(text: &'a str) -> Option<Order<'a>>
    ensures { result ≡ times_kept text.now }
{
    match read_from(None, text) {
        Some(order) => Some(order),
        None => match cut(text, ' ') {
            None => None,
            Some((first, rest)) => match named(first) {
                None => None,
                Some(camera) => read_from(Some(camera), rest),
            },
        },
    }
}

// `from T to T`, and a tag.
#[tactic(auto, unfolding(crate::specs::Orders::from_said))]
fn read_from<'a>(camera: Option<Name<'a>>, text: &str) -> Option<Order<'a>>
    ensures { result ≡ from_said camera.entry text.now }
{
    match cut(text, ' ') {
        Some((word, rest)) if word == "from" => match cut(rest, ' ') {
            None => None,
            Some((since, rest)) => read_to(camera, read_time(since), rest),
        },
        _ => None,
    }
}

// `to T`, and a tag.
fn read_to<'a>(camera: Option<Name<'a>>, since: Option<u64>, text: &str) -> Option<Order<'a>>
    ensures { result ≡ to_cut camera.entry since (cut 32 text.now) }
{
    match cut(text, ' ') {
        Some((word, rest)) if word == "to" => match cut(rest, ' ') {
            None => between_of(camera, since, read_time(rest), Some(None)),
            Some((until, tag)) => between_of(
                camera,
                since,
                read_time(until),
                said_number(number(tag)),
            ),
        },
        _ => None,
    }
}

// A tag, where there is a number.
fn said_number(number: Option<u64>) -> Option<Option<u64>>
    ensures { result ≡ said_number number }
{
    Some(Some(number?))
}

// The keep of what was held from one time to another.
fn between_of<'a>(
    camera: Option<Name<'a>>,
    since: Option<u64>,
    until: Option<u64>,
    tag: Option<Option<u64>>,
) -> Option<Order<'a>>
    ensures { result ≡ between_of camera.entry since until tag }
{
    let (since, until, tag) = (since?, until?, tag?);
    if since > until {
        return None;
    }
    Some(Order::KeepBetween {
        camera,
        since,
        until,
        tag,
    })
}

// What a line without times of day asks for.
#[tactic(auto, unfolding(crate::specs::Orders::plain_said))]
fn read_plain<'a>(line: &'a str) -> Option<Order<'a>>
    ensures { result ≡ plain_said line.now }
{
    match cut(line, ' ') {
        None => read_alone(line),
        Some((word, rest)) if word == "keep" => read_keep(rest),
        Some((word, rest)) if word == "release" => read_release(rest),
        Some((word, rest)) if word == "save" => read_save(rest, false),
        Some((word, rest)) if word == "save!" => read_save(rest, true),
        Some((word, rest)) if word == "cancel" => read_cancel(rest),
        Some(_) => None,
    }
}

// What a word alone asks for.
fn read_alone<'a>(word: &str) -> Option<Order<'a>>
    ensures { result ≡ alone_said word.now }
{
    match word {
        "keep" => keep_of(None, read_times(None)),
        "help" => Some(Order::Help),
        "list" => Some(Order::List),
        "reload" => Some(Order::Reload),
        "status" => Some(Order::Status),
        "stop" => Some(Order::Stop),
        _ => None,
    }
}

// What follows `keep `.
#[tactic(auto, unfolding(crate::specs::Orders::keep_said))]
fn read_keep<'a>(text: &'a str) -> Option<Order<'a>>
    ensures { result ≡ keep_said text.now }
{
    let (first, rest) = first_word(text);
    match named(first) {
        None => keep_of(None, read_times(Some(text))),
        Some(camera) => keep_of(Some(camera), read_times(rest)),
    }
}

// A keep of a camera, or of all, with such times.
fn keep_of<'a>(camera: Option<Name<'a>>, times: Option<KeepTimes>) -> Option<Order<'a>>
    ensures { result ≡ keep_of camera.entry times }
{
    let KeepTimes {
        seconds,
        after,
        tag,
    } = times?;
    Some(Order::Keep {
        camera,
        seconds,
        after,
        tag,
    })
}

// The times and the tag in a text, if there is one.
#[tactic(auto, unfolding(crate::specs::Orders::times_in))]
fn read_times(text: Option<&str>) -> Option<KeepTimes>
    ensures { result ≡ times_said (option_map (λ t. t.now) text.entry) }
{
    let text = match text {
        None => return tagged(None, None, None),
        Some(text) => text,
    };
    let (first, rest) = first_word(text);
    match read_after(first) {
        Some(after) => tagged(None, Some(after), rest),
        None => read_seconds(small_number(first), rest),
    }
}

// What follows the seconds, where there are any.
#[tactic(auto, unfolding(crate::specs::Orders::after_seconds))]
fn read_seconds(seconds: Option<u32>, text: Option<&str>) -> Option<KeepTimes>
    ensures { result ≡ after_seconds seconds (option_map (λ t. t.now) text.entry) }
{
    let seconds = Some(seconds?);
    let text = match text {
        None => return tagged(seconds, None, None),
        Some(text) => text,
    };
    let (first, rest) = first_word(text);
    match read_after(first) {
        Some(after) => tagged(seconds, Some(after), rest),
        None => tagged(seconds, None, Some(text)),
    }
}

// The times, and the tag in a text, if there is one.
fn tagged(seconds: Option<u32>, after: Option<u32>, text: Option<&str>) -> Option<KeepTimes>
    ensures { result ≡ tagged seconds after (option_map (λ t. t.now) text.entry) }
{
    let tag = match text {
        None => None,
        Some(text) => Some(number(text)?),
    };
    Some(KeepTimes {
        seconds,
        after,
        tag,
    })
}

// The seconds after the order, which a word such as `+10` says.
#[tactic(auto, unfolding(crate::specs::Orders::after_said))]
fn read_after(word: &str) -> Option<u32>
    ensures { result ≡ after_said word.now }
{
    match cut(word, '+') {
        Some((before, digits)) if before.is_empty() => small_number(digits),
        _ => None,
    }
}

// What follows `release `.
#[tactic(auto, unfolding(crate::specs::Orders::release_said))]
fn read_release<'a>(text: &'a str) -> Option<Order<'a>>
    ensures { result ≡ release_said text.now }
{
    match cut(text, ' ') {
        None => None,
        Some((camera, rest)) => match cut(rest, ' ') {
            None => release_of(named(camera), small_number(rest), Some(None)),
            Some((id, first)) => release_of(
                named(camera),
                small_number(id),
                said_number(number(first)),
            ),
        },
    }
}

// The release of a camera's clip, where there are both.
fn release_of<'a>(
    camera: Option<Name<'a>>,
    id: Option<u32>,
    first: Option<Option<u64>>,
) -> Option<Order<'a>>
    ensures { result ≡ release_of camera.entry id first }
{
    Some(Order::Release {
        camera: camera?,
        id: id?,
        first: first?,
    })
}

// What follows `cancel `.
#[tactic(auto, unfolding(crate::specs::Orders::cancel_said))]
fn read_cancel<'a>(text: &'a str) -> Option<Order<'a>>
    ensures { result ≡ cancel_said text.now }
{
    match cut(text, ' ') {
        None => None,
        Some((camera, id)) => cancel_of(named(camera), small_number(id)),
    }
}

// The end of the save of a camera's clip, where there are both.
fn cancel_of<'a>(camera: Option<Name<'a>>, id: Option<u32>) -> Option<Order<'a>>
    ensures { result ≡ cancel_of camera.entry id }
{
    Some(Order::Cancel {
        camera: camera?,
        id: id?,
    })
}

// What follows `save ` or `save! `.
#[tactic(auto, unfolding(crate::specs::Orders::save_said))]
fn read_save<'a>(text: &'a str, replace: bool) -> Option<Order<'a>>
    ensures { result ≡ save_said replace text.now }
{
    match cut(text, ' ') {
        None => None,
        Some((camera, rest)) => match cut(rest, ' ') {
            None => None,
            Some((clips, out)) => match read_event(clips) {
                Some(tag) => save_event_of(replace, named(camera), tag, out),
                None => save_of(replace, named(camera), small_number(clips), out),
            },
        },
    }
}

// The tag of an event's clips, which a word such as `#7` says.
#[tactic(auto, unfolding(crate::specs::Orders::event_said))]
fn read_event(word: &str) -> Option<u64>
    ensures { result ≡ event_said word.now }
{
    match cut(word, '#') {
        Some((before, digits)) if before.is_empty() => number(digits),
        _ => None,
    }
}

// The save of all clips of a camera that have a tag, where there is a camera, and a path that isn't empty.
fn save_event_of<'a>(
    replace: bool,
    camera: Option<Name<'a>>,
    tag: u64,
    out: &'a str,
) -> Option<Order<'a>>
    ensures { result ≡ save_event_of replace camera.entry tag out.now }
{
    if out.is_empty() {
        return None;
    }
    Some(Order::SaveEvent {
        camera: camera?,
        tag,
        out: Name::of(out),
        replace,
    })
}

// The save of a camera's clip, where there are both, and a path that isn't empty.
fn save_of<'a>(
    replace: bool,
    camera: Option<Name<'a>>,
    id: Option<u32>,
    out: &'a str,
) -> Option<Order<'a>>
    ensures { result ≡ save_of replace camera.entry id out.now }
{
    if out.is_empty() {
        return None;
    }
    Some(Order::Save {
        camera: camera?,
        id: id?,
        out: Name::of(out),
        replace,
    })
}

// The first word, and what follows the space that ends it.
#[tactic(auto, unfolding(crate::specs::Orders::first_word))]
fn first_word<'a>(text: &'a str) -> (&'a str, Option<&'a str>)
    ensures { first_word text.now ≡ (result.0.now, option_map (λ t. t.now) result.1) }
{
    match cut(text, ' ') {
        Some((word, rest)) => (word, Some(rest)),
        None => (text, None),
    }
}
