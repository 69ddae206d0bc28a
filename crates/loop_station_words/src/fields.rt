// What a table of the file says at a key.
ghost use Rattle.std.specs.Prelude.{◌≡◌, ◌≤◌, IfOk, IfSome, option_map, codes};
ghost use Rattle.toml.specs.Data.{get_member, integer};
ghost use Rattle.toml.specs.View.{table_view, view};
ghost use Rattle.loop_station_words.specs.Config.{HasBuffers};
ghost use Rattle.loop_station_words.specs.Cuts.{cut};
ghost use Rattle.loop_station_words.specs.Fields.{SaysShape, bytes_of, duration_cut, form_of, losses_of, memory_of, number_or, part_seconds, path_of, positive, room_of, seconds_of, shape_text, whole_float, text_of, times_of, truth_of};

use crate::choices::{AnswersForm, LossesFrom, MemoryLimit, StoreSize, TimesFrom};
use crate::cut::cut;
use crate::fault::CameraFault;
use crate::key::unknown_key;
use crate::shape::{FrameShape, read_shape};
use loop_script::number::number;
use std::alloc::Global;
use std::num::saturating_f64_to_u64;
use toml::{Table, Value};

// The keys of a camera.
const KEYS: [&str; 17] = [
    "name",
    "source",
    "store",
    "hours",
    "minutes",
    "bytes",
    "keep",
    "after",
    "tag",
    "pattern",
    "buffers",
    "memory",
    "save_to",
    "release",
    "times_from",
    "losses",
    "when_full",
];

// The most seconds after an order that a keep may lock.
const MAX_AFTER: u64 = 3600;

// The fewest buffers of a camera.
const MIN_BUFFERS: u32 = 4;

// How many buffers a camera has where they are left out.
const BUFFERS: u64 = 8;

// The most buffers of a camera: as many as a queue may have.
const MAX_BUFFERS: u64 = 32;

// The seconds of an hour, and of a minute.
const HOUR: f64 = 3600.0;

const MINUTE: f64 = 60.0;

// Hours and minutes that aren't a whole number have to be below this.
const MOST: f64 = 1e15;

// The pattern's shape where it is left out.
const SHAPE: &str = "640x480 YM12 25:1";

/// Refuses a table with a key that cameras don't have.
pub(crate) fn check_keys(alloc: Global, table: &Table) -> Result<(), CameraFault> {
    match unknown_key(alloc, table, &KEYS)? {
        None => Ok(()),
        Some(key) => Err(CameraFault::UnknownKey(key)),
    }
}

/// The value at a key, if there is one.
pub(crate) fn value_at<'a>(table: &'a Table, key: &str) -> Option<&'a Value>
    ensures { option_map (λ v. view v.now) result ≡ get_member key.now (table_view table.now) }
{
    table.get(key)
}

/// The text at a key; `None` where there is none, or it is empty.
pub(crate) fn text_at<'a>(table: &'a Table, key: &str) -> Option<&'a str>
    ensures { option_map (λ t. t.now) result ≡ text_of (get_member key.now (table_view table.now)) }
{
    match value_at(table, key) {
        Some(Value::String(text)) if !text.is_empty() => Some(text.as_str()),
        _ => None,
    }
}

/// The number at a key, or `other` where there is no value; `None` where it isn't a whole number from 0 to `most`.
pub(crate) fn number_at(table: &Table, key: &str, other: u64, most: u64) -> Option<u64>
    requires { other ≤ most }
    ensures number { result ≡ number_or other most (get_member key.now (table_view table.now)) }
    ensures few { IfSome result (λ number. number ≤ most) }
{
    match value_at(table, key) {
        None => Some(other),
        Some(Value::Integer(number)) => match u64::try_from(*number) {
            Ok(number) if number <= most => Some(number),
            _ => None,
        },
        Some(_) => None,
    }
}

/// The number at a key, or `other` where there is no value; `None` where it isn't a whole number of 32 bits.
pub(crate) fn small_at(table: &Table, key: &str, other: u32) -> Option<u32>
    ensures { result ≡ number_or other 4294967295 (get_member key.now (table_view table.now)) }
{
    let number = number_at(table, key, u64::from(other), u64::from(u32::MAX))?;
    Some(number as u32)
}

/// How many seconds after the order a keep locks; `None` where that isn't a whole number from 0 to 3600.
pub(crate) fn after_at(table: &Table) -> Option<u32>
    ensures { result ≡ number_or 0 3600 (get_member (codes "after") (table_view table.now)) }
{
    let after = number_at(table, "after", 0, MAX_AFTER)?;
    Some(after as u32)
}

/// The form of answers; `None` where it is neither `text` nor `json`.
pub(crate) fn form_at(table: &Table) -> Option<AnswersForm>
    ensures { result ≡ form_of (get_member (codes "answers_form") (table_view table.now)) }
{
    match value_at(table, "answers_form") {
        None => Some(AnswersForm::Text),
        Some(Value::String(form)) => match form.as_str() {
            "text" => Some(AnswersForm::Text),
            "json" => Some(AnswersForm::Json),
            _ => None,
        },
        Some(_) => None,
    }
}

/// Where the times of frames come from; `None` where it is neither `arrival` nor `source`.
pub(crate) fn times_at(table: &Table) -> Option<TimesFrom>
    ensures { result ≡ times_of (get_member (codes "times_from") (table_view table.now)) }
{
    match value_at(table, "times_from") {
        None => Some(TimesFrom::Arrival),
        Some(Value::String(from)) => match from.as_str() {
            "arrival" => Some(TimesFrom::Arrival),
            "source" => Some(TimesFrom::Source),
            _ => None,
        },
        Some(_) => None,
    }
}

/// How lost frames are known; `None` where it is neither `numbers` nor `times` nor `none`.
pub(crate) fn losses_at(table: &Table) -> Option<LossesFrom>
    ensures { result ≡ losses_of (get_member (codes "losses") (table_view table.now)) }
{
    match value_at(table, "losses") {
        None => Some(LossesFrom::Either),
        Some(Value::String(from)) => match from.as_str() {
            "numbers" => Some(LossesFrom::Numbers),
            "times" => Some(LossesFrom::Times),
            "none" => Some(LossesFrom::Nothing),
            _ => None,
        },
        Some(_) => None,
    }
}

/// How many buffers a camera has; `None` where that isn't a whole number from 4 to 32.
pub(crate) fn buffers_at(table: &Table) -> Option<u32>
    ensures number { IfSome result (λ buffers.
        number_or 8 32 (get_member (codes "buffers") (table_view table.now)) ≡ Some buffers) }
    ensures few { IfSome result HasBuffers }
{
    let buffers = number_at(table, "buffers", BUFFERS, MAX_BUFFERS)? as u32;
    if buffers < MIN_BUFFERS {
        return None;
    }
    Some(buffers)
}

// The text of the pattern's shape; `None` where it isn't a text.
fn shape_text<'a>(table: &'a Table) -> Option<&'a str>
    ensures { option_map (λ t. t.now) result
        ≡ shape_text (get_member (codes "pattern") (table_view table.now)) }
{
    match value_at(table, "pattern") {
        None => Some(SHAPE),
        Some(Value::String(text)) => Some(text.as_str()),
        Some(_) => None,
    }
}

/// The pattern's shape, where the pattern is the source.
pub(crate) fn shape_at(table: &Table, source: &str) -> Result<Option<FrameShape>, CameraFault>
    ensures { IfOk result (SaysShape source.now (get_member (codes "pattern") (table_view table.now))) }
{
    let text = match shape_text(table) {
        Some(text) => text,
        None => return Err(CameraFault::BadPattern),
    };
    if source == "pattern" {
        return match read_shape(text) {
            Some(shape) => Ok(Some(shape)),
            None => Err(CameraFault::BadPattern),
        };
    }
    match value_at(table, "pattern") {
        Some(_) => Err(CameraFault::NoPattern),
        None => Ok(None),
    }
}

/// How large the store is, by hours, minutes or bytes: exactly one of them has to be there.
pub(crate) fn room_at(table: &Table) -> Result<StoreSize, CameraFault>
    ensures { IfOk result (λ room. room_of (get_member (codes "hours") (table_view table.now))
        (get_member (codes "minutes") (table_view table.now))
        (get_member (codes "bytes") (table_view table.now)) ≡ Some room) }
{
    match (
        value_at(table, "hours"),
        value_at(table, "minutes"),
        value_at(table, "bytes"),
    ) {
        (None, None, None) => Err(CameraFault::NoRoom),
        (Some(hours), None, None) => match seconds_of(hours, 3600, HOUR) {
            Some(seconds) => Ok(StoreSize::Seconds(seconds)),
            None => Err(CameraFault::BadHours),
        },
        (None, Some(minutes), None) => match seconds_of(minutes, 60, MINUTE) {
            Some(seconds) => Ok(StoreSize::Seconds(seconds)),
            None => Err(CameraFault::BadMinutes),
        },
        (None, None, Some(bytes)) => match bytes_of(bytes) {
            Some(bytes) => Ok(StoreSize::Bytes(bytes)),
            None => Err(CameraFault::BadBytes),
        },
        _ => Err(CameraFault::TwoRooms),
    }
}

// The seconds in a time of so many of a unit of so many seconds, which is given as a float too, rounded up; `None`
// where it isn't a number above 0.
fn seconds_of(time: &Value, unit: u64, as_float: f64) -> Option<u64>
    requires { as_float ≡ whole_float unit }
    ensures { result ≡ seconds_of unit (view time.now) }
{
    match time {
        Value::Integer(whole) => match positive(*whole) {
            Some(whole) => Some(whole.saturating_mul(unit)),
            None => None,
        },
        Value::Float(part) => part_seconds(*part, as_float),
        _ => None,
    }
}

// The seconds in a time that isn't a whole number of its unit, rounded up; `None` where it isn't above 0, or is too
// long.
fn part_seconds(part: f64, unit: f64) -> Option<u64>
    ensures { result ≡ part_seconds unit part }
{
    if part > 0.0 && part < MOST {
        Some(saturating_f64_to_u64((part * unit).ceil()))
    } else {
        None
    }
}

// A number of bytes; `None` where it isn't a whole number above 0.
fn bytes_of(bytes: &Value) -> Option<u64>
    ensures { result ≡ bytes_of (view bytes.now) }
{
    match bytes {
        Value::Integer(bytes) => positive(*bytes),
        _ => None,
    }
}

// A number above 0; `None` where it is 0 or negative.
fn positive(number: i64) -> Option<u64>
    ensures { result ≡ bytes_of (integer number) }
{
    match u64::try_from(number) {
        Ok(number) if number > 0 => Some(number),
        _ => None,
    }
}

/// How much memory its source's frames may take: a number of bytes, or a text such as `4 s`; `None` where it is
/// neither, or 0.
pub(crate) fn memory_at(table: &Table) -> Option<Option<MemoryLimit>>
    ensures { result ≡ memory_of (get_member (codes "memory") (table_view table.now)) }
{
    match value_at(table, "memory") {
        None => Some(None),
        Some(Value::Integer(bytes)) => match positive(*bytes) {
            Some(bytes) => Some(Some(MemoryLimit::Bytes(bytes))),
            None => None,
        },
        Some(Value::String(text)) => match seconds_in(text.as_str()) {
            Some(seconds) => Some(Some(MemoryLimit::Seconds(seconds))),
            None => None,
        },
        Some(_) => None,
    }
}

// The seconds that a text such as `4 s` says; `None` where it says none, or 0.
fn seconds_in(text: &str) -> Option<u64>
    ensures { result ≡ duration_cut (cut 32 text.now) }
{
    match cut(text, ' ') {
        Some((seconds, "s")) => match number(seconds) {
            Some(seconds) if seconds > 0 => Some(seconds),
            _ => None,
        },
        _ => None,
    }
}

/// The path at a key, if there is one; `None` where it isn't a text, or is empty.
pub(crate) fn path_at<'a>(table: &'a Table, key: &str) -> Option<Option<&'a str>>
    ensures { option_map (λ p. option_map (λ t. t.now) p) result
        ≡ path_of (get_member key.now (table_view table.now)) }
{
    match value_at(table, key) {
        None => Some(None),
        Some(Value::String(path)) if !path.is_empty() => Some(Some(path.as_str())),
        Some(_) => None,
    }
}

/// The truth value at a key, or `other` where there is none; `None` where it is neither `true` nor `false`.
pub(crate) fn truth_at(table: &Table, key: &str, other: bool) -> Option<bool>
    ensures { result ≡ truth_of other (get_member key.now (table_view table.now)) }
{
    match value_at(table, key) {
        None => Some(other),
        Some(Value::Boolean(said)) => Some(*said),
        Some(_) => None,
    }
}
