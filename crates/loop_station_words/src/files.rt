// How the files of a camera's stores are called: where it has several, each has a number.
ghost use Rattle.std.specs.Prelude.{◌≡◌, ◌≤◌, ◌<◌, ◌+◌, ◌%◌, IfOk, IfSome, IsTrue, length, string_bytes};
ghost use Rattle.std.specs.Char.{is_ascii_digit};
ghost use Rattle.std.specs.List.{list_all};
ghost use Rattle.loop_station_words.specs.Files.{ending, has_number_between, is_number, is_numbered, number_text, numbered, share_file, without_ending};

use std::alloc::{AllocError, Global};

// How the path of a store mostly ends: the number stands before it.
const ENDING: &str = ".loop";

// The bytes of a number with the point before it.
const NUMBER: usize = 4;

// A path without `.loop` at its end, and that end.
fn parts_of(path: &str) -> (&str, &str)
    ensures stem { result.0.now ≡ without_ending path.now }
    ensures ending { result.1.now ≡ ending path.now }
{
    match path.strip_suffix(ENDING) {
        Some(stem) => (stem, ENDING),
        None => (path, ""),
    }
}

/// The path of the store of a number, of a camera that has several: `left.007.loop` for `left.loop`, and `left.007` for
/// `left`. The number has three digits.
pub fn numbered(alloc: Global, path: &str, number: u32) -> Result<String, AllocError>
    requires { number < 1000 }
    ensures { IfOk result (λ whole. string_bytes whole ≡ numbered path.now number) }
{
    let (stem, ending) = parts_of(path);
    let mut whole = String::from_str(alloc, stem)?;
    whole.push('.')?;
    whole.push(digit(number / 100))?;
    whole.push(digit(number / 10))?;
    whole.push(digit(number))?;
    whole.push_str(ending)?;
    Ok(whole)
}

// The last digit of a number.
fn digit(number: u32) -> char
    ensures { result ≡ 48 + number % 10 }
{
    char::from(b'0' + (number % 10) as u8)
}

// Whether bytes are a point and three digits.
fn is_number(bytes: &[u8]) -> bool
    ensures { result ≡ is_number bytes.now }
{
    let (point, digits) = bytes.split_at(bytes.len().min(1));
    point == b".".as_slice() && digits.len() == 3 && has_digits(digits)
}

// Whether each byte is a digit.
fn has_digits(bytes: &[u8]) -> bool
    ensures { result ≡ list_all is_ascii_digit bytes.now }
{
    bytes.iter().all(|byte| byte.is_ascii_digit())
}

// Whether bytes are these, a number and those.
fn has_number_between(before: &[u8], after: &[u8], other: &[u8]) -> bool
    requires { length before.now + 4 ≤ length other.now }
    ensures { result ≡ has_number_between before.now after.now other.now }
{
    let (front, rest) = other.split_at(before.len());
    let (number, end) = rest.split_at(NUMBER);
    front == before && is_number(number) && end == after
}

// Whether a path is another one with a number.
fn is_numbered(path: &str, other: &str) -> bool
    ensures { result ≡ is_numbered path.now other.now }
{
    if other.len() != path.len() + NUMBER {
        return false;
    }
    let (stem, ending) = parts_of(path);
    has_number_between(stem.as_bytes(), ending.as_bytes(), other.as_bytes())
}

/// The number of the store of a path, of a camera that has several and this path; None where it isn't one of them.
pub fn number_of(path: &str, other: &str) -> Option<u32>
    ensures { IfSome result (λ number. (number < 1000) × IsTrue (is_numbered path.now other.now)) }
{
    if !is_numbered(path, other) {
        return None;
    }
    let (stem, _) = parts_of(path);
    let digits = other.as_bytes();
    let at = stem.len() + 1;
    Some(value(digits[at]) * 100 + value(digits[at + 1]) * 10 + value(digits[at + 2]))
}

// What a digit is worth.
fn value(digit: u8) -> u32
    ensures { result ≤ 9 }
{
    u32::from(digit.saturating_sub(b'0').min(9))
}

/// Whether two cameras with these paths of their stores could have one file: they have the same path, or one is the
/// other with a number.
pub(crate) fn share_file(path: &str, other: &str) -> bool
    ensures { result ≡ share_file path.now other.now }
{
    path == other || is_numbered(path, other) || is_numbered(other, path)
}
