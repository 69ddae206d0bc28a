// How a camera may be named.
ghost use Rattle.std.specs.Prelude.{◌≡◌};
ghost use Rattle.std.specs.Char.{is_ascii_digit};
ghost use Rattle.std.specs.List.{list_all};
ghost use Rattle.loop_station_words.specs.Names.{is_label, is_name, is_name_byte, named};

use std::marker::Model;

/// The most bytes of a camera's name.
pub const MAX_NAME: usize = 32;

/// A text that is part of a line: a camera's name, or the path that something is saved to. Contracts see its bytes.
#[derive(Drop)]
pub struct Name<'a> {
    text: &'a str,
}

impl<'a> Model for Name<'a> {
    ghost use Rattle.std.specs.Prelude.{ℕ, List};

    ghost Value = { List ℕ };

    ghost view = { λ name. name.text.now };
}

impl<'a> Name<'a> {
    /// A text, unchanged.
    pub(crate) fn of(text: &'a str) -> Self
        ensures { result ≡ text.now }
    {
        Name { text }
    }

    /// The text.
    pub fn text(&self) -> &'a str
        ensures { result.now ≡ self.now }
    {
        self.text
    }
}

/// Whether a camera may have this name: 1 to 32 letters, digits, `-` and `_`, not all of them digits.
pub fn is_name(word: &str) -> bool
    ensures { result ≡ is_name word.now }
{
    if word.is_empty() || word.len() > MAX_NAME {
        return false;
    }
    has_name_bytes(word) && !has_digits(word)
}

// Whether each byte may be part of a name.
fn has_name_bytes(word: &str) -> bool
    ensures { result ≡ list_all is_name_byte word.now }
{
    word.bytes().all(|byte| is_name_byte(byte))
}

// Whether each byte is a digit.
fn has_digits(word: &str) -> bool
    ensures { result ≡ list_all is_ascii_digit word.now }
{
    word.bytes().all(|byte| byte.is_ascii_digit())
}

// Whether a byte may be part of a name.
fn is_name_byte(byte: u8) -> bool
    ensures { result ≡ is_name_byte byte }
{
    byte.is_ascii_alphanumeric() || byte == b'-' || byte == b'_'
}

/// Whether an order may have this label: 1 to 32 letters, digits, `-` and `_`.
pub(crate) fn is_label(word: &str) -> bool
    ensures { result ≡ is_label word.now }
{
    if word.is_empty() || word.len() > MAX_NAME {
        return false;
    }
    has_name_bytes(word)
}

/// The name that a word is, if it is one.
pub fn named<'a>(word: &'a str) -> Option<Name<'a>>
    ensures { result ≡ named word.now }
{
    if is_name(word) {
        Some(Name::of(word))
    } else {
        None
    }
}
