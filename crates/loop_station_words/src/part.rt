// The parts of a line that is printed: its words, and its values with their keys.
ghost use Rattle.std.specs.Prelude.{◌≡◌, ◌∷◌, ◌++◌, [], List, OnOk, codes};
ghost use Rattle.json.specs.Token.{Token, end_object, key, string};
ghost use Rattle.loop_station_words.specs.Parts.{AreMembers, IsMember};

use crate::calendar::civil_time_of;
use json::Writer;
use std::alloc::{AllocError, Global};
use std::fmt::{Display, Formatter};
use std::io::Write;
use std::{fmt, io};

/// A part of a line. As text a line has all its parts, one right after the other; as JSON it has the values alone, each
/// at its key.
#[derive(Clone, Copy)]
pub(crate) enum Part<'a> {
    /// Words, which only the text has.
    Words(&'a str),
    /// A key, and a text.
    Text(&'a str, &'a str),
    /// A key, and a number.
    Number(&'a str, u64),
    /// A key, and the number there, if there is one. As text these words stand before it.
    Maybe(&'a str, &'a str, Option<u64>),
    /// A key, and a number. As text these words stand before it, where it isn't 0, and else it is left out.
    Count(&'a str, &'a str, u64),
    /// A key, and a time in microseconds since 1970. It is printed as `2026-11-22T15:38:00.123Z`.
    Time(&'a str, u64),
    /// A key, and a duration in microseconds. As text it has seconds with one decimal.
    Seconds(&'a str, u64),
    /// A key, and a duration in microseconds. As text it has whole milliseconds.
    Millis(&'a str, u64),
    /// A key, and a duration in microseconds. As text it has hours and minutes.
    Lasting(&'a str, u64),
    /// A key, and how many microseconds something is ahead, if that is known. As text it has these words before it, a
    /// sign, and seconds with one decimal.
    Ahead(&'a str, &'a str, Option<i64>),
}

impl Part<'_> {
    // Prints the part as text.
    fn print_text<W: Write>(&self, out: &mut W) -> io::Result<()> {
        match *self {
            Part::Words(text) | Part::Text(_, text) => out.write_all(text.as_bytes()),
            Part::Number(_, number) => write!(out, "{number}"),
            Part::Maybe(_, _, None) => Ok(()),
            Part::Count(_, _, 0) => Ok(()),
            Part::Maybe(words, _, Some(number)) | Part::Count(words, _, number) => {
                write!(out, "{words}{number}")
            }
            Part::Time(_, micros) => write!(out, "{}", UtcTime(micros)),
            Part::Seconds(_, micros) => write!(out, "{}", Seconds(micros)),
            Part::Millis(_, micros) => write!(out, "{}", micros / 1_000),
            Part::Lasting(_, micros) => write!(out, "{}", Lasting(micros)),
            Part::Ahead(_, _, None) => Ok(()),
            Part::Ahead(words, _, Some(micros)) => write!(out, "{words}{} s", Ahead(micros)),
        }
    }

    // Writes the part as a member of a JSON object, unless it is words alone.
    fn write_json(&self, alloc: Global, out: &mut Writer) -> Result<(), AllocError>
        ensures { OnOk result ((tokens : List Token) × IsMember self.now tokens
            × (out.new.tokens ≡ out.old.tokens ++ tokens)) }
    {
        match *self {
            Part::Words(_) | Part::Maybe(_, _, None) | Part::Ahead(_, _, None) => Ok(()),
            Part::Text(key, text) => {
                out.key(key)?;
                out.string(text)
            }
            Part::Number(key, number)
            | Part::Maybe(_, key, Some(number))
            | Part::Count(_, key, number)
            | Part::Seconds(key, number)
            | Part::Millis(key, number)
            | Part::Lasting(key, number) => {
                out.key(key)?;
                out.u64(number)
            }
            Part::Ahead(_, key, Some(micros)) => {
                out.key(key)?;
                out.i64(micros)
            }
            Part::Time(key, micros) => {
                let time = UtcTime(micros).to_string(alloc)?;
                out.key(key)?;
                out.string(time.as_str())
            }
        }
    }
}

/// The text of a line, with its end.
pub(crate) fn text_line(alloc: Global, parts: &[Part<'_>]) -> io::Result<Vec<u8>> {
    let mut line = Vec::new(alloc);
    for part in parts {
        part.print_text(&mut line)?;
    }
    line.push(b'\n')?;
    Ok(line)
}

/// A line as a JSON object of a kind, without its opening brace, and with the line's end.
pub(crate) fn json_line(
    alloc: Global,
    kind: &str,
    parts: &[Part<'_>],
) -> Result<Vec<u8>, AllocError> {
    let mut out = Writer::new(Vec::new(alloc));
    out.key("kind")?;
    out.string(kind)?;
    for part in parts {
        part.write_json(alloc, &mut out)?;
    }
    ended(out)
}

/// The end of a line's object, and of the line.
pub(crate) fn ended(out: Writer) -> Result<Vec<u8>, AllocError> {
    let mut out = out;
    out.end_object()?;
    let mut line = out.into_inner();
    line.push(b'\n')?;
    Ok(line)
}

/// A time in microseconds since 1970, printed in UTC as `2026-11-22T15:38:00.123Z`.
#[derive(Clone, Copy)]
pub(crate) struct UtcTime(pub u64);

impl Display for UtcTime {
    fn fmt<W: fmt::Write>(&self, f: &mut Formatter<W>) -> fmt::Result {
        let at = civil_time_of(self.0);
        let (year, month, day) = (at.year, at.month, at.day);
        let (hour, minute, second) = (at.hour, at.minute, at.second);
        let milli = at.micro / 1_000;
        write!(
            f,
            "{year:04}-{month:02}-{day:02}T{hour:02}:{minute:02}:{second:02}.{milli:03}Z"
        )
    }
}

// Microseconds, printed as hours and minutes; less than a minute as seconds with one decimal.
#[derive(Clone, Copy)]
struct Lasting(u64);

impl Display for Lasting {
    fn fmt<W: fmt::Write>(&self, f: &mut Formatter<W>) -> fmt::Result {
        let minutes = self.0 / 60_000_000;
        if minutes == 0 {
            return write!(f, "{} s", Seconds(self.0));
        }
        let (hours, rest) = (minutes / 60, minutes % 60);
        if hours == 0 {
            return write!(f, "{rest} min");
        }
        write!(f, "{hours} h {rest} min")
    }
}

// Microseconds, printed as seconds with one decimal.
#[derive(Clone, Copy)]
struct Seconds(u64);

impl Display for Seconds {
    fn fmt<W: fmt::Write>(&self, f: &mut Formatter<W>) -> fmt::Result {
        let tenths = self.0 / 100_000;
        write!(f, "{}.{}", tenths / 10, tenths % 10)
    }
}

// Microseconds that something is ahead, printed as seconds with a sign and one decimal.
#[derive(Clone, Copy)]
struct Ahead(i64);

impl Display for Ahead {
    fn fmt<W: fmt::Write>(&self, f: &mut Formatter<W>) -> fmt::Result {
        let micros = self.0.unsigned_abs();
        let sign = if self.0 < 0 && micros >= 100_000 {
            '-'
        } else {
            '+'
        };
        write!(f, "{sign}{}", Seconds(micros))
    }
}
