// The lines of a script. docs/script.md says why it is so.
ghost use Rattle.std.specs.Prelude.{◌≡◌, ◌∷◌};
ghost use Rattle.loop_record.specs.Geometry.{format_named};
ghost use Rattle.loop_script.specs.Script.{counted_said, geometry_of, geometry_said, named_said, number as said_number, rate_said, said, small_number as said_small_number, span_of, span_said, words, words_after};

use crate::number::{number, small_number};
use loop_record::{Geometry, PixelFormat, Span};

/// What a line of a script asks for.
#[derive(Clone, Copy, Debug, PartialEq, Eq)]
pub enum ScriptCommand {
    /// `format W H X N:D S F`: a fresh store. The geometry isn't checked yet.
    Format(Geometry),
    /// `format1 W H X N:D S F`: the same in version 1 of the layout.
    FormatV1(Geometry),
    /// `store K`: so many frames of the pattern, each submitted and flushed.
    Store(u64),
    /// `submit K`: so many frames of the pattern, which then wait.
    Submit(u64),
    /// `flush`: the first of the frames that wait are stored.
    Flush,
    /// `read N`: the frame of that number.
    Read(u64),
    /// `lock A B T`: a clip of the frames from A to B, with the tag T, which is 0 where it is left out.
    Lock(Span),
    /// `unlock ID`: the clip of that id.
    Unlock(u32),
    /// `list`: the next number, the held ones and the clips.
    List,
    /// `upgrade`: version 2 of the layout is made of version 1.
    Upgrade,
    /// `reopen K`: the store's disk is taken out and opened again, as a store that keeps the K newest blocks; only the
    /// newest one where K is left out.
    Reopen(u32),
}

/// What a line, without its 0x0A, asks for; `None` where it can't be read.
pub fn read_command(line: &str) -> Option<ScriptCommand>
    ensures { result ≡ said (words line.now) }
{
    let (name, rest) = first_word(line);
    match rest {
        None => named(name),
        Some(rest) if name == "format" => Some(ScriptCommand::Format(geometry(rest)?)),
        Some(rest) if name == "format1" => Some(ScriptCommand::FormatV1(geometry(rest)?)),
        Some(rest) if name == "lock" => Some(ScriptCommand::Lock(span(rest)?)),
        Some(rest) => counted(name, rest),
    }
}

// What a name alone asks for.
fn named(name: &str) -> Option<ScriptCommand>
    ensures { result ≡ named_said name.now }
{
    match name {
        "list" => Some(ScriptCommand::List),
        "reopen" => Some(ScriptCommand::Reopen(1)),
        "flush" => Some(ScriptCommand::Flush),
        "upgrade" => Some(ScriptCommand::Upgrade),
        _ => None,
    }
}

// What a name and a number ask for.
fn counted(name: &str, text: &str) -> Option<ScriptCommand>
    ensures { result ≡ counted_said name.now (words text.now) }
{
    let (argument, rest) = first_word(text);
    if rest.is_some() {
        return None;
    }
    match name {
        "store" => Some(ScriptCommand::Store(number(argument)?)),
        "submit" => Some(ScriptCommand::Submit(number(argument)?)),
        "read" => Some(ScriptCommand::Read(number(argument)?)),
        "unlock" => Some(ScriptCommand::Unlock(small_number(argument)?)),
        "reopen" => Some(ScriptCommand::Reopen(small_number(argument)?)),
        _ => None,
    }
}

// The span that the words `A B` name, or `A B T`.
fn span(text: &str) -> Option<Span>
    ensures { result ≡ span_said (words text.now) }
{
    let (from, rest) = first_word(text);
    let (to, rest) = first_word(rest?);
    match rest {
        None => span_in(from, to, Some(0)),
        Some(rest) => {
            let (tag, rest) = first_word(rest);
            if rest.is_some() {
                return None;
            }
            span_in(from, to, number(tag))
        }
    }
}

/// The span of two numbers and a tag.
pub fn span_in(from: &str, to: &str, tag: Option<u64>) -> Option<Span>
    ensures { result ≡ span_of (said_number from.now) (said_number to.now) tag }
{
    Some(Span {
        from: number(from)?,
        to: number(to)?,
        tag: tag?,
    })
}

// The first word, and what follows the space that ends it.
fn first_word(line: &str) -> (&str, Option<&str>)
    ensures { words line.now ≡ result.0.now ∷ words_after result.1 }
{
    match line.split_once(' ') {
        Some((word, rest)) => (word, Some(rest)),
        None => (line, None),
    }
}

// The geometry that the words `W H X N:D S F` name.
fn geometry(text: &str) -> Option<Geometry>
    ensures { result ≡ geometry_said (words text.now) }
{
    let (width, rest) = first_word(text);
    let (height, rest) = first_word(rest?);
    let (format, rest) = first_word(rest?);
    let (rate, rest) = first_word(rest?);
    let (segments, rest) = first_word(rest?);
    let (slots, rest) = first_word(rest?);
    if rest.is_some() {
        return None;
    }
    geometry_in(width, height, format, rate, segments, slots)
}

/// The geometry that six words name.
pub fn geometry_in(
    width: &str,
    height: &str,
    format: &str,
    rate: &str,
    segments: &str,
    slots: &str,
) -> Option<Geometry>
    ensures { result ≡ geometry_of (said_small_number width.now) (said_small_number height.now)
        (format_named format.now) (rate_said rate.now) (said_small_number segments.now)
        (said_small_number slots.now) }
{
    let width = small_number(width)?;
    let height = small_number(height)?;
    let format = PixelFormat::named(format.as_bytes())?;
    let (rate_num, rate_den) = frame_rate(rate)?;
    Some(Geometry {
        width,
        height,
        format,
        rate_num,
        rate_den,
        segments: small_number(segments)?,
        slots: small_number(slots)?,
    })
}

// The two parts of a rate, `N:D`.
fn frame_rate(word: &str) -> Option<(u32, u32)>
    ensures { result ≡ rate_said word.now }
{
    let (num, den) = word.split_once(':')?;
    Some((small_number(num)?, small_number(den)?))
}
