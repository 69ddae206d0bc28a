// The words after the program's name.
ghost use Rattle.std.specs.Prelude.{◌≡◌, ◌∷◌, [], option_map};
ghost use Rattle.loop_script.specs.Script.{small_number as said_small_number};
ghost use Rattle.loop_script.specs.Tasks.{keep_value, kept_said, on_file_said, recording_named, recording_said, task_said};

use crate::command::{geometry_in, span_in};
use crate::number::{number, small_number};
use loop_record::{Geometry, Span};
use std::marker::Model;

/// What the words ask for.
#[derive(Drop)]
pub enum Task<'a> {
    /// `simulate`: a script from the input.
    Simulate,
    /// `record N SOURCE keep=K PATH..`: a recording into the stores in files.
    Record(RecordTask<'a>),
    /// A command on the store in the file of this path.
    OnFile(&'a str, FileCommand<'a>),
}

/// What `record` asks for: to record so many frame periods, from the source of this name, into the stores in the files
/// of these paths. Each store keeps so many of its newest blocks, 1 where `keep=K` is left out.
#[derive(Drop)]
pub struct RecordTask<'a> {
    /// How many frame periods.
    pub frames: u32,
    /// The source: `-`, which is a pattern, or a file or pipe.
    pub source: &'a str,
    /// How many of the newest blocks are never overwritten during the recording.
    pub keep: u32,
    /// The files of the stores, one for each camera.
    pub paths: Paths<'a>,
}

/// Paths, one or more, in the order of the words. Contracts see the words.
#[derive(Drop)]
pub struct Paths<'a> {
    words: &'a [&'a str],
}

impl<'a> Model for Paths<'a> {
    ghost use Rattle.std.specs.Prelude.{ℕ, List};
    ghost use denote.Ref.{Bor};

    ghost Value = { List (Bor (List ℕ)) };

    ghost view = { λ paths. paths.words.now };
}

impl<'a> Paths<'a> {
    /// The paths, in their order.
    pub fn words(&self) -> &'a [&'a str]
        ensures { result.now ≡ self.now }
    {
        self.words
    }
}

/// What is done on a store in a file.
#[derive(Clone, Copy, Debug, PartialEq, Eq)]
pub enum FileCommand<'a> {
    /// `format PATH W H X N:D S F`: the file is made anew, and a store in it. The geometry isn't checked yet.
    Format(Geometry),
    /// `list PATH`: as the line of a script.
    List,
    /// `lock PATH A B T`: as the line of a script.
    Lock(Span),
    /// `unlock PATH ID`: as the line of a script.
    Unlock(u32),
    /// `upgrade PATH`: as the line of a script.
    Upgrade,
    /// `export PATH A B OUT`: the held frames from A to B, as YUV4MPEG2, into the file or pipe OUT.
    Export(u64, u64, &'a str),
}

/// What a name and the words after it ask for; `None` where they can't be read.
pub fn read_task<'a>(name: &str, words: &'a [&'a str]) -> Option<Task<'a>>
    ensures { result ≡ task_said name.now words.now }
{
    if name == "record" {
        return read_recording(words);
    }
    match words {
        [] if name == "simulate" => Some(Task::Simulate),
        [] => None,
        [path, words @ ..] => Some(Task::OnFile(path, read_file_command(name, words)?)),
    }
}

// What the words after `record` ask for: how many frame periods, a source, how many blocks are kept, which may be left
// out, and one path or more.
fn read_recording<'a>(words: &'a [&'a str]) -> Option<Task<'a>>
    ensures { result ≡ recording_said words.now }
{
    match words {
        [] => None,
        [_] => None,
        [count, source, words @ ..] => read_kept(count, source, words),
    }
}

// The same, for the words after the source.
fn read_kept<'a>(count: &str, source: &'a str, words: &'a [&'a str]) -> Option<Task<'a>>
    ensures { result ≡ kept_said (said_small_number count.now) source.entry words.now }
{
    match words {
        [] => None,
        [first, paths @ ..] => match keep_value(first) {
            None => made_of(count, source, Some(1), words),
            Some(value) => made_of(count, source, small_number(value), paths),
        },
    }
}

// What follows `keep=` in a word that begins with it.
fn keep_value(word: &str) -> Option<&str>
    ensures { option_map (λ value. value.now) result ≡ keep_value word.now }
{
    match word.split_once('=') {
        Some((name, value)) if name == "keep" => Some(value),
        _ => None,
    }
}

// The task of these parts, if each of them is there.
fn made_of<'a>(
    count: &str,
    source: &'a str,
    keep: Option<u32>,
    words: &'a [&'a str],
) -> Option<Task<'a>>
    ensures { result ≡ recording_named (said_small_number count.now) source.entry keep words.now }
{
    if words.is_empty() {
        return None;
    }
    Some(Task::Record(RecordTask {
        frames: small_number(count)?,
        source,
        keep: keep?,
        paths: Paths { words },
    }))
}

// What a name and the words after the path of a file ask for.
fn read_file_command<'a>(name: &str, words: &[&'a str]) -> Option<FileCommand<'a>>
    ensures { result ≡ on_file_said name.now words.now }
{
    match words {
        [] => alone(name),
        [id] => with_id(name, id),
        [from, to] => with_range(name, from, to),
        [from, to, third] => with_third(name, from, to, third),
        [width, height, format, rate, segments, slots] if name == "format" => {
            let geometry = geometry_in(width, height, format, rate, segments, slots)?;
            Some(FileCommand::Format(geometry))
        }
        _ => None,
    }
}

// What a name asks for that has only a path after it.
fn alone<'a>(name: &str) -> Option<FileCommand<'a>>
    ensures { result ≡ on_file_said name.now [] }
{
    match name {
        "list" => Some(FileCommand::List),
        "upgrade" => Some(FileCommand::Upgrade),
        _ => None,
    }
}

// What a name and one word after the path ask for.
fn with_id<'a>(name: &str, id: &'a str) -> Option<FileCommand<'a>>
    ensures { result ≡ on_file_said name.now (id.entry ∷ []) }
{
    if name != "unlock" {
        return None;
    }
    Some(FileCommand::Unlock(small_number(id)?))
}

// What a name and two words after the path ask for.
fn with_range<'a>(name: &str, from: &'a str, to: &'a str) -> Option<FileCommand<'a>>
    ensures { result ≡ on_file_said name.now (from.entry ∷ to.entry ∷ []) }
{
    if name != "lock" {
        return None;
    }
    Some(FileCommand::Lock(span_in(from, to, Some(0))?))
}

// What a name and three words after the path ask for.
fn with_third<'a>(name: &str, from: &'a str, to: &'a str, third: &'a str) -> Option<FileCommand<'a>>
    ensures { result ≡ on_file_said name.now (from.entry ∷ to.entry ∷ third.entry ∷ []) }
{
    match name {
        "lock" => Some(FileCommand::Lock(span_in(from, to, number(third))?)),
        "export" => Some(FileCommand::Export(number(from)?, number(to)?, third)),
        _ => None,
    }
}
