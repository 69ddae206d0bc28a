// What the configuration says of a camera whose blocks are all locked.
ghost use Rattle.std.specs.Prelude.{◌≡◌, codes};
ghost use Rattle.toml.specs.Data.{get_member};
ghost use Rattle.toml.specs.View.{table_view};
ghost use Rattle.loop_station_words.specs.Cuts.{cut};
ghost use Rattle.loop_station_words.specs.Rules.{rule_of, rule_oldest, rule_release, rule_said, rule_tag};

use crate::choices::WhenFull;
use crate::cut::cut;
use crate::fields::value_at;
use loop_script::number::number;
use toml::{Table, Value};

/// What is done where every block is locked, if that is said; `None` where what is said can't be read.
pub(crate) fn rule_at(table: &Table) -> Option<Option<WhenFull>>
    ensures { result ≡ rule_of (get_member (codes "when_full") (table_view table.now)) }
{
    match value_at(table, "when_full") {
        None => Some(None),
        Some(Value::String(text)) => match rule_in(text.as_str()) {
            Some(rule) => Some(Some(rule)),
            None => None,
        },
        Some(_) => None,
    }
}

// What a text says.
fn rule_in(text: &str) -> Option<WhenFull>
    ensures { result ≡ rule_said text.now }
{
    match text {
        "stop" => Some(WhenFull::Stop),
        "release saved" => Some(WhenFull::ReleaseSaved),
        "release oldest" => Some(WhenFull::ReleaseOldest(None)),
        _ => release_rule_in(text),
    }
}

// What `release oldest tag N` says.
fn release_rule_in(text: &str) -> Option<WhenFull>
    ensures { result ≡ rule_release (cut 32 text.now) }
{
    match cut(text, ' ') {
        Some(("release", rest)) => oldest_rule_in(rest),
        _ => None,
    }
}

// What `oldest tag N` says.
fn oldest_rule_in(text: &str) -> Option<WhenFull>
    ensures { result ≡ rule_oldest (cut 32 text.now) }
{
    match cut(text, ' ') {
        Some(("oldest", rest)) => numbered_rule_in(rest),
        _ => None,
    }
}

// What `tag N` says.
fn numbered_rule_in(text: &str) -> Option<WhenFull>
    ensures { result ≡ rule_tag (cut 32 text.now) }
{
    match cut(text, ' ') {
        Some(("tag", digits)) => match number(digits) {
            Some(tag) => Some(WhenFull::ReleaseOldest(Some(tag))),
            None => None,
        },
        _ => None,
    }
}
