// Texts that are cut at a character.
ghost use Rattle.std.specs.Prelude.{◌≡◌, ◌<◌, option_map};
ghost use Rattle.loop_station_words.specs.Cuts.{cut};

/// The text before and after the first such character; `None` where there is none.
pub(crate) fn cut<'a>(text: &'a str, at: char) -> Option<(&'a str, &'a str)>
    requires { at < 128 }
    ensures { cut at text.now ≡ option_map (λ parts. (parts.0.now, parts.1.now)) result }
{
    text.split_once(at)
}
