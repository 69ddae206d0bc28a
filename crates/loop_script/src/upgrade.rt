// What is printed of an upgrade of the layout.
ghost use Rattle.std.specs.Prelude.{◌≡◌};
ghost use Rattle.loop_script.specs.Upgrade.{told_of_upgrade};

/// The words that say whether version 2 of the layout was made, or was there already.
pub fn upgrade_words(made: bool) -> &'static str
    ensures { result.now ≡ told_of_upgrade made }
{
    if made { "upgraded" } else { "already 2" }
}
