//! Numbers in scripts.
ghost use Rattle.std.specs.Prelude.{◌≡◌, ◌^◌};
ghost use Rattle.std.specs.Char.{is_ascii_digit};
ghost use Rattle.std.specs.List.{list_all};
ghost use Rattle.loop_script.specs.Script.{number_below};

// The most digits of a number.
const MAX_DIGITS: usize = 20;

/// The number that a word writes with 1 to 20 decimal digits, leading zeros among them; `None` for any other
/// word, and where the number doesn't fit.
pub fn number(word: &str) -> Option<u64>
    ensures { result ≡ number_below (2 ^ 64) word.now }
{
    if word.len() > MAX_DIGITS || !is_digits(word) {
        return None;
    }
    word.parse().ok()
}

/// As `number`, for those that fit 32 bits.
pub fn small_number(word: &str) -> Option<u32>
    ensures { result ≡ number_below (2 ^ 32) word.now }
{
    u32::try_from(number(word)?).ok()
}

// Whether each byte is a decimal digit.
fn is_digits(word: &str) -> bool
    ensures { result ≡ list_all is_ascii_digit word.now }
{
    word.bytes().all(|byte| byte.is_ascii_digit())
}
