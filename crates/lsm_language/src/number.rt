//! Numbers as words.

ghost use Rattle.std.specs.Prelude.{◌≡◌};
ghost use Rattle.std.specs.List.{list_all};
ghost use Rattle.std.specs.Char.{is_ascii_digit};
ghost use Rattle.lsm_language.specs.Numbers.{number_said};

/// The number that a word of decimal digits alone says, where it is below 2^64. Leading zeros may stand.
pub fn parse_number(word: &str) -> Option<u64>
    ensures { result ≡ number_said word.now }
{
    if !is_digits(word) {
        return None;
    }
    word.parse().ok()
}

// Whether each byte of the word is a decimal digit.
fn is_digits(word: &str) -> bool
    ensures { result ≡ list_all is_ascii_digit word.now }
{
    word.bytes().all(|byte| byte.is_ascii_digit())
}
