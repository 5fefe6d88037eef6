//! Tags of lines.

ghost use Rattle.std.specs.Prelude.{◌≡◌, ◌≤◌, ◌<◌, length, IfSome};
ghost use Rattle.std.specs.Char.{is_ascii_digit};
ghost use Rattle.std.specs.List.{list_all};
ghost use Rattle.lsm_serve.specs.Tagging.{are_digits, first_space, is_tag_word, rest_of, tag_in, tag_size};

/// The most digits of a tag.
const MOST_DIGITS: usize = 20;

/// The tag of a line with the space after it, empty where the line has none, and the rest of the line.
pub(crate) fn part_line(line: &[u8]) -> (&[u8], &[u8])
    ensures tag { result.0.now ≡ tag_in line.now }
    ensures rest { result.1.now ≡ rest_of line.now }
{
    line.split_at(tag_size(line))
}

// How many bytes the tag of a line has with the space after it, 0 where it has none.
fn tag_size(line: &[u8]) -> usize
    ensures size { result ≡ tag_size line.now }
    ensures within { result ≤ length line.now }
{
    match first_space(line) {
        Some(place) if is_tag_word(&line[..place]) => place + 1,
        _ => 0,
    }
}

// Where the first space stands.
fn first_space(line: &[u8]) -> Option<usize>
    ensures value { result ≡ first_space line.now }
    ensures bound { IfSome result (λ i. i < length line.now) }
{
    line.iter().position(|byte| *byte == b' ')
}

// Whether a word is that of a tag: `#`, and 1 to 20 digits.
fn is_tag_word(word: &[u8]) -> bool
    ensures { result ≡ is_tag_word word.now }
{
    match word.split_first() {
        Some((b'#', digits)) => are_digits(digits),
        _ => false,
    }
}

// Whether these are the digits of a tag, 1 to 20.
fn are_digits(bytes: &[u8]) -> bool
    ensures { result ≡ are_digits bytes.now }
{
    let count = bytes.len();
    count > 0 && (count <= MOST_DIGITS && all_digits(bytes))
}

fn all_digits(bytes: &[u8]) -> bool
    ensures { result ≡ list_all is_ascii_digit bytes.now }
{
    bytes.iter().all(|byte| byte.is_ascii_digit())
}
