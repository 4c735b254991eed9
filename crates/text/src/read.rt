// Reading at a spot. Each leaf answers the spot past what it found, and a number with it, or that it found nothing.
ghost use Rattle.std.specs.Prelude.{◌≡◌, [], ◌∷◌, drop};
ghost use Rattle.std.specs.List.{list_all};
ghost use Rattle.text.specs.Words.{stands, word_at, is_square, body_at};
ghost use Rattle.text.specs.Decimal.{plain, digits_at, number_at, field_at};

use crate::glyphs::{COPPER, NONE, TAB, ZERO};

// The text from the spot on: nothing, past its end.
fn rest(text: &[u8], spot: usize) -> &[u8]
    ensures { result.now ≡ drop spot text.now }
{
    &text[spot.min(text.len())..]
}

// By bytes and not by `starts_with`: most of what is looked for differs at its first byte or the second.
pub fn read_word(text: &[u8], spot: usize, word: &[u8]) -> Option<usize>
    ensures { result ≡ word_at text.now spot word.now }
{
    let front = rest(text, spot).get(..word.len())?;
    (0..word.len())
        .all(|k| word[k] == front[k])
        .then_some(spot + word.len())
}

// Past the text's end there is none.
fn has_byte(text: &[u8], spot: usize, byte: u8) -> bool
    ensures { result ≡ stands text.now spot (byte ∷ []) }
{
    match text.get(spot) {
        Some(found) => byte == *found,
        None => false,
    }
}

// A tab, a line feed.
pub fn read_byte(text: &[u8], spot: usize, byte: u8) -> Option<usize>
    ensures { result ≡ word_at text.now spot (byte ∷ []) }
{
    if has_byte(text, spot, byte) {
        Some(spot + 1)
    } else {
        None
    }
}

fn is_square(character: u8) -> bool
    ensures { result ≡ is_square character }
{
    character == COPPER || character == NONE
}

fn all_squares(characters: &[u8]) -> bool
    ensures { result ≡ list_all is_square characters.now }
{
    characters.iter().all(|c| is_square(*c))
}

// A row's body: as many squares as the width.
pub fn read_body(text: &[u8], spot: usize, width: usize) -> Option<usize>
    ensures { result ≡ body_at text.now spot width }
{
    let body = rest(text, spot).get(..width)?;
    all_squares(body).then_some(spot + width)
}

// All digits that stand at the spot, as a number up to the limit, leading zeros and no digit at all let through.
fn read_digits(text: &[u8], spot: usize, limit: u64) -> Option<(u64, usize)>
    ensures { result ≡ digits_at text.now spot limit }
{
    let mut value: u64 = 0;
    let mut at = spot;
    for byte in rest(text, spot) {
        if !byte.is_ascii_digit() {
            break;
        }
        let digit = u64::from(*byte - ZERO);
        let most = limit.checked_sub(digit)? / 10;
        if most < value {
            return None;
        }
        value = value * 10 + digit;
        at += 1;
    }
    Some((value, at))
}

// No digit is no number, and no zero leads another digit.
fn is_plain(digits: &[u8]) -> bool
    ensures { result ≡ plain digits.now }
{
    match digits {
        [] => false,
        [first, _, ..] => *first != ZERO,
        _ => true,
    }
}

pub fn read_number(text: &[u8], spot: usize, limit: u64) -> Option<(u64, usize)>
    ensures { result ≡ number_at text.now spot limit }
{
    let (value, next) = read_digits(text, spot, limit)?;
    is_plain(&rest(text, spot)[..next - spot]).then_some((value, next))
}

// A tab and a number.
pub fn read_field(text: &[u8], spot: usize, limit: u64) -> Option<(u64, usize)>
    ensures { result ≡ field_at text.now spot limit }
{
    if !has_byte(text, spot, TAB) {
        return None;
    }
    read_number(text, spot + 1, limit)
}
