//! The words of a line.

ghost use Rattle.std.specs.Prelude.{◌≡◌, ◌≢◌, ◌++◌, ◌∷◌, [], ℕ, ◌<◌, ◌^◌, ◌↔◌, ◌==◌, decimal, length, nat_le, ◌&&◌, IsTrue, IfSome, IfNone, MatchOption, option_map};
ghost use Rattle.std.specs.List.{slice_split, position_or_len, list_all};
ghost use Rattle.launch_file.specs.Words.{IsPlain, number_of, value_of, is_name, name_of, file_of};
ghost use Rattle.launch_file.specs.Views.{now};

use std::str;

/// What stands before the first such byte, and what stands after it, if there is one.
pub fn cut(bytes: &[u8], at: u8) -> (&[u8], Option<&[u8]>)
    ensures split { MatchOption result.1 (slice_split (λ byte. byte == at) bytes.now ≡ result.0.now ∷ [])
        (λ rest. slice_split (λ byte. byte == at) bytes.now ≡ result.0.now ∷ slice_split (λ byte. byte == at) rest.now) }
    ensures parts { MatchOption result.1 (bytes.now ≡ result.0.now) (λ rest. bytes.now ≡ result.0.now ++ at ∷ rest.now) }
{
    let place = place_of(bytes, at);
    if place < bytes.len() {
        (&bytes[..place], Some(&bytes[place + 1..]))
    } else {
        (bytes, None)
    }
}

/// Where the first such byte stands, or the length.
fn place_of(bytes: &[u8], at: u8) -> usize
    ensures { result ≡ position_or_len (λ byte. byte == at) bytes.now }
{
    let mut place = 0;
    while place < bytes.len() && bytes[place] != at {
        place += 1;
    }
    place
}

/// `parse` takes a plus and leading zeros too, which a launch's number doesn't have.
fn is_plain(text: &str) -> bool
    ensures { IsTrue result ↔ IsPlain text.now }
{
    !text.starts_with('+') && (text.len() <= 1 || !text.starts_with('0'))
}

/// A number in its one spelling.
fn number_in(text: &str) -> Option<u64>
    ensures number { IfSome result (λ n. text.now ≡ decimal n) }
    ensures none { IfNone result ((n : ℕ) → n < 2 ^ 64 → text.now ≢ decimal n) }
{
    if !is_plain(text) {
        return None;
    }
    text.parse().ok()
}

/// The number with this text: in decimal, without leading zeros, below 2^64.
pub fn number(word: &[u8]) -> Option<u64>
    ensures { result ≡ number_of word.now }
{
    let text = str::from_utf8(word).ok()?;
    number_in(text)
}

/// The value with this text: 0 has no minus.
#[tactic(auto, unfolding(crate::specs::Words::value_of))]
pub fn value(word: &[u8]) -> Option<i128>
    ensures { result ≡ value_of word.now }
{
    let (first, digits) = word.split_first()?;
    if *first != b'-' {
        return Some(i128::from(number(word)?));
    }
    let magnitude = number(digits)?;
    if magnitude == 0 {
        return None;
    }
    Some(-i128::from(magnitude))
}

fn is_printed(word: &[u8]) -> bool
    ensures { result ≡ list_all (λ byte. nat_le 33 byte && nat_le byte 126) word.now }
{
    word.iter().all(|byte| 33 <= *byte && *byte <= 126)
}

/// Whether it is 1 to 255 bytes from 33 to 126, and not `-`.
#[tactic(auto, unfolding(crate::specs::Words::is_name))]
fn names(word: &[u8]) -> bool
    ensures { result ≡ is_name word.now }
{
    let printed = is_printed(word);
    let is_dash = word == b"-".as_slice();
    1 <= word.len() && word.len() <= 255 && printed && !is_dash
}

/// The word, where it is a name.
#[tactic(auto, unfolding(crate::specs::Words::name_of))]
pub fn name(word: &[u8]) -> Option<&[u8]>
    ensures { option_map now result ≡ name_of word.now }
{
    if names(word) { Some(word) } else { None }
}

/// A name, or none for `-`.
#[tactic(auto, unfolding(crate::specs::Words::file_of))]
pub fn file(word: &[u8]) -> Option<Option<&[u8]>>
    ensures { option_map (option_map now) result ≡ file_of word.now }
{
    if word == b"-".as_slice() {
        return Some(None);
    }
    Some(Some(name(word)?))
}
