//! What a line is put together of. Each function appends to a line and takes no memory.

ghost use Rattle.std.specs.Prelude.{◌≡◌, ◌+◌, ◌≤◌, [], ◌∷◌, ◌++◌, length, decimal};
ghost use Rattle.std.specs.Fmt.{signed_decimal};
ghost use Rattle.std.specs.Int.{to_be_bytes, w32, w64};
ghost use Rattle.hex.specs.Hex.{encode_lower};
ghost use Rattle.arrayvec.specs.ArrayVec.{array_vec_len};
ghost use Rattle.qpu_disasm.specs.Listing.{file_letter, target_text, source_text, b_text, selector_text};

use arrayvec::ArrayVec;
use hex::encode_to_slice;
use itoa::Buffer;

/// A line of a listing. By the bounds below it has at most 105 bytes.
pub type Line = ArrayVec<u8, 128>;

/// Appends a text.
pub fn push_text(line: &mut Line, text: &[u8])
    requires { array_vec_len line.old + length text.now ≤ 128 }
    ensures items { line.new.items ≡ line.old.items ++ text.now }
    ensures len { array_vec_len line.new ≡ array_vec_len line.old + length text.now }
{
    line.try_extend_from_slice(text).unwrap()
}

/// Appends a number in decimal.
pub fn push_number(line: &mut Line, number: u8)
    requires { array_vec_len line.old + 3 ≤ 128 }
    ensures items { line.new.items ≡ line.old.items ++ decimal number }
    ensures len { array_vec_len line.new ≤ array_vec_len line.old + 3 }
{
    let mut digits = Buffer::new();
    push_text(line, digits.format(number).as_bytes());
}

/// Appends a distance in decimal.
pub fn push_distance(line: &mut Line, words: i32)
    requires { array_vec_len line.old + 11 ≤ 128 }
    ensures items { line.new.items ≡ line.old.items ++ signed_decimal words }
    ensures len { array_vec_len line.new ≤ array_vec_len line.old + 11 }
{
    let mut digits = Buffer::new();
    push_text(line, digits.format(words).as_bytes());
}

/// Appends a value in eight hexadecimal digits.
pub fn push_value(line: &mut Line, value: u32)
    requires { array_vec_len line.old + 8 ≤ 128 }
    ensures items { line.new.items ≡ line.old.items ++ encode_lower (to_be_bytes w32 value) }
    ensures len { array_vec_len line.new ≡ array_vec_len line.old + 8 }
{
    let mut digits = [0u8; 8];
    encode_to_slice(value.to_be_bytes(), &mut digits).unwrap();
    push_text(line, &digits);
}

/// Appends a word in sixteen hexadecimal digits.
pub fn push_word(line: &mut Line, word: u64)
    requires { array_vec_len line.old + 16 ≤ 128 }
    ensures items { line.new.items ≡ line.old.items ++ encode_lower (to_be_bytes w64 word) }
    ensures len { array_vec_len line.new ≡ array_vec_len line.old + 16 }
{
    let mut digits = [0u8; 16];
    encode_to_slice(word.to_be_bytes(), &mut digits).unwrap();
    push_text(line, &digits);
}

// Appends a letter and a number.
fn push_numbered(line: &mut Line, letter: &[u8], number: u8)
    requires { array_vec_len line.old + length letter.now + 3 ≤ 128 }
    ensures items { line.new.items ≡ line.old.items ++ letter.now ++ decimal number }
    ensures len { array_vec_len line.new ≤ array_vec_len line.old + length letter.now + 3 }
{
    push_text(line, letter);
    push_number(line, number);
}

fn letter_of_file(through_b: bool) -> &'static [u8]
    ensures letter { result.now ≡ file_letter through_b ∷ [] }
    ensures short { length result.now ≡ 1 }
{
    if through_b { b"b" } else { b"a" }
}

// The name of a write address that is no register.
#[tactic(auto, unfolding(crate::specs::Listing::target_text))]
fn name_of_target(through_b: bool, dst: u8) -> &'static [u8]
    requires { 38 ≤ dst }
    ensures name { result.now ≡ target_text through_b dst }
    ensures short { length result.now ≤ 6 }
{
    match dst {
        39 => b"-",
        48 => b"vpm",
        49 if through_b => b"wrset",
        49 => b"rdset",
        50 if through_b => b"staddr",
        50 => b"ldaddr",
        _ => b"unlock",
    }
}

/// Appends a write address.
#[tactic(auto, unfolding(crate::specs::Listing::target_text))]
pub fn push_target(line: &mut Line, through_b: bool, dst: u8)
    requires { array_vec_len line.old + 6 ≤ 128 }
    ensures items { line.new.items ≡ line.old.items ++ target_text through_b dst }
    ensures len { array_vec_len line.new ≤ array_vec_len line.old + 6 }
{
    if dst < 32 {
        push_numbered(line, letter_of_file(through_b), dst);
    } else if dst < 38 {
        push_numbered(line, b"r", dst - 32);
    } else {
        push_text(line, name_of_target(through_b, dst));
    }
}

// The name of a read address that is no register.
#[tactic(auto, unfolding(crate::specs::Listing::source_text))]
fn name_of_source(through_b: bool, src: u8) -> &'static [u8]
    requires { 32 ≤ src }
    ensures name { result.now ≡ source_text through_b src }
    ensures short { length result.now ≤ 7 }
{
    match src {
        32 => b"uniform",
        38 if through_b => b"qpu",
        38 => b"elem",
        39 => b"-",
        48 => b"vpm",
        50 => b"wait",
        _ => b"lock",
    }
}

/// Appends a read address.
#[tactic(auto, unfolding(crate::specs::Listing::source_text))]
pub fn push_source(line: &mut Line, through_b: bool, src: u8)
    requires { array_vec_len line.old + 7 ≤ 128 }
    ensures items { line.new.items ≡ line.old.items ++ source_text through_b src }
    ensures len { array_vec_len line.new ≤ array_vec_len line.old + 7 }
{
    if src < 32 {
        push_numbered(line, letter_of_file(through_b), src);
    } else {
        push_text(line, name_of_source(through_b, src));
    }
}

/// Appends what stands in raddr_b.
#[tactic(auto, unfolding(crate::specs::Listing::b_text))]
pub fn push_b(line: &mut Line, small: bool, rb: u8)
    requires { array_vec_len line.old + 7 ≤ 128 }
    ensures items { line.new.items ≡ line.old.items ++ b_text small rb }
    ensures len { array_vec_len line.new ≤ array_vec_len line.old + 7 }
{
    if small {
        push_numbered(line, b"#", rb);
    } else {
        push_source(line, true, rb);
    }
}

/// Appends a selector.
#[tactic(auto, unfolding(crate::specs::Listing::selector_text))]
pub fn push_selector(line: &mut Line, x: u8)
    requires { array_vec_len line.old + 4 ≤ 128 }
    ensures items { line.new.items ≡ line.old.items ++ selector_text x }
    ensures len { array_vec_len line.new ≤ array_vec_len line.old + 4 }
{
    if x < 6 {
        push_numbered(line, b"r", x);
    } else if x == 6 {
        push_text(line, b"A");
    } else {
        push_text(line, b"B");
    }
}
