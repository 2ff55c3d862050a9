//! Lines in fixed buffers: they take no memory.

ghost use Rattle.std.specs.Prelude.{◌≡◌, ◌+◌, ◌*◌, ◌≤◌, ◌++◌, length, decimal};
ghost use Rattle.arrayvec.specs.ArrayVec.{array_vec_len};
ghost use Rattle.commands.specs.Report.{spaced_word};

use arrayvec::ArrayVec;
use hex::encode_to_slice;
use itoa::Buffer;

/// A line of a report. The longest, of the counts, has at most 157 bytes by the bounds below.
pub type Line = ArrayVec<u8, 192>;

/// Appends a text.
pub fn push_text(line: &mut Line, text: &[u8])
    requires { array_vec_len line.old + length text.now ≤ 192 }
    ensures items { line.new.items ≡ line.old.items ++ text.now }
    ensures len { array_vec_len line.new ≡ array_vec_len line.old + length text.now }
{
    line.try_extend_from_slice(text).unwrap()
}

/// Appends a number in decimal.
pub fn push_number(line: &mut Line, number: u64)
    requires { array_vec_len line.old + 20 ≤ 192 }
    ensures items { line.new.items ≡ line.old.items ++ decimal number }
    ensures len { array_vec_len line.new ≤ array_vec_len line.old + 20 }
{
    let mut digits = Buffer::new();
    push_text(line, digits.format(number).as_bytes());
}

/// Appends the sum of two numbers in decimal.
pub fn push_sum(line: &mut Line, one: u64, other: u64)
    requires { array_vec_len line.old + 40 ≤ 192 }
    ensures items { line.new.items ≡ line.old.items ++ decimal (one + other) }
    ensures len { array_vec_len line.new ≤ array_vec_len line.old + 40 }
{
    let mut digits = Buffer::new();
    push_text(
        line,
        digits
            .format(u128::from(one) + u128::from(other))
            .as_bytes(),
    );
}

/// Appends a space and a word in eight hexadecimal digits.
pub fn push_word(line: &mut Line, word: u32)
    requires { array_vec_len line.old + 9 ≤ 192 }
    ensures items { line.new.items ≡ line.old.items ++ spaced_word word }
    ensures len { array_vec_len line.new ≡ array_vec_len line.old + 9 }
{
    let mut digits = [0u8; 8];
    encode_to_slice(word.to_be_bytes(), &mut digits).unwrap();
    push_text(line, b" ");
    push_text(line, &digits);
}
