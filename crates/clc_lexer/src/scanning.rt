//! What stands at a place of a source: white space, a comment, a token, or none of them.

ghost use Rattle.std.specs.Prelude.{◌≡◌, ◌≤◌, ◌<◌, ◌^◌, length, drop, slice_get, Some, IfSome, [], ◌∷◌};
ghost use Rattle.clc_lexer.specs.Characters as bytes_of;
ghost use Rattle.clc_lexer.specs.Scanning.{run_of, mark_of_front, line_of, close_of, starts_with, first_found, found, IsFound, IsWithin};

use crate::marks::Mark;

/// What stands at a place.
#[derive(Clone, Copy, Debug, PartialEq, Eq)]
pub(crate) enum Found {
    /// A byte of white space or a comment, of so many bytes.
    Blank(usize),
    /// A name, a reserved word or a number, of so many bytes.
    Run(usize),
    Mark(Mark),
    /// A byte that begins nothing.
    Stray,
    /// A comment that isn't closed.
    Open,
}

fn is_space(byte: u8) -> bool
    ensures { result ≡ bytes_of.is_space byte }
{
    matches!(byte, b'\t' | b'\n' | b'\r' | b' ')
}

fn is_word(byte: u8) -> bool
    ensures { result ≡ bytes_of.is_word byte }
{
    byte.is_ascii_alphanumeric() || byte == b'_'
}

/// How many letters and digits stand at the front.
fn run_len(bytes: &[u8]) -> usize
    ensures { result ≡ length (run_of bytes.now) }
{
    for (i, byte) in bytes.iter().enumerate() {
        if !is_word(*byte) {
            return i;
        }
    }
    bytes.len()
}

/// The longest mark at the front.
#[tactic(auto, unfolding(crate::specs::Scanning::mark_of_front))]
fn mark_at(bytes: &[u8]) -> Option<Mark>
    ensures { result ≡ mark_of_front bytes.now }
{
    for mark in Mark::ALL {
        if bytes.starts_with(mark.spelling()) {
            return Some(mark);
        }
    }
    None
}

/// How many bytes stand before the end of the line.
fn line_len(bytes: &[u8]) -> usize
    ensures value { result ≡ length (line_of bytes.now) }
    ensures within { result ≤ length bytes.now }
{
    for (i, byte) in bytes.iter().enumerate() {
        if *byte == b'\n' {
            return i;
        }
    }
    bytes.len()
}

/// Where the first closing mark of a comment begins.
fn close_at(bytes: &[u8]) -> Option<usize>
    ensures value { result ≡ close_of bytes.now }
    ensures within { IfSome result (λ n. n ≤ length bytes.now) }
{
    for i in 0..bytes.len() {
        if closes_comment(&bytes[i..]) {
            return Some(i);
        }
    }
    None
}

fn closes_comment(bytes: &[u8]) -> bool
    ensures { result ≡ starts_with (42 ∷ 47 ∷ []) bytes.now }
{
    matches!(bytes, [b'*', b'/', ..])
}

fn found_at_front(bytes: &[u8]) -> Found
    requires { length bytes.now < 2 ^ 32 }
    ensures { result ≡ found bytes.now }
{
    match bytes {
        [b'/', b'/', rest @ ..] => Found::Blank(line_len(rest) + 2),
        [b'/', b'*', rest @ ..] => match close_at(rest) {
            Some(n) => Found::Blank(n + 4),
            None => Found::Open,
        },
        [] => Found::Stray,
        [first, ..] => found_outside(*first, bytes),
    }
}

/// What stands where no comment begins.
fn found_outside(first: u8, bytes: &[u8]) -> Found
    requires { slice_get bytes.now 0 ≡ Some first }
    ensures { result ≡ first_found bytes.now }
{
    if is_space(first) {
        return Found::Blank(1);
    }
    if is_word(first) {
        return Found::Run(run_len(bytes));
    }
    match mark_at(bytes) {
        Some(mark) => Found::Mark(mark),
        None => Found::Stray,
    }
}

/// What stands at the front, where there is a byte.
pub(crate) fn find(bytes: &[u8]) -> Found
    requires short { length bytes.now < 2 ^ 32 }
    requires some { 0 < length bytes.now }
    ensures found { IsFound bytes.now result }
    ensures within { IsWithin (length bytes.now) result }
{
    found_at_front(bytes)
}
