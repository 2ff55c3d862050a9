//! The line of a source that isn't in the profile.

ghost use Rattle.std.specs.Prelude.{◌≡◌, take};
ghost use Rattle.commands.specs.Refusals.{line_col as line_col_of, refused_line};

use crate::lines::{Line, push_number, push_text};
use arrayvec::ArrayVec;
use promise::SourceRule;

/// The bytes of a source before one, all where it has fewer.
fn bytes_before(source: &[u8], at: u32) -> &[u8]
    ensures { result.now ≡ take at source.now }
{
    let at = at as usize;
    if at < source.len() {
        &source[..at]
    } else {
        source
    }
}

/// The line and the column of a byte of a source, both counted from 1. The column counts bytes.
pub fn line_col(source: &[u8], at: u32) -> (u64, u64)
    ensures { result ≡ line_col_of source.now at }
{
    let before = bytes_before(source, at);
    let mut line = 1;
    let mut column = 1;
    for byte in before {
        if *byte == b'\n' {
            line += 1;
            column = 1;
        } else {
            column += 1;
        }
    }
    (line, column)
}

/// The line of a source that violates this rule first, at this byte.
#[tactic(auto, unfolding(crate::specs::Refusals::refused_line))]
pub fn line_of_refusal(source: &[u8], rule: SourceRule, at: u32) -> Line
    ensures { result.items ≡ refused_line source.now rule at }
{
    let (source_line, column) = line_col(source, at);
    let mut line = ArrayVec::new();
    push_text(&mut line, b"refused ");
    push_text(&mut line, rule.name());
    push_text(&mut line, b" ");
    push_number(&mut line, source_line);
    push_text(&mut line, b" ");
    push_number(&mut line, column);
    push_text(&mut line, b"\n");
    line
}
