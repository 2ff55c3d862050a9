//! Lines and columns of offsets.

ghost use Rattle.std.specs.Prelude.{◌≡◌, ◌≤◌, ◌<◌, length, take};
ghost use Rattle.clc_lexer.specs.LineColumn.{line_after, IsColumnAfter};

/// The line and the column of an offset, both from 1. Lines end with byte 10, and a column counts bytes.
pub fn line_col(source: &[u8], at: u32) -> (u32, u32)
    requires inside { at ≤ length source.now }
    requires bounded { at < 4294967295 }
    ensures line { result.0 ≡ line_after (take at source.now) }
    ensures column { IsColumnAfter (take at source.now) result.1 }
{
    let mut line = 1;
    let mut column = 1;
    for byte in &source[..at as usize] {
        if *byte == b'\n' {
            line += 1;
            column = 1;
        } else {
            column += 1;
        }
    }
    (line, column)
}
