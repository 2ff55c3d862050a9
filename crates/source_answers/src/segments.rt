//! The sources that the texts of rows stand for.

use std::alloc::{AllocError, Global};

/// Bytes, so many times.
#[derive(Drop)]
pub struct Segment {
    pub count: u32,
    pub bytes: Vec<u8>,
}

impl Segment {
    /// These bytes once, the first of them by its number.
    fn with_byte(alloc: Global, byte: u8, rest: &str) -> Result<Segment, AllocError> {
        let mut bytes = Vec::new(alloc);
        bytes.push(byte)?;
        bytes.extend_from_slice(rest.as_bytes())?;
        Ok(Segment { count: 1, bytes })
    }

    fn repeated(alloc: Global, count: u32, text: &str) -> Result<Segment, AllocError> {
        Ok(Segment {
            count,
            bytes: Vec::from_slice(alloc, text.as_bytes())?,
        })
    }

    fn append_to(&self, source: &mut Vec<u8>) -> Result<(), AllocError> {
        for _ in 0..self.count {
            source.extend_from_slice(&self.bytes)?;
        }
        Ok(())
    }
}

/// What stands between a backslash and the next one: `n` is byte 10, `{N}` byte N, `N[` begins a text that is there N times,
/// and `]` ends it. None for another letter.
fn escaped(alloc: Global, piece: &str) -> Result<Option<Segment>, AllocError> {
    if let Some(rest) = piece.strip_prefix('n') {
        return Ok(Some(Segment::with_byte(alloc, b'\n', rest)?));
    }
    if let Some(rest) = piece.strip_prefix(']') {
        return Ok(Some(Segment::repeated(alloc, 1, rest)?));
    }
    if let Some((count, text)) = piece.split_once('[') {
        if let Ok(count) = count.parse::<u32>() {
            return Ok(Some(Segment::repeated(alloc, count, text)?));
        }
    }
    let Some((number, rest)) = piece.split_once('}') else {
        return Ok(None);
    };
    match number.trim_start_matches('{').parse::<u8>() {
        Ok(byte) => Ok(Some(Segment::with_byte(alloc, byte, rest)?)),
        Err(_) => Ok(None),
    }
}

/// The segments of a text, none where an escape isn't known.
pub fn segments(alloc: Global, text: &str) -> Result<Option<Vec<Segment>>, AllocError> {
    let mut segments = Vec::new(alloc);
    for (index, piece) in text.split('\\').enumerate() {
        if index == 0 {
            segments.push(Segment::repeated(alloc, 1, piece)?)?;
            continue;
        }
        let Some(segment) = escaped(alloc, piece)? else {
            return Ok(None);
        };
        segments.push(segment)?;
    }
    Ok(Some(segments))
}

/// The source that a text stands for, none where an escape isn't known.
pub fn source_of(alloc: Global, text: &str) -> Result<Option<Vec<u8>>, AllocError> {
    let Some(segments) = segments(alloc, text)? else {
        return Ok(None);
    };
    let mut source = Vec::new(alloc);
    for segment in &segments {
        segment.append_to(&mut source)?;
    }
    Ok(Some(source))
}
