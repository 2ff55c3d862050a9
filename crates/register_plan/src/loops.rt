//! Loops: from a block that a later one goes back to, up to that one.

use std::alloc::{AllocError, Global};
use vop_ir::{Exit, VopBlock};

/// A loop's first and last block, the loop around it, and how many are around it.
#[derive(Clone, Copy, Debug, PartialEq, Eq)]
pub struct Loop {
    pub first: usize,
    pub last: usize,
    pub outer: Option<usize>,
    pub depth: u32,
}

/// All loops, those that begin first before the others, and the innermost one of each block.
#[derive(Drop)]
pub struct Loops {
    list: Vec<Loop>,
    inner: Vec<Option<usize>>,
}

impl Loops {
    fn find(&self, at: Option<usize>) -> Option<Loop> {
        match at {
            Some(number) => self.list.get(number).copied(),
            None => None,
        }
    }

    fn innermost(&self, block: usize) -> Option<usize> {
        match self.inner.get(block) {
            Some(found) => *found,
            None => None,
        }
    }

    /// How many loops are around a block.
    pub fn depth_at(&self, block: usize) -> u32 {
        match self.find(self.innermost(block)) {
            Some(around) => around.depth,
            None => 0,
        }
    }

    /// The outermost loop around block `to` that begins after block `from`.
    pub fn around_end(&self, from: usize, to: usize) -> Option<Loop> {
        let mut found = None;
        let mut at = self.innermost(to);
        for _ in 0..self.list.len() {
            match self.find(at) {
                Some(around) if from < around.first => {
                    found = Some(around);
                    at = around.outer;
                }
                _ => return found,
            }
        }
        found
    }

    /// The outermost loop around block `from` that ends before block `to`.
    pub fn around_start(&self, from: usize, to: usize) -> Option<Loop> {
        let mut found = None;
        let mut at = self.innermost(from);
        for _ in 0..self.list.len() {
            match self.find(at) {
                Some(around) if around.last < to => {
                    found = Some(around);
                    at = around.outer;
                }
                _ => return found,
            }
        }
        found
    }
}

fn note_return(ends: &mut [Option<usize>], to: u32, from: usize) {
    let to = to as usize;
    if to <= from && to < ends.len() {
        ends[to] = Some(from);
    }
}

fn note_exit(ends: &mut [Option<usize>], exit: Exit, from: usize) {
    match exit {
        Exit::Jump(to) => note_return(ends, to, from),
        Exit::Branch { cond: _, yes, no } => {
            note_return(ends, yes, from);
            note_return(ends, no, from);
        }
        Exit::Stop => {}
    }
}

// The last block that goes back to each block.
fn returns_of(alloc: Global, blocks: &[VopBlock]) -> Result<Vec<Option<usize>>, AllocError> {
    let mut ends = vec![in alloc; None; blocks.len()]?;
    for (number, block) in blocks.iter().enumerate() {
        note_exit(&mut ends, block.exit, number);
    }
    Ok(ends)
}

// The innermost of these loops that goes on to a block.
fn still_open(list: &[Loop], at: Option<usize>, block: usize) -> Option<usize> {
    let mut open = at;
    for _ in 0..list.len() {
        match open {
            Some(number) if number < list.len() && list[number].last < block => {
                open = list[number].outer;
            }
            _ => return open,
        }
    }
    open
}

fn depth_inside(list: &[Loop], outer: Option<usize>) -> u32 {
    match outer {
        Some(number) if number < list.len() => list[number].depth.saturating_add(1),
        _ => 1,
    }
}

/// The loops of a program.
pub fn loops_of(alloc: Global, blocks: &[VopBlock]) -> Result<Loops, AllocError> {
    let ends = returns_of(alloc, blocks)?;
    let mut list = Vec::new(alloc);
    let mut inner = Vec::new(alloc);
    let mut open = None;
    for (number, end) in ends.iter().enumerate() {
        open = still_open(&list, open, number);
        if let Some(last) = *end {
            let depth = depth_inside(&list, open);
            let found = list.len();
            list.push(Loop {
                first: number,
                last,
                outer: open,
                depth,
            })?;
            open = Some(found);
        }
        inner.push(open)?;
    }
    Ok(Loops { list, inner })
}
