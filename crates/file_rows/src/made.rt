//! A launch that is made of its parts, and not read.

ghost use Rattle.std.specs.Prelude.{◌≡◌, ◌∷◌, [], IfOk, Some, None};

use launch_file::{Arg, BufferLine, Launch, Schedule};
use q_io::Text;
use std::alloc::{AllocError, Global};

fn unnamed(size: u32) -> BufferLine
    ensures { result ≡ record { size = size; from = None; to = None } }
{
    BufferLine {
        size,
        from: None,
        to: None,
    }
}

/// 4, 0 and 65 bytes, the last written to `o`.
fn three_buffers(alloc: Global) -> Result<Vec<BufferLine>, AllocError>
    ensures { IfOk result (λ buffers. buffers.items ≡ record { size = 4; from = None; to = None } ∷ record { size = 0; from = None; to = None } ∷ record { size = 65; from = None; to = Some (111 ∷ []) } ∷ []) }
{
    let mut buffers = Vec::with_capacity(alloc, 3)?;
    let one: BufferLine = unnamed(4);
    buffers.push(one)?;
    let two: BufferLine = unnamed(0);
    buffers.push(two)?;
    let name: Text = Text::from_slice(alloc, b"o")?;
    let to: Option<Text> = Some(name);
    let three: BufferLine = BufferLine {
        size: 65,
        from: None,
        to,
    };
    buffers.push(three)?;
    Ok(buffers)
}

/// 17 items in one group on two QPUs, over the three buffers, with a value and the last buffer.
pub fn made_launch(alloc: Global, value: i64) -> Result<Launch, AllocError> {
    let buffers = three_buffers(alloc)?;
    let args = Vec::from_slice(alloc, &[Arg::Value(i128::from(value)), Arg::Buffer(2)])?;
    Ok(Launch {
        qpus: 2,
        global: [17, 1, 1],
        local: [17, 1, 1],
        dims: 1,
        buffers,
        args,
        schedule: Schedule::Rounds(1),
    })
}
