//! How deep statements stand in each other.

ghost use Rattle.std.specs.Prelude.{◌≡◌, ◌+◌, IfOk};
ghost use Rattle.mask_flow.specs.Heights.{height as height_of, height_all};

use item_ir::Stmt;
use std::alloc::AllocError;

fn higher(height: u32) -> Result<u32, AllocError>
    ensures { IfOk result (λ n. n ≡ height + 1) }
{
    match height.checked_add(1) {
        Some(next) => Ok(next),
        None => Err(AllocError),
    }
}

#[cycle(heights)]
fn height(stmt: &Stmt) -> Result<u32, AllocError>
    ensures { IfOk result (λ n. n ≡ height_of stmt.now) }
{
    match stmt {
        Stmt::If { yes, no, .. } => {
            let yes = height_in(yes.as_slice())?;
            let no = height_in(no.as_slice())?;
            higher(yes.max(no))
        }
        Stmt::Loop {
            head,
            body,
            step,
            ..
        } => {
            let head = height_in(head.as_slice())?;
            let body = height_in(body.as_slice())?;
            let step = height_in(step.as_slice())?;
            higher(head.max(body.max(step)))
        }
        Stmt::Scope(body) => higher(height_in(body.as_slice())?),
        Stmt::Let(..) => Ok(0),
        Stmt::Set(..) => Ok(0),
        Stmt::Store { .. } => Ok(0),
        Stmt::SetElement { .. } => Ok(0),
        Stmt::Clear(_) => Ok(0),
        Stmt::Leave => Ok(0),
        Stmt::Break => Ok(0),
        Stmt::Continue => Ok(0),
    }
}

/// How many statements stand in each other at most.
#[cycle(heights)]
pub(crate) fn height_in(body: &[Stmt]) -> Result<u32, AllocError>
    ensures { IfOk result (λ n. n ≡ height_all body.now) }
{
    let mut most = 0;
    for stmt in body {
        most = most.max(height(stmt)?);
    }
    Ok(most)
}
