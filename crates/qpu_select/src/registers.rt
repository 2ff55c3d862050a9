//! The registers of a batch's program.

ghost use Rattle.std.specs.Prelude.{◌≡◌, ◌+◌, ◌<◌, ◌^◌, IfOk, sum as sum_of, length};
ghost use Rattle.qpu_select.specs.Code.{HasRoom, batch_reg, step_reg, batches_reg, items_reg, temporary as temporary_of, param_reg, dims_reg, global_reg, local_reg, var_reg, all_regs, shape_of};

use crate::shape::Shape;
use lane_ir::LaneIr;
use std::alloc::AllocError;

/// Memory is wanting.
pub type Memory = AllocError;

/// The sum, where there is such a number.
pub fn sum(a: u32, b: u32) -> Result<u32, Memory>
    ensures { IfOk result (λ s. (s ≡ a + b) × (a + b < 2 ^ 32)) }
{
    match a.checked_add(b) {
        Some(s) => Ok(s),
        None => Err(AllocError),
    }
}

/// A count as a number of 32 bits.
pub fn number(count: usize) -> Result<u32, Memory>
    ensures { IfOk result (λ n. n ≡ count) }
{
    if count > 0xFFFF_FFFF {
        return Err(AllocError);
    }
    Ok(count as u32)
}

/// The sum of all lengths.
pub fn rows(lens: &[u32]) -> Result<u32, Memory>
    ensures { IfOk result (λ n. n ≡ sum_of lens.now) }
{
    let mut rows = 0u32;
    for len in lens {
        rows = sum(rows, *len)?;
    }
    Ok(rows)
}

pub fn shape(ir: &LaneIr) -> Result<Shape, Memory>
    ensures value { IfOk result (λ h. h ≡ shape_of ir.now) }
    ensures room { IfOk result HasRoom }
{
    let params = number(ir.kinds.len())?;
    let named = sum(sum(ir.vals, params)?, ir.vars)?;
    let _all = sum(named, 32)?;
    Ok(Shape {
        vals: ir.vals,
        params,
        vars: ir.vars,
    })
}

/// The number of the batch.
pub fn batch(h: Shape) -> u32
    requires { HasRoom h }
    ensures { result ≡ batch_reg h }
{
    h.vals + 8
}

/// How far it is to this QPU's next batch.
pub fn step(h: Shape) -> u32
    requires { HasRoom h }
    ensures { result ≡ step_reg h }
{
    h.vals + 9
}

/// How many batches there are.
pub fn batches(h: Shape) -> u32
    requires { HasRoom h }
    ensures { result ≡ batches_reg h }
{
    h.vals + 10
}

/// How many items there are.
pub fn items(h: Shape) -> u32
    requires { HasRoom h }
    ensures { result ≡ items_reg h }
{
    h.vals + 11
}

pub fn temporary(h: Shape) -> u32
    requires { HasRoom h }
    ensures { result ≡ temporary_of h }
{
    h.vals + 12
}

/// The first parameter.
pub fn params(h: Shape) -> u32
    requires { HasRoom h }
    ensures { result ≡ param_reg h 0 }
{
    h.vals + 13
}

pub fn param(h: Shape, p: u32) -> Result<u32, Memory>
    requires { HasRoom h }
    ensures { IfOk result (λ r. r ≡ param_reg h p) }
{
    sum(h.vals + 13, p)
}

/// The work dimension.
pub fn dims(h: Shape) -> u32
    requires { HasRoom h }
    ensures { result ≡ dims_reg h }
{
    h.vals + 13 + h.params
}

/// The global size of dimension 0; those of the others follow.
pub fn global(h: Shape) -> u32
    requires { HasRoom h }
    ensures value { result ≡ global_reg h }
    ensures room { result + 8 < 2 ^ 32 }
{
    h.vals + 14 + h.params
}

/// The local size of dimension 0; those of the others follow.
pub fn local(h: Shape) -> u32
    requires { HasRoom h }
    ensures value { result ≡ local_reg h }
    ensures room { result + 8 < 2 ^ 32 }
{
    h.vals + 17 + h.params
}

pub fn variable(h: Shape, u: u32) -> Result<u32, Memory>
    requires { HasRoom h }
    ensures { IfOk result (λ r. r ≡ var_reg h u) }
{
    sum(h.vals + 20 + h.params, u)
}

/// How many registers there are.
pub fn all(h: Shape) -> u32
    requires { HasRoom h }
    ensures { result ≡ all_regs h }
{
    h.vals + 20 + h.params + h.vars
}
