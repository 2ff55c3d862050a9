//! Where a statement stands.

ghost use Rattle.std.specs.Prelude.{◌≡◌, ◌+◌, ◌<◌, ◌^◌, IfOk};
ghost use Rattle.mask_flow.specs.Masked.{round_of, loop_of, branch, scope, turning, in_round, outermost};

use std::alloc::AllocError;

/// Which values and variables are free where a statement stands, and which masks are open there. A mask is a variable.
#[derive(Clone, Copy, Debug, PartialEq, Eq)]
pub struct Place {
    /// The first value that is free.
    pub value: u32,
    /// The first variable that is free.
    pub var: u32,
    /// The innermost mask.
    pub top: u32,
    /// The mask of the innermost round of a loop that began in the innermost scope.
    pub round: Option<u32>,
    /// The mask of the innermost loop in the innermost scope.
    pub in_loop: Option<u32>,
    /// The mask of the innermost scope.
    pub in_scope: u32,
}

/// The number that is `by` above another, where a few more follow it.
pub(crate) fn above(number: u32, by: u32) -> Result<u32, AllocError>
    ensures value { IfOk result (λ n. n ≡ number + by) }
    ensures room { IfOk result (λ n. n + 8 < 2 ^ 32) }
{
    match number.checked_add(by) {
        Some(next) if next < u32::MAX - 8 => Ok(next),
        _ => Err(AllocError),
    }
}

impl Place {
    /// The mask of the innermost round, and the top one where there is none.
    pub(crate) fn round_mask(self) -> u32
        ensures { result ≡ round_of self }
    {
        match self.round {
            Some(var) => var,
            None => self.top,
        }
    }

    /// The mask of the innermost loop, and the top one where there is none.
    pub(crate) fn loop_mask(self) -> u32
        ensures { result ≡ loop_of self }
    {
        match self.in_loop {
            Some(var) => var,
            None => self.top,
        }
    }

    /// In a branch, for whose mask and the other branch's five values are taken.
    pub(crate) fn branch(self) -> Result<Place, AllocError>
        ensures place { IfOk result (λ p. p ≡ branch self) }
        ensures values { IfOk result (λ p. p.value + 8 < 2 ^ 32) }
        ensures vars { IfOk result (λ p. p.var + 8 < 2 ^ 32) }
    {
        Ok(Place {
            value: above(self.value, 5)?,
            var: above(self.var, 1)?,
            top: self.var,
            ..self
        })
    }

    /// In a scope, in which no loop is open yet.
    pub(crate) fn scope(self) -> Result<Place, AllocError>
        requires { self.value + 8 < 2 ^ 32 }
        ensures place { IfOk result (λ p. p ≡ scope self) }
        ensures values { IfOk result (λ p. p.value + 8 < 2 ^ 32) }
        ensures vars { IfOk result (λ p. p.var + 8 < 2 ^ 32) }
    {
        Ok(Place {
            value: self.value,
            var: above(self.var, 1)?,
            top: self.var,
            round: None,
            in_loop: None,
            in_scope: self.var,
        })
    }

    /// In the head or the step of a loop.
    pub(crate) fn turning(self) -> Result<Place, AllocError>
        requires { self.value + 8 < 2 ^ 32 }
        ensures place { IfOk result (λ p. p ≡ turning self) }
        ensures values { IfOk result (λ p. p.value + 8 < 2 ^ 32) }
        ensures vars { IfOk result (λ p. p.var + 8 < 2 ^ 32) }
    {
        Ok(Place {
            var: above(self.var, 2)?,
            top: self.var,
            in_loop: Some(self.var),
            ..self
        })
    }

    /// In a round of a loop.
    pub(crate) fn in_round(self) -> Result<Place, AllocError>
        requires values { self.value + 8 < 2 ^ 32 }
        requires vars { self.var + 8 < 2 ^ 32 }
        ensures place { IfOk result (λ p. p ≡ in_round self) }
        ensures values { IfOk result (λ p. p.value + 8 < 2 ^ 32) }
        ensures vars { IfOk result (λ p. p.var + 8 < 2 ^ 32) }
    {
        Ok(Place {
            var: above(self.var, 2)?,
            top: self.var + 1,
            round: Some(self.var + 1),
            in_loop: Some(self.var),
            ..self
        })
    }

    /// In the whole item, whose own variables are below `vars`.
    pub(crate) fn outermost(value: u32, vars: u32) -> Result<Place, AllocError>
        ensures place { IfOk result (λ p. p ≡ outermost value vars) }
        ensures values { IfOk result (λ p. p.value + 8 < 2 ^ 32) }
        ensures vars { IfOk result (λ p. p.var + 8 < 2 ^ 32) }
    {
        Ok(Place {
            value: above(value, 0)?,
            var: above(vars, 1)?,
            top: vars,
            round: None,
            in_loop: None,
            in_scope: vars,
        })
    }
}
