//! Which ids of its item a body asks for.

ghost use Rattle.std.specs.Prelude.{◌≡◌, ◌||◌};
ghost use Rattle.lane_mapper.specs.Asked.{no_uses, asked_work, asked_def, asked, asked_all};
ghost use Rattle.lane_mapper.specs.Prolog.{in_groups as is_in_groups};

use item_ir::{Def, Stmt};
use q_functions::WorkFunction;

/// Whether global, local and group ids are asked for.
#[derive(Clone, Copy, Debug, PartialEq, Eq)]
pub struct Uses {
    pub global: bool,
    pub local: bool,
    pub group: bool,
}

impl Uses {
    /// None of them is.
    pub(crate) fn none() -> Uses
        ensures { result ≡ no_uses }
    {
        Uses {
            global: false,
            local: false,
            group: false,
        }
    }

    /// Whether local or group ids are.
    pub(crate) fn in_groups(self) -> bool
        ensures { result ≡ is_in_groups self }
    {
        self.local || self.group
    }

    /// Whether any ids are.
    pub(crate) fn any(self) -> bool
        ensures { result ≡ (self.global || is_in_groups self) }
    {
        self.global || self.in_groups()
    }
}

fn with_work(uses: Uses, which: WorkFunction) -> Uses
    ensures { result ≡ asked_work uses which }
{
    match which {
        WorkFunction::GlobalId => Uses {
            global: true,
            ..uses
        },
        WorkFunction::LocalId => Uses {
            local: true,
            ..uses
        },
        WorkFunction::GroupId => Uses {
            group: true,
            ..uses
        },
        WorkFunction::WorkDim => uses,
        WorkFunction::GlobalSize => uses,
        WorkFunction::LocalSize => uses,
        WorkFunction::NumGroups => uses,
    }
}

fn with_def(uses: Uses, def: &Def) -> Uses
    ensures { result ≡ asked_def uses def.now }
{
    match def {
        Def::Work { which, .. } => with_work(uses, *which),
        _ => uses,
    }
}

#[cycle(asking)]
fn with_stmt(uses: Uses, stmt: &Stmt) -> Uses
    ensures { result ≡ asked uses stmt.now }
{
    match stmt {
        Stmt::Let(_, def) => with_def(uses, def),
        Stmt::If { yes, no, .. } => {
            let uses = with_body(uses, yes.as_slice());
            with_body(uses, no.as_slice())
        }
        Stmt::Loop {
            head,
            body,
            step,
            ..
        } => {
            let uses = with_body(uses, head.as_slice());
            let uses = with_body(uses, body.as_slice());
            with_body(uses, step.as_slice())
        }
        Stmt::Scope(body) => with_body(uses, body.as_slice()),
        Stmt::Set(..) => uses,
        Stmt::Store { .. } => uses,
        Stmt::SetElement { .. } => uses,
        Stmt::Clear(_) => uses,
        Stmt::Leave => uses,
        Stmt::Break => uses,
        Stmt::Continue => uses,
    }
}

/// The ids that were asked for, and those that the statements ask for.
#[cycle(asking)]
pub(crate) fn with_body(uses: Uses, body: &[Stmt]) -> Uses
    ensures { result ≡ asked_all uses body.now }
{
    let mut uses = uses;
    for stmt in body {
        uses = with_stmt(uses, stmt);
    }
    uses
}
