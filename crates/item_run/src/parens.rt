//! Expressions without what stands round them.

ghost use Rattle.std.specs.Prelude.{◌≡◌};
ghost use Rattle.q_functions.specs.declared.work.Work.{Work};
ghost use Rattle.item_meaning.specs.ItemState.{State};
ghost use Rattle.item_meaning.specs.ItemMeaning.{Calls, value, place_of};
ghost use Rattle.item_run.specs.Nodes.{IsCore, IsBare};

use clc_types::{Node, TExpr};

/// The expression in parentheses, and the first operand of a chain without operators, which have the same value.
pub(crate) fn inner_value(e: &TExpr) -> &TExpr
    ensures same { (work : Work) (calls : Calls) (s : State) → value work calls e.now s ≡ value work calls result.now s }
    ensures core { IsCore result.now.node }
{
    match &e.node {
        Node::Paren(inner) => inner_value(inner.get()),
        Node::Chain { first, rest } => {
            if rest.is_empty() {
                inner_value(first.get())
            } else {
                e
            }
        }
        Node::Number(_) => e,
        Node::Name(_) => e,
        Node::Index { .. } => e,
        Node::Element { .. } => e,
        Node::Deref(_) => e,
        Node::Prefix { .. } => e,
        Node::Step { .. } => e,
        Node::Cast(_) => e,
        Node::Cond(_, _, _) => e,
        Node::Assign { .. } => e,
        Node::Call { .. } => e,
        Node::Builtin { .. } => e,
    }
}

/// The expression in parentheses, which is the same place.
pub(crate) fn inner_place(e: &TExpr) -> &TExpr
    ensures same { (work : Work) (calls : Calls) (s : State) → place_of work calls e.now.at e.now.ty e.now.node s ≡ place_of work calls result.now.at result.now.ty result.now.node s }
    ensures bare { IsBare result.now.node }
{
    match &e.node {
        Node::Paren(inner) => inner_place(inner.get()),
        Node::Chain { .. } => e,
        Node::Number(_) => e,
        Node::Name(_) => e,
        Node::Index { .. } => e,
        Node::Element { .. } => e,
        Node::Deref(_) => e,
        Node::Prefix { .. } => e,
        Node::Step { .. } => e,
        Node::Cast(_) => e,
        Node::Cond(_, _, _) => e,
        Node::Assign { .. } => e,
        Node::Call { .. } => e,
        Node::Builtin { .. } => e,
    }
}
