//! What the limits of a kernel look at.

ghost use Rattle.std.specs.Prelude.{◌≡◌, slice_index_or};
ghost use Rattle.clc_counts.specs.Counts.{plus as plus_of, none as none_of, so_many, array_tally};

use clc_types::Var;

/// How many nodes there are, and how many elements of private arrays.
#[derive(Clone, Copy, Debug, PartialEq, Eq)]
pub struct Tally {
    pub nodes: u32,
    pub elements: u32,
}

/// Both sums; one that passes the greatest number stays there.
pub(crate) fn plus(a: Tally, b: Tally) -> Tally
    ensures { result ≡ plus_of a b }
{
    Tally {
        nodes: a.nodes.saturating_add(b.nodes),
        elements: a.elements.saturating_add(b.elements),
    }
}

pub(crate) fn none() -> Tally
    ensures { result ≡ none_of }
{
    nodes(0)
}

pub(crate) fn nodes(nodes: u32) -> Tally
    ensures { result ≡ so_many nodes }
{
    Tally { nodes, elements: 0 }
}

/// The elements of a variable, where it is an array.
pub(crate) fn array(var: Var) -> Tally
    ensures { result ≡ array_tally var }
{
    match var {
        Var::Value(_) => none(),
        Var::Pointer { .. } => none(),
        Var::Array { len, .. } => Tally {
            nodes: 0,
            elements: len,
        },
    }
}

/// What was counted of the function of this number.
pub(crate) fn counted(tallies: &[Tally], function: u32) -> Tally
    ensures { result ≡ slice_index_or tallies.now function none_of }
{
    match tallies.get(function as usize) {
        Some(tally) => *tally,
        None => none(),
    }
}
