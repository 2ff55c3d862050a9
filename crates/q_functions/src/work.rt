//! What a work-item may ask of its launch.

ghost use Rattle.std.specs.Prelude.{◌≡◌, ◌≤◌, ℕ, get_or};
ghost use Rattle.q_functions.specs.WorkFunctions.{work_of as item_of, work_function as given_by};

use crate::functions::WorkFunction;

/// A work-item and its launch: the number of dimensions, the sizes of the launch and of a group, and the item's ids.
#[derive(Clone, Copy, Debug, PartialEq, Eq)]
pub struct Work {
    pub dims: u32,
    pub global: [u32; 3],
    pub local: [u32; 3],
    pub id: [u32; 3],
}

/// What is said of a dimension, and `past` where there is no such dimension.
fn in_dimension(values: &[u32], dimension: u32, past: u32) -> u32
    ensures { result ≡ get_or values.now dimension past }
{
    values.get(dimension as usize).copied().unwrap_or(past)
}

/// The item with this flat id in a launch of these sizes, each of which is 1 or more.
pub fn work_of(dims: u32, global: [u32; 3], local: [u32; 3], flat: u32) -> Work
    requires { (i : ℕ) → 1 ≤ get_or global i 1 }
    ensures { result ≡ item_of dims global local flat }
{
    let (first, second) = (in_dimension(&global, 0, 1), in_dimension(&global, 1, 1));
    let rest = flat / first;
    Work {
        dims,
        global,
        local,
        id: [flat % first, rest % second, rest / second],
    }
}

/// What the item is told of a dimension. Each size of a group is 1 or more.
#[tactic(auto, unfolding(crate::specs::WorkFunctions::work_function))]
pub fn work_function(which: WorkFunction, work: &Work, dimension: u32) -> u32
    requires { (i : ℕ) → 1 ≤ get_or work.now.local i 1 }
    ensures { result ≡ given_by which work.now dimension }
{
    let id = in_dimension(&work.id, dimension, 0);
    let size = in_dimension(&work.global, dimension, 1);
    let group = in_dimension(&work.local, dimension, 1);
    match which {
        WorkFunction::WorkDim => work.dims,
        WorkFunction::GlobalId => id,
        WorkFunction::GlobalSize => size,
        WorkFunction::LocalId => id % group,
        WorkFunction::LocalSize => group,
        WorkFunction::GroupId => id / group,
        WorkFunction::NumGroups => size / group,
    }
}
