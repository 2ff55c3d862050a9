//! What `build` makes of a body weighs no more than its nodes and at most 16 parameters allow. Laws alone.
#![tactic(auto)]

ghost use Rattle.item_weights.specs.Agreement.{NodesAreCounted, KernelsWeighLittle, ElementsAreCounted, VariablesAreFew, KernelsAreWithinLimit};
ghost use Rattle.item_weights.specs.Bodies.{BodiesAreWithinLimit, ProgramsAreWithinLimit};
ghost use Rattle.item_weights.specs.Law.{RowsAreFew, WeighsLittle, IsWithinLimit, ArraysAreThose};

use clc_plain::law_plain;
use clc_well_typed::law_well_typed;

/// What is built of a body has at most 15 rows for each of its nodes, and three for each parameter.
pub fn law_rows()
    ensures { RowsAreFew }
{}

/// Its words, rows, steps and numbers are at most those that go with 15 rows for each node, with the moves of the parameters, and with its values and variables.
pub fn law_weights()
    ensures { WeighsLittle }
{}

/// All four are within the limit of its nodes, where it has at most 16 parameters and each other variable is a node.
pub fn law_limit()
    ensures { IsWithinLimit }
{}

/// The private arrays have together the elements of the body's variables.
pub fn law_arrays()
    ensures { ArraysAreThose }
{}

/// The inlined body of a well-typed kernel has the nodes that the kernel counts.
pub fn law_nodes()
    ensures { NodesAreCounted }
{}

/// What is built of a well-typed kernel is within the limit of the nodes that the kernel counts, but for two numbers of each variable.
pub fn law_kernels()
    ensures { KernelsWeighLittle }
{}

/// Where an expression or a declaration stands first in each `for`, the inlined kernel's variables have the elements that are counted.
pub fn law_elements()
    ensures { ElementsAreCounted }
{}

/// Then each of them is a node or a parameter of the kernel.
pub fn law_variables()
    ensures { VariablesAreFew }
{}

/// Then all four weights are within the limit of the nodes.
pub fn law_kernel_limit()
    ensures { KernelsAreWithinLimit }
{}

/// The item of a body that `inline` gives is within that limit, and its arrays have at most 1,024 elements.
pub fn law_bodies()
    ensures { BodiesAreWithinLimit }
{}

/// The same of each kernel of a program that breaks no typing rule.
pub fn law_programs()
    ensures { ProgramsAreWithinLimit }
{
    law_well_typed();
    law_plain();
    law_bodies();
}
