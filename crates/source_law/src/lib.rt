//! That the form of one work-item does what its source says. Laws alone: each is the contract of a call that does nothing but call the laws that
//! it stands on.
#![tactic(auto)]

ghost use Rattle.source_law.specs.Law.{SourceFollows, KindsAreThose, BodiesStayWithin, FormsAreSmall};

use build_law::law_item;
use inline_law::{law_begins, law_inlined};
use item_bounds::{law_items_keep_bytes, law_items_stay_within};
use item_weights::law_programs;

/// The parameters of the form of a kernel are of the kinds of the kernel's.
pub fn law_kinds()
    ensures { KindsAreThose }
{
    law_begins();
}

/// Where a work-item of a launch comes to its end by the meaning of its source, the form that is built of its kernel does so on a memory that holds
/// the buffers.
pub fn law_source()
    ensures { SourceFollows }
{
    law_kinds();
    law_inlined();
    law_item();
}

/// An item of a body leaves the sizes of the buffers as they are, accesses bytes of theirs alone, takes at most the turns that it is given, and leaves
/// bytes where it finds bytes.
pub fn law_bounds()
    ensures { BodiesStayWithin }
{
    law_inlined();
    law_items_stay_within();
    law_items_keep_bytes();
}

/// The form of a kernel of a program that breaks no typing rule weighs no more than its nodes allow, and its arrays have at most 1,024 elements.
pub fn law_small()
    ensures { FormsAreSmall }
{
    law_programs();
}
