//! What the statements of a batch, made of an item's by masks, do to each lane. Laws alone.
#![tactic(auto)]

mod constructs;
mod laws;
mod leaves;

pub use constructs::{law_all, law_items};
pub use laws::{
    law_chooses, law_columns, law_defines, law_fits, law_flows, law_joins, law_leave, law_leaves,
    law_opens, law_places, law_set, law_settles, law_tests,
};
pub use leaves::{
    law_clears, law_elements, law_ids, law_loads, law_set_elements, law_stores, law_without_parts,
};
