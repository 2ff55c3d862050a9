//! The laws, each of which is a call that does nothing and whose contract says what is proved.

use footprint::law_conflicts;
use qpu_machine::{law_range, law_runs, law_split};
use solo_law::{
    law_bound, law_example, law_groups, law_never_stuck, law_opening, law_projects, law_rounds,
};

/// Calls each law, so that none is lost unseen.
pub fn call_each() {
    law_runs();
    law_range();
    law_split();
    law_projects();
    law_bound();
    law_never_stuck();
    law_rounds();
    law_groups();
    law_opening();
    law_example();
    law_conflicts();
}
