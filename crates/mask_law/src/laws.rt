//! Laws, each the contract of a call that does nothing.

ghost use Rattle.std.specs.Prelude.{◌≡◌, ℕ, List, ◌∷◌, true};
ghost use Rattle.item_ir.specs.Memory.{with_at};
ghost use Rattle.mask_law.specs.Stacks.{Kind, Entry, var_at};
ghost use Rattle.mask_law.specs.Masks.{column, left_to, has};
ghost use Rattle.mask_law.specs.Lanes.{Stacked};
ghost use Rattle.mask_law.specs.Emitted.{Leaves, Settles, Opens, Chooses, Tests};
ghost use Rattle.mask_law.specs.Define.{Defines};
ghost use Rattle.mask_law.specs.Places.{PlacesWithin};
ghost use Rattle.mask_law.specs.Joins.{MasksJoin};
ghost use Rattle.mask_law.specs.Flows.{FlowsFit, ValidFits};
ghost use Rattle.mask_law.specs.Leave.{IsMasked};
ghost use Rattle.item_ir.specs.declared.form.Stmt.TheVariants.{Set, Leave, Break, Continue};
ghost use Rattle.item_ir.specs.declared.form.Val.{Val};

/// A lane that leaves clears the mask where that ends and the top one.
pub fn law_columns()
    ensures { (nu v : ℕ) (k : Kind) (e : Entry) (st : List Entry) (words : ℕ → ℕ) → Stacked nu (e ∷ st) v → has k (e ∷ st) ≡ true
        → column (e ∷ st) (with_at (with_at words (var_at k (e ∷ st)) 0) e.var 0) ≡ left_to k (column (e ∷ st) words) }
{}

/// Where constructs join, settling makes the masks of a lane those after its item's flow.
pub fn law_joins()
    ensures { MasksJoin }
{}

/// The code of leaving does so in each lane.
pub fn law_leaves()
    ensures { Leaves }
{}

/// The code of settling settles the top mask in each lane.
pub fn law_settles()
    ensures { Settles }
{}

/// The code that begins a mask makes it the top one's in each lane.
pub fn law_opens()
    ensures { Opens }
{}

/// The code that begins the branches of an `if` makes their masks in each lane.
pub fn law_chooses()
    ensures { Chooses }
{}

/// The code that tests a loop leaves its mask on where the condition isn't 0.
pub fn law_tests()
    ensures { Tests }
{}

/// An item leaves only for a mask that is open in its scope.
pub fn law_flows()
    ensures { FlowsFit }
{}

/// The statements that leave, in all lanes.
pub fn law_leave()
    ensures scope { IsMasked Leave }
    ensures loop_of { IsMasked Break }
    ensures round { IsMasked Continue }
{}

/// A valid item fits the masks that are open in it.
pub fn law_fits()
    ensures { ValidFits }
{}

/// A variable that is set, in all lanes.
pub fn law_set()
    ensures { (u : ℕ) (x : Val) → IsMasked (Set u x) }
{}

/// A value that no access gives and that isn't an id, in all lanes.
pub fn law_defines()
    ensures { Defines }
{}

/// The statements within a statement stand under the masks of its lists.
pub fn law_places()
    ensures { PlacesWithin }
{}
