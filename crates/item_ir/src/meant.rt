//! A place where the meaning is cited, so that the check reads it.

ghost use Rattle.std.specs.Prelude.{◌≡◌, List};
ghost use Rattle.item_ir.specs.IrMeaning.{World, State, run_all};
ghost use Rattle.item_ir.specs.declared.form.Stmt.{Stmt};

pub fn definitions()
    ensures { (w : World) (a : List Stmt) (s : State) → run_all w a s ≡ run_all w a s }
{}
