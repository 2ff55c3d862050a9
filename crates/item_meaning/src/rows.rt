//! Values and turns of small programs, worked out by hand: each is the contract of a function that does nothing.

ghost use Rattle.item_meaning.specs.Rows.{RunningTypes, Divisions, ShortCircuits, Conversions, Accesses, Questions, Functions, Statements, Calls, Items};

pub fn row_running_types()
    ensures { RunningTypes }
{}

pub fn row_divisions()
    ensures { Divisions }
{}

pub fn row_short_circuits()
    ensures { ShortCircuits }
{}

pub fn row_conversions()
    ensures { Conversions }
{}

pub fn row_accesses()
    ensures { Accesses }
{}

pub fn row_questions()
    ensures { Questions }
{}

pub fn row_functions()
    ensures { Functions }
{}

pub fn row_statements()
    ensures { Statements }
{}

pub fn row_calls()
    ensures { Calls }
{}

pub fn row_items()
    ensures { Items }
{}
