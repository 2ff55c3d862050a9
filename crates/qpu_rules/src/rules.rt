//! The restrictions, each by a function of its own.

ghost use Rattle.std.specs.Prelude.{◌≡◌, ◌<◌, IfSome, IfNone};
ghost use Rattle.qpu_rules.specs.Restrictions.{is_same, has_acc, is_settled, breaks_h1, breaks_h2, breaks_h3, breaks_h4, breaks_h5, breaks_h6, breaks_h7, is_several, is_nothing, least_of_access, least_of_accesses, least_rule, IsLeastBroken, IsLawful};
ghost use Rattle.qpu_rules.specs.Uses.{accesses, count_of};
ghost use Rattle.vpm_words.specs.Rules as on_access;

use crate::access::{Accesses, accesses_of, takes_uniform};
use crate::recent::Recent;
use crate::registers::{branches, ends, file_writer, register_read, turns, turns_by_five};
use qpu_encode::{Form, Instr};
use vpm_words::{Access, Owner, ReadSetup, Rule, Seen, law_rules, parse_read, parse_write};

fn same(x: Option<u8>, y: Option<u8>) -> bool
    ensures { result ≡ is_same x y }
{
    match x {
        None => false,
        Some(x) => match y {
            None => false,
            Some(y) => x == y,
        },
    }
}

#[tactic(auto, unfolding(crate::specs::Restrictions::breaks_h1))]
fn reads_fresh(form: &Form, recent: &Recent) -> bool
    ensures { result ≡ breaks_h1 form.now recent.now }
{
    same(recent.file_a, register_read(false, form))
        || same(recent.file_b, register_read(true, form))
}

fn has(accs: u8, acc: u8) -> bool
    requires { acc < 8 }
    ensures { result ≡ has_acc accs acc }
{
    (accs >> acc) % 2 == 1
}

// The last accumulator that a rotation may read.
const LAST_ACC: u8 = 3;

fn settled(accs: u8, selector: u8) -> bool
    ensures { result ≡ is_settled accs selector }
{
    selector <= LAST_ACC && !has(accs, selector)
}

#[tactic(auto, unfolding(crate::specs::Restrictions::breaks_h2))]
fn rotates_fresh(form: &Form, recent: &Recent) -> bool
    ensures { result ≡ breaks_h2 form.now recent.now }
{
    if !turns(form) {
        return false;
    }
    match *form {
        Form::Alu { mul, .. } => !settled(recent.accs, mul.a) || !settled(recent.accs, mul.b),
        Form::Ldi { .. } | Form::Bra { .. } => false,
    }
}

#[tactic(auto, unfolding(crate::specs::Restrictions::breaks_h3))]
fn rotates_by_fresh(form: &Form, recent: &Recent) -> bool
    ensures { result ≡ breaks_h3 form.now recent.now }
{
    turns_by_five(form) && recent.five
}

#[tactic(auto, unfolding(crate::specs::Restrictions::breaks_h4))]
fn lacks_uniform(form: &Form, seen: &Seen) -> bool
    ensures { result ≡ breaks_h4 form.now seen.now }
{
    takes_uniform(form) && seen.uniforms == 0
}

fn several(accesses: Accesses) -> bool
    ensures { result ≡ is_several accesses }
{
    matches!(accesses, Accesses::Several)
}

fn nothing(accesses: Accesses) -> bool
    ensures { result ≡ is_nothing accesses }
{
    matches!(accesses, Accesses::Nothing)
}

#[tactic(auto, unfolding(crate::specs::Restrictions::breaks_h6))]
fn turns_off_late(form: &Form, recent: &Recent) -> bool
    ensures { result ≡ breaks_h6 form.now recent.now }
{
    (branches(form) || ends(form)) && (recent.slots > 0 || recent.ending > 0)
}

#[tactic(auto, unfolding(crate::specs::Restrictions::breaks_h7))]
fn works_at_end(form: &Form, found: Accesses, recent: &Recent) -> bool
    requires { found ≡ count_of (accesses form.now) }
    ensures { result ≡ breaks_h7 form.now recent.now }
{
    (ends(form) && file_writer(form)) || ((ends(form) || recent.ending > 0) && !nothing(found))
}

fn mine(owner: Owner) -> bool
    ensures { result ≡ on_access.is_me owner }
{
    matches!(owner, Owner::Me)
}

// H8
fn misuses_mutex(access: Access, seen: &Seen) -> bool
    ensures { result ≡ on_access.breaks_h8 access seen.now }
{
    match access {
        Access::Lock => mine(seen.owner),
        Access::Unlock => !mine(seen.owner),
        _ => false,
    }
}

// H9
fn is_without_mutex(access: Access, seen: &Seen) -> bool
    ensures { result ≡ on_access.breaks_h9 access seen.now }
{
    match access {
        Access::Uniform | Access::Lock | Access::Unlock => false,
        _ => !mine(seen.owner),
    }
}

// H10
fn touches_busy_row(access: Access, seen: &Seen) -> bool
    ensures { result ≡ on_access.breaks_h10 access seen.now }
{
    matches!(access, Access::ReadVpm | Access::WriteVpm) && seen.row_busy
}

// H11
fn meets_busy_engine(access: Access, seen: &Seen) -> bool
    ensures { result ≡ on_access.breaks_h11 access seen.now }
{
    match access {
        Access::LoadAddr => seen.load_busy,
        Access::StoreAddr => seen.store_busy,
        Access::Unlock => seen.load_busy || seen.store_busy,
        _ => false,
    }
}

// H12
fn starts_outside(access: Access, seen: &Seen) -> bool
    ensures { result ≡ on_access.breaks_h12 access seen.now }
{
    matches!(access, Access::LoadAddr | Access::StoreAddr) && !seen.fits
}

// How many words stand at least between a read setup of rows and the first read.
const BETWEEN: u8 = 3;

// H13
fn reads_no_row(access: Access, age: u8, seen: &Seen) -> bool
    ensures { result ≡ on_access.breaks_h13 access age seen.now }
{
    matches!(access, Access::ReadVpm) && (seen.read_rows == 0 || age < BETWEEN)
}

// H14
fn sets_up_nothing(access: Access, seen: &Seen) -> bool
    ensures { result ≡ on_access.breaks_h14 access seen.now }
{
    match access {
        Access::ReadSet => parse_read(seen.value).is_none(),
        Access::WriteSet => parse_write(seen.value).is_none(),
        _ => false,
    }
}

// H15
fn lacks_setup(access: Access, seen: &Seen) -> bool
    ensures { result ≡ on_access.breaks_h15 access seen.now }
{
    match access {
        Access::WriteVpm => !seen.write_set,
        Access::LoadAddr => !seen.load_set,
        Access::StoreAddr => !seen.store_set,
        _ => false,
    }
}

fn asks_for_rows(setup: Option<ReadSetup>) -> bool
    ensures { result ≡ on_access.asks_rows setup }
{
    match setup {
        None => false,
        Some(setup) => matches!(setup, ReadSetup::Rows { .. }),
    }
}

// H16
fn asks_again(access: Access, seen: &Seen) -> bool
    ensures { result ≡ on_access.breaks_h16 access seen.now }
{
    match access {
        Access::ReadSet => asks_for_rows(parse_read(seen.value)) && seen.read_rows > 0,
        _ => false,
    }
}

fn broken_by_access(access: Access, age: u8, seen: &Seen) -> Option<Rule>
    ensures { result ≡ least_of_access access age seen.now }
{
    if misuses_mutex(access, seen) {
        Some(Rule::H8)
    } else if is_without_mutex(access, seen) {
        Some(Rule::H9)
    } else if touches_busy_row(access, seen) {
        Some(Rule::H10)
    } else if meets_busy_engine(access, seen) {
        Some(Rule::H11)
    } else if starts_outside(access, seen) {
        Some(Rule::H12)
    } else if reads_no_row(access, age, seen) {
        Some(Rule::H13)
    } else if sets_up_nothing(access, seen) {
        Some(Rule::H14)
    } else if lacks_setup(access, seen) {
        Some(Rule::H15)
    } else if asks_again(access, seen) {
        Some(Rule::H16)
    } else {
        None
    }
}

#[tactic(auto, unfolding(crate::specs::Restrictions::least_of_accesses, crate::specs::Restrictions::least_of_access))]
fn broken_by_accesses(accesses: Accesses, age: u8, seen: &Seen) -> Option<Rule>
    ensures { result ≡ least_of_accesses accesses age seen.now }
{
    match accesses {
        Accesses::One(access) => broken_by_access(access, age, seen),
        Accesses::Nothing | Accesses::Several => None,
    }
}

fn least(form: &Form, recent: &Recent, seen: &Seen) -> Option<Rule>
    ensures { result ≡ least_rule form.now recent.now seen.now }
{
    let accesses = accesses_of(form);
    if reads_fresh(form, recent) {
        Some(Rule::H1)
    } else if rotates_fresh(form, recent) {
        Some(Rule::H2)
    } else if rotates_by_fresh(form, recent) {
        Some(Rule::H3)
    } else if lacks_uniform(form, seen) {
        Some(Rule::H4)
    } else if several(accesses) {
        Some(Rule::H5)
    } else if turns_off_late(form, recent) {
        Some(Rule::H6)
    } else if works_at_end(form, accesses, recent) {
        Some(Rule::H7)
    } else {
        broken_by_accesses(accesses, recent.age, seen)
    }
}

/// The least of the restrictions H1 to H16 that a word breaks.
///
/// `recent` is what the QPU's words before leave to watch for, `seen` what the word's access looks at. It takes no memory.
pub fn first_broken(instr: &Instr, recent: &Recent, seen: &Seen) -> Option<Rule>
    ensures rule { result ≡ least_rule instr.now recent.now seen.now }

    // Without one the word breaks none of them.
    ensures none { IfNone result (IsLawful instr.now recent.now seen.now) }

    // It is broken, and none of a lower number is.
    ensures some { IfSome result (IsLeastBroken instr.now recent.now seen.now) }
{
    law_rules();
    least(&instr.form, recent, seen)
}
