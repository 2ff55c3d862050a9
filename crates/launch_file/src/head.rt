//! The four lines of the head: the file's kind, the QPUs, and the global and the local sizes.

ghost use Rattle.std.specs.Prelude.{◌≡◌, ◌≤◌, ◌==◌, ◌%◌, not, false, [], ◌∷◌, ℕ, List, length, IfOk, IfErr};
ghost use Rattle.std.specs.List.{list_any};
ghost use Rattle.launch_file.specs.LineText.{FirstLine, QpusLine, GlobalLine, LocalLine};
ghost use Rattle.launch_file.specs.Rules.{is_bad_size, product, divides_not};
ghost use Rattle.launch_file.specs.HeadReading.{Stands, Violates, AreGood};
ghost use Rattle.launch_file.specs.Views.{line_view, sizes_view};

use crate::lines::{Line, Sizes};

fn is_bad(size: u64) -> bool
    ensures { result ≡ is_bad_size size }
{
    !(1 <= size && size <= 65_536)
}

fn are_bad(sizes: Sizes) -> bool
    ensures { result ≡ list_any is_bad_size (sizes_view sizes) }
{
    match sizes {
        Sizes::One(x) => is_bad(x),
        Sizes::Two(x, y) => is_bad(x) || is_bad(y),
        Sizes::Three(x, y, z) => is_bad(x) || is_bad(y) || is_bad(z),
    }
}

/// How many items there are.
#[tactic(auto, using(crate::proofs::HeadLaws::good_one, crate::proofs::HeadLaws::good_two, crate::proofs::HeadLaws::good_three))]
fn items(sizes: Sizes) -> u64
    requires { AreGood (sizes_view sizes) }
    ensures { result ≡ product (sizes_view sizes) }
{
    match sizes {
        Sizes::One(x) => x,
        Sizes::Two(x, y) => x * y,
        Sizes::Three(x, y, z) => x * y * z,
    }
}

fn has_same_count(one: Sizes, other: Sizes) -> bool
    ensures { result ≡ (length (sizes_view one) == length (sizes_view other)) }
{
    match (one, other) {
        (Sizes::One(..), Sizes::One(..)) => true,
        (Sizes::Two(..), Sizes::Two(..)) => true,
        (Sizes::Three(..), Sizes::Three(..)) => true,
        _ => false,
    }
}

/// The file's kind.
#[tactic(auto, unfolding(crate::specs::Rules::least_rule, crate::specs::Rules::violates, crate::specs::Rules::breaks))]
pub fn take_first(line: Line<'_>) -> Result<(), u8>
    ensures stands { IfOk result (λ _. Stands [] (line_view line.entry) FirstLine) }
    ensures fault { IfErr result (λ rule. Violates [] (line_view line.entry) rule) }
{
    match line {
        Line::First => Ok(()),
        _ => Err(1),
    }
}

/// The number of QPUs.
#[tactic(auto, unfolding(crate::specs::Rules::least_rule, crate::specs::Rules::violates, crate::specs::Rules::breaks))]
pub fn take_qpus(line: Line<'_>) -> Result<u64, u8>
    ensures stands { IfOk result (λ qpus. Stands (FirstLine ∷ []) (line_view line.entry) (QpusLine qpus)) }
    ensures some { IfOk result (λ qpus. 1 ≤ qpus) }
    ensures few { IfOk result (λ qpus. qpus ≤ 12) }
    ensures fault { IfErr result (λ rule. Violates (FirstLine ∷ []) (line_view line.entry) rule) }
{
    match line {
        Line::Qpus(qpus) => {
            if 1 <= qpus && qpus <= 12 {
                Ok(qpus)
            } else {
                Err(2)
            }
        }
        _ => Err(1),
    }
}

/// The global sizes.
#[tactic(auto, unfolding(crate::specs::Rules::least_rule, crate::specs::Rules::violates, crate::specs::Rules::breaks))]
pub fn take_global(line: Line<'_>) -> Result<Sizes, u8>
    ensures stands { IfOk result (λ sizes. (qpus : ℕ) → Stands (FirstLine ∷ QpusLine qpus ∷ []) (line_view line.entry) (GlobalLine (sizes_view sizes))) }
    ensures good { IfOk result (λ sizes. AreGood (sizes_view sizes)) }
    ensures items { IfOk result (λ sizes. product (sizes_view sizes) ≤ 1048576) }
    ensures fault { IfErr result (λ rule. (qpus : ℕ) → Violates (FirstLine ∷ QpusLine qpus ∷ []) (line_view line.entry) rule) }
{
    match line {
        Line::Global(sizes) => {
            if are_bad(sizes) {
                return Err(3);
            }
            if items(sizes) > 1_048_576 {
                return Err(4);
            }
            Ok(sizes)
        }
        _ => Err(1),
    }
}

fn is_cut(size: u64, part: u64) -> bool
    requires { 1 ≤ part }
    ensures { result ≡ not (size % part == 0) }
{
    size % part != 0
}

/// Whether a local size doesn't divide the global size at its place.
#[tactic(auto, using(crate::proofs::HeadLaws::good_one, crate::proofs::HeadLaws::good_two, crate::proofs::HeadLaws::good_three))]
fn are_cut(sizes: Sizes, parts: Sizes) -> bool
    requires good { AreGood (sizes_view parts) }
    requires same { length (sizes_view parts) ≡ length (sizes_view sizes) }
    ensures { result ≡ divides_not (sizes_view sizes) (sizes_view parts) }
{
    match (sizes, parts) {
        (Sizes::One(x), Sizes::One(a)) => is_cut(x, a),
        (Sizes::Two(x, y), Sizes::Two(a, b)) => is_cut(x, a) || is_cut(y, b),
        (Sizes::Three(x, y, z), Sizes::Three(a, b, c)) => {
            is_cut(x, a) || is_cut(y, b) || is_cut(z, c)
        }
        _ => false,
    }
}

/// The local sizes.
#[tactic(auto, unfolding(crate::specs::Rules::least_rule, crate::specs::Rules::violates, crate::specs::Rules::breaks))]
pub fn take_local(line: Line<'_>, global: Sizes) -> Result<Sizes, u8>
    ensures stands { IfOk result (λ sizes. (qpus : ℕ) → Stands (FirstLine ∷ QpusLine qpus ∷ GlobalLine (sizes_view global) ∷ []) (line_view line.entry) (LocalLine (sizes_view sizes))) }
    ensures good { IfOk result (λ sizes. AreGood (sizes_view sizes)) }
    ensures same { IfOk result (λ sizes. length (sizes_view sizes) ≡ length (sizes_view global)) }
    ensures divides { IfOk result (λ sizes. divides_not (sizes_view global) (sizes_view sizes) ≡ false) }
    ensures fault { IfErr result (λ rule. (qpus : ℕ) → Violates (FirstLine ∷ QpusLine qpus ∷ GlobalLine (sizes_view global) ∷ []) (line_view line.entry) rule) }
{
    match line {
        Line::Local(sizes) => {
            if are_bad(sizes) {
                return Err(3);
            }
            if !has_same_count(sizes, global) {
                return Err(3);
            }
            if are_cut(global, sizes) {
                return Err(5);
            }
            Ok(sizes)
        }
        _ => Err(1),
    }
}
