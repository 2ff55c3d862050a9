//! Where a mark stands among marks in their order.

ghost use Rattle.std.specs.Prelude.{ℕ, ◌<◌, ◌≤◌, length};
ghost use Rattle.footprint.specs.Order.{IsNoLater, IsOrdered, mark_at};

use crate::marks::Mark;

/// How many of these marks a mark stands behind.
pub(crate) fn place_of(marks: &[Mark], mark: &Mark) -> usize
    requires { IsOrdered marks.now }
    ensures within { result ≤ length marks.now }
    ensures before { (k : ℕ) → k < result → IsNoLater (mark_at marks.now k) mark.now }
    ensures after { (k : ℕ) → result ≤ k → k < length marks.now → IsNoLater mark.now (mark_at marks.now k) }
{
    let mut low = 0;
    let mut high = marks.len();
    while low < high {
        let middle = low + (high - low) / 2;
        if marks[middle].is_no_later(mark) {
            low = middle + 1;
        } else {
            high = middle;
        }
    }
    low
}
