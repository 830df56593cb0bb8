// The answers of any hierarchy, each question asked once.
ghost use Rattle.std.specs.Prelude.{◌≡◌, ℕ, ◌<◌};
ghost use Rattle.words.specs.Sets.{has};
ghost use Rattle.roles.specs.Rows.{related};

use meaning::{Hierarchy, Order};

// The set of the roles that r is below. Nothing is asked of a number that is no role: the law of orders says that it is below none.
fn row<H: Hierarchy>(h: &H, r: usize) -> u64
    ensures { (s : ℕ) → has result s ≡ H.Order.under h.now r s }
{
    let count = h.count();
    if r < count {
        words::collect(count, |s| h.below(r, s))
    } else {
        0
    }
}

// A row for each role.
pub fn rows<H: Hierarchy>(h: &H) -> [u64; 64]
    ensures { (r s : ℕ) → related result r s ≡ H.Order.under h.now r s }
{
    words::tabulate(|r| row(h, r))
}

// The set of the transitive roles.
pub fn marks<H: Hierarchy>(h: &H) -> u64
    ensures { (r : ℕ) → has result r ≡ H.Hierarchy.passing h.now r }
{
    words::collect(h.count(), |r| h.transitive(r))
}
