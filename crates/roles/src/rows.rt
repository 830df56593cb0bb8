// A hierarchy as closure rows, worked out at the start.
ghost use Rattle.std.specs.Prelude.{◌≡◌, ℕ, ◌<◌, ◌≤◌, true, length, Decides};
ghost use Rattle.words.specs.Sets.{has};
ghost use Rattle.meaning.specs.Orders.{Lawful};
ghost use Rattle.book.specs.Views.{view};
ghost use Rattle.roles.specs.Told.{marked};
ghost use Rattle.roles.specs.Closure.{closure, Below};
ghost use Rattle.roles.specs.Rows.{related};
ghost use Rattle.roles.specs.Laws.{lawful_known};

use crate::asked;
use crate::told::Told;
use book::Book;
use meaning::{Hierarchy, Order};

// Row r is the set of the roles that r is below; the rows from the count on are empty. The marks are the transitive roles.
// Stays: the library takes no heap, so the rows are a fixed array, with the count of the roles beside it.
#[derive(Clone, Copy)]
pub struct Rows {
    count: usize,
    rows: [u64; 64],
    marks: u64,
    ghost few: { count ≤ 64 },
    ghost law: { ∥ Lawful count (related rows) ∥₁ },
    ghost inside: { (r : ℕ) → has marks r ≡ true → r < count },
}

impl Rows {
    // Follows the told inclusions of a book from each role, once.
    pub fn closed(book: &Book) -> Rows
        ensures count { result.count ≡ length (view book.now).roles }
        ensures relation { (r s : ℕ) → related result.rows r s ≡ closure (length (view book.now).roles) (view book.now).pairs r s }
        ensures chains { (r s : ℕ) → Decides (related result.rows r s) (Below (length (view book.now).roles) (view book.now).pairs r s) }
        ensures transitive { (r : ℕ) → has result.marks r ≡ marked (view book.now).roles r }
    {
        let told = Told::new(book);
        Rows {
            count: told.count(),
            rows: words::tabulate(|r| told.row(r)),
            marks: asked::marks(&told),
        }
    }

    // Asks a hierarchy every question, once.
    pub fn copied<H: Hierarchy>(h: &H) -> Rows
        ensures count { result.count ≡ H.Order.size h.now }
        ensures relation { (r s : ℕ) → related result.rows r s ≡ H.Order.under h.now r s }
        ensures transitive { (r : ℕ) → has result.marks r ≡ H.Hierarchy.passing h.now r }
    {
        Rows {
            count: h.count(),
            rows: asked::rows(h),
            marks: asked::marks(h),
        }
    }
}

impl Order for Rows {
    ghost size = { λ x. x.count };

    ghost under = { λ x. related x.rows };

    fn count(&self) -> usize {
        self.count
    }

    fn below(&self, r: usize, s: usize) -> bool {
        r < self.count && s < self.count && words::member(self.rows[r], s)
    }

    ghost lawful = { λ x. lawful_known x.count (related x.rows) x.law };
}

impl Hierarchy for Rows {
    ghost passing = { λ x. has x.marks };

    fn transitive(&self, r: usize) -> bool {
        r < self.count && words::member(self.marks, r)
    }

    ghost inside = { λ x. x.inside };
}
