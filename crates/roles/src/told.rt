// The told inclusions of a book as a hierarchy: the pairs are followed at each question.
ghost use Rattle.std.specs.Prelude.{◌≡◌, ℕ, ◌<◌, ◌≤◌, length, Decides};
ghost use Rattle.words.specs.Sets.{has};
ghost use Rattle.book.specs.Views.{view};
ghost use Rattle.roles.specs.Told.{Inside, marked};
ghost use Rattle.roles.specs.Closure.{closure, Below};
ghost use Rattle.roles.specs.Laws.{closure_law, marked_inside};

use crate::reach::reach;
use book::{Book, TRANSITIVE};
use meaning::{Hierarchy, Order};

// The role section and the pair section of a book, lent.
#[derive(Clone, Copy)]
pub struct Told<'a> {
    roles: &'a [u8],
    pairs: &'a [u8],
    ghost few: { length roles.now ≤ 64 },
    ghost inside: { Inside (length roles.now) pairs.now },
}

impl<'a> Told<'a> {
    pub fn new(book: &'a Book) -> Told<'a>
        ensures roles { result.roles.now ≡ (view book.now).roles }
        ensures pairs { result.pairs.now ≡ (view book.now).pairs }
    {
        Told {
            roles: book.roles(),
            pairs: book.pairs(),
        }
    }

    // The set of the roles that r is below: those to which told inclusions lead. No roles where r is out of range.
    pub(crate) fn row(&self, r: usize) -> u64
        ensures { (s : ℕ) → has result s ≡ closure (length self.now.roles.now) self.now.pairs.now r s }
    {
        if r < self.roles.len() {
            reach(self.pairs, r)
        } else {
            0
        }
    }
}

impl<'a> Order for Told<'a> {
    ghost size = { λ x. length x.roles.now };

    ghost under = { λ x. closure (length x.roles.now) x.pairs.now };

    fn count(&self) -> usize {
        self.roles.len()
    }

    // Whether a chain of told inclusions leads from r to s, or they are the same role.
    fn below(&self, r: usize, s: usize) -> bool
        ensures value { result ≡ closure (length self.now.roles.now) self.now.pairs.now r s }
        ensures chains { Decides result (Below (length self.now.roles.now) self.now.pairs.now r s) }
    {
        s < self.roles.len() && words::member(self.row(r), s)
    }

    ghost lawful = { λ x. closure_law (length x.roles.now) x.pairs.now x.few };
}

impl<'a> Hierarchy for Told<'a> {
    ghost passing = { λ x. marked x.roles.now };

    // Stays: a byte of the format says it, and no record has another than the two that reading lets pass.
    fn transitive(&self, r: usize) -> bool {
        r < self.roles.len() && self.roles[r] == TRANSITIVE
    }

    ghost inside = { λ x. marked_inside x.roles.now };
}
