// The working entries of a book under a hierarchy, and which of them are the propagated restrictions of which.
ghost use Rattle.std.specs.Prelude.{◌≡◌, ℕ, ◌<◌, ◌≤◌, IfOk, IfErr, slice_index};
ghost use Rattle.words.specs.Sets.{has};
ghost use Rattle.denial.specs.Denials.{reported, denial_report};
ghost use Rattle.denial.specs.declared.Layer.TheVariants.{Register};
ghost use Rattle.book.specs.Sections.{says};
ghost use Rattle.book.specs.Views.{view};
ghost use Rattle.meaning.specs.declared.Concept.TheVariants.{Restriction};
ghost use Rattle.meaning.specs.declared.Quantifier.TheVariants.{Forall};
ghost use Rattle.tableau.specs.declared.Entry.TheVariants.{Plain};
ghost use Rattle.tableau.specs.Working.{with_other_role, propagated_list, plain_of, width_of, entry_of, propagates_of};
ghost use Rattle.plan.specs.Building.{box_of};
ghost use Rattle.plan.specs.Listing.{Lists};
ghost use Rattle.plan.specs.Plans.{listed_entry};

use crate::propagated::Propagations;
use book::Book;
use denial::Denial;
use meaning::{Concept, Order, Quantifier};
use roles::rows::Rows;
use std::array;
use tableau::Entry;

// As many working entries as a plan can have.
const ENTRIES: usize = 64;

// What the working entries are made of: a book, a hierarchy that is kept as rows, and the propagated restrictions. The
// width is how many entries there are.
#[derive(Clone, Copy)]
pub struct Draft<'a> {
    book: &'a Book,
    base: &'a Rows,
    list: Propagations,
    pub width: usize,
    ghost lists: { Lists list (propagated_list (box_of base.now) (says (view book.now))) },
    ghost width_is: { width ≡ width_of (box_of base.now) (says (view book.now)) },
    ghost narrow: { width ≤ 64 },
}

impl<'a> Draft<'a> {
    // Refused where there are too many working entries.
    pub fn new(book: &'a Book, base: &'a Rows) -> Result<Draft<'a>, Denial>
        ensures book { IfOk result (λ d. d.book.now ≡ book.now) }
        ensures base { IfOk result (λ d. d.base.now ≡ base.now) }
        ensures wide { IfErr result (λ _. 64 < width_of (box_of base.now) (says (view book.now))) }
        ensures report { IfErr result (λ e. denial_report e ≡ reported 13 (width_of (box_of base.now) (says (view book.now))) Register) }
    {
        let list = Propagations::of(book, base);
        let width = book.entry_count() + list.count + book.rule_count() + 2;
        if width > ENTRIES {
            return Err(Denial::Width(width));
        }
        Ok(Draft {
            book,
            base,
            list,
            width,
        })
    }

    // Where the rules start: after the concepts and the propagated restrictions.
    pub fn plain(&self) -> usize
        ensures { result ≡ plain_of (box_of self.now.base.now) (says (view self.now.book.now)) }
    {
        self.book.entry_count() + self.list.count
    }

    // All of them; past the last there is nothing.
    pub fn entries(&self) -> [Entry; 64]
        ensures { (i : ℕ) → listed_entry result i ≡ entry_of (box_of self.now.base.now) (says (view self.now.book.now)) i }
    {
        array::from_fn(|j| self.entry(j))
    }

    // Concepts, propagated restrictions, rules, all rules, and that they hold everywhere.
    fn entry(&self, j: usize) -> Entry
        ensures { result ≡ entry_of (box_of self.now.base.now) (says (view self.now.book.now)) j }
    {
        let first = self.book.entry_count();
        let plain = self.plain();
        let rules = self.book.rule_count();
        if j < first {
            Entry::Plain(self.book.concept(j))
        } else if j < plain {
            let noted = self.list.noted[j - first];
            Entry::Plain(with_role(noted.role, self.book.concept(noted.origin as usize)))
        } else if j < plain + rules {
            let rule = self.book.rule(j - plain);
            Entry::Inclusion(rule.premise, rule.conclusion)
        } else if j == plain + rules {
            Entry::Inclusions(plain as u8, rules as u8)
        } else if j == plain + rules + 1 {
            everywhere(self.base.count(), plain + rules)
        } else {
            Entry::Plain(Concept::Nothing)
        }
    }

    // For each entry the set of its propagated restrictions.
    pub fn propagated(&self) -> [u64; 64]
        ensures { (i j : ℕ) → has (slice_index result i) j ≡ propagates_of (box_of self.now.base.now) (says (view self.now.book.now)) i j }
    {
        words::tabulate(|i| self.propagated_of(i))
    }

    // Those of entry i: their places in the list, raised by the number of the book's entries.
    fn propagated_of(&self, i: usize) -> u64
        ensures { (j : ℕ) → has result j ≡ propagates_of (box_of self.now.base.now) (says (view self.now.book.now)) i j }
    {
        let places = words::collect(self.list.count, |k| self.list.noted[k].origin as usize == i);
        places << self.book.entry_count()
    }
}

// The same restriction by the role p.
fn with_role(p: u8, concept: Concept) -> Concept
    ensures { result ≡ with_other_role p concept }
{
    match concept {
        Concept::Restriction(q, _, a) => Concept::Restriction(q, p, a),
        _ => Concept::Nothing,
    }
}

// The entry i of everything that the role r leads to.
fn everywhere(r: usize, i: usize) -> Entry
    requires role { r < 256 }
    requires entry { i < 256 }
    ensures { result ≡ Plain (Restriction Forall r i) }
{
    Entry::Plain(Concept::Restriction(Quantifier::Forall, r as u8, i as u8))
}
