// What a book that was read says: its counts, its concepts and its rules.
ghost use Rattle.std.specs.Prelude.{◌≡◌, ℕ, ◌*◌, ◌/◌, ◌%◌, ◌<◌, ◌≤◌, length, slice_index};
ghost use Rattle.book.specs.Limits.{most_roles, most_pairs};
ghost use Rattle.book.specs.Kinds.{kind_of};
ghost use Rattle.book.specs.Sections.{says, decode};
ghost use Rattle.book.specs.Views.{view};

use crate::Book;
use crate::kind::{Kind, UnknownKind};
use meaning::{Concept, Quantifier, Rule};

impl Book {
    pub fn role_count(&self) -> usize
        ensures { result ≡ (says (view self.now)).roles }
    {
        self.counts.roles
    }

    pub fn pair_count(&self) -> usize
        ensures { result ≡ length (view self.now).pairs / 2 }
    {
        self.counts.pairs
    }

    pub fn entry_count(&self) -> usize
        ensures { result ≡ (says (view self.now)).entries }
    {
        self.counts.entries
    }

    pub fn rule_count(&self) -> usize
        ensures { result ≡ (says (view self.now)).rules }
    {
        self.counts.rules
    }

    // The role section: a byte for each role, `PLAIN` or `TRANSITIVE`.
    pub fn roles(&self) -> &[u8]
        ensures value { result.now ≡ (view self.now).roles }
        ensures few { length result.now ≤ most_roles }
    {
        &self.roles[0..self.counts.roles]
    }

    // The pair section: two bytes for each told role inclusion, the lower role and the upper one, both of the book.
    pub fn pairs(&self) -> &[u8]
        ensures value { result.now ≡ (view self.now).pairs }
        ensures few { length result.now ≤ 2 * most_pairs }
        ensures whole { length result.now % 2 ≡ 0 }
        ensures inside { (k : ℕ) → k < length result.now → slice_index result.now k < length (view self.now).roles }
    {
        &self.pairs[0..2 * self.counts.pairs]
    }

    // Entry i, or nothing where there is none.
    pub fn concept(&self, i: usize) -> Concept
        ensures { result ≡ (says (view self.now)).concept i }
    {
        if i >= self.counts.entries {
            return Concept::Nothing;
        }
        let kind = self.concepts[4 * i];
        let b = self.concepts[4 * i + 1];
        let c = self.concepts[4 * i + 2];
        decoded(kind, b, c)
    }

    // Rule k; where there is none, one of entry 0 with itself.
    pub fn rule(&self, k: usize) -> Rule
        ensures { result ≡ (says (view self.now)).rule k }
    {
        if k >= self.counts.rules {
            return Rule {
                premise: 0,
                conclusion: 0,
            };
        }
        Rule {
            premise: self.rules[2 * k],
            conclusion: self.rules[2 * k + 1],
        }
    }
}

// The concept of a record of this kind, with these operands.
// Stays: the kind is a byte of the format until `Kind::try_from` has read it, and a byte of no kind is nothing.
fn decoded(kind: u8, b: u8, c: u8) -> Concept
    ensures { result ≡ decode (kind_of kind) b c }
{
    match Kind::try_from(kind) {
        Ok(Kind::Everything) => Concept::Everything,
        Ok(Kind::Name) => Concept::Name(b),
        Ok(Kind::Not) => Concept::Not(b),
        Ok(Kind::And) => Concept::And(b, c),
        Ok(Kind::Or) => Concept::Or(b, c),
        Ok(Kind::Exists) => Concept::Restriction(Quantifier::Exists, b, c),
        Ok(Kind::Forall) => Concept::Restriction(Quantifier::Forall, b, c),
        Ok(Kind::NoneOf) => Concept::Restriction(Quantifier::NoneOf, b, c),
        Ok(Kind::Nothing) | Err(UnknownKind) => Concept::Nothing,
    }
}
