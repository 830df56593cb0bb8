// Sets of working entries, worked out once: those whose role a role is below, and those that do something by their sign.
ghost use Rattle.std.specs.Prelude.{◌≡◌, ℕ, ◌<◌, ◌≤◌, Bool, true, cond, ◌&&◌, ◌==◌, length, nat_lt, slice_index, slice_index_or};
ghost use Rattle.words.specs.Sets.{has};
ghost use Rattle.tableau.specs.Entries.{LowerEntry};
ghost use Rattle.tableau.specs.Expansions.{absurd_entry};
ghost use Rattle.tableau.specs.Labels.{empty};
ghost use Rattle.tableau.specs.declared.Entry.{Entry};
ghost use Rattle.tableau.specs.Seeds.{role_of, obliges, sign_of};
ghost use Rattle.plan.specs.Plans.{listed_entry, listed_role, is_lower};
ghost use Rattle.plan.specs.Signs.{Signs, PassesOn, grows, obliging_entry, restricting_entry, restricting_sign, said_of};

use meaning::{Concept, Quantifier};
use std::array;
use tableau::{Entry, Label};

// The working entries of a plan, lent: 64 at most, and each by a role below 64.
#[derive(Clone, Copy)]
pub struct Entries<'a> {
    pub items: &'a [Entry],
    ghost few: { length items.now ≤ 64 },
    ghost roles: { (j : ℕ) → listed_role items.now j < 64 },
    ghost lower: { (j : ℕ) → is_lower j (listed_entry items.now j) ≡ true },
}

impl<'a> Entries<'a> {
    // For each role, the entries whose role it is below.
    pub fn above(&self, rows: &[u64; 64]) -> [u64; 64]
        ensures { (r j : ℕ) → r < 64 → has (slice_index result r) j ≡ (nat_lt j (length self.now.items.now) && has (slice_index rows.now r) (listed_role self.now.items.now j)) }
    {
        // Stays: `map` of an array says what its items are by calls in turn, and `tabulate` by their numbers, as the clause does.
        words::tabulate(|r| self.above_row(rows[r]))
    }

    // The entries whose role is in the set.
    // Stays: by number, here and in `signed`, since what is collected are the numbers of the entries that pass.
    fn above_row(&self, row: u64) -> u64
        ensures { (j : ℕ) → has result j ≡ (nat_lt j (length self.now.items.now) && has row (listed_role self.now.items.now j)) }
    {
        words::collect(
            self.items.len(),
            |j| words::member(row, role(self.items[j])),
        )
    }

    // The signed entries that pass the test.
    pub fn signed<F: Fn(Entry, bool) -> bool>(&self, passes: F) -> Label
        requires callable { (e : Entry) (s : Bool) → F.pre passes e s }
        ensures { (p : Entry → Bool → Bool) → ((e : Entry) (s b : Bool) → F.post passes e s b → b ≡ p e s) → Signs p (length self.now.items.now) self.now.items.now result }
    {
        let n = self.items.len();
        Label {
            plus: words::collect(n, |i| passes(self.items[i], true)),
            minus: words::collect(n, |i| passes(self.items[i], false)),
        }
    }
}

// Whether a label that holds the signed entry may have to hold more.
pub fn grows(entry: Entry, sign: bool) -> bool
    ensures { result ≡ grows entry sign }
{
    match entry {
        Entry::Plain(Concept::Not(_) | Concept::And(_, _) | Concept::Or(_, _)) => true,
        Entry::Inclusion(_, _) | Entry::Inclusions(_, _) => sign,
        _ => false,
    }
}

// Whether a signed restriction obliges to a successor.
pub fn obliges(q: Quantifier, sign: bool) -> bool
    ensures { result ≡ obliges q sign }
{
    match q {
        Quantifier::Exists => sign,
        Quantifier::Forall | Quantifier::NoneOf => !sign,
    }
}

// The sign with which a signed restriction speaks of its part.
pub fn sign_of(q: Quantifier, sign: bool) -> bool
    ensures { result ≡ sign_of q sign }
{
    match q {
        Quantifier::Exists | Quantifier::Forall => sign,
        Quantifier::NoneOf => !sign,
    }
}

pub fn is_obliging(entry: Entry, sign: bool) -> bool
    ensures { result ≡ obliging_entry entry sign }
{
    match entry {
        Entry::Plain(Concept::Restriction(q, _, _)) => obliges(q, sign),
        _ => false,
    }
}

pub fn is_restricting(entry: Entry, sign: bool) -> bool
    ensures { result ≡ restricting_entry entry sign }
{
    match entry {
        Entry::Plain(Concept::Restriction(q, _, _)) => !obliges(q, sign),
        _ => false,
    }
}

// The sign with which an entry restricts all successors.
fn restricting_sign(q: Quantifier) -> bool
    ensures { result ≡ restricting_sign q }
{
    match q {
        Quantifier::Exists => false,
        Quantifier::Forall | Quantifier::NoneOf => true,
    }
}

// What each entry says of its part, where it restricts all successors.
pub fn said_by(entries: &[Entry; 64]) -> [Label; 64]
    requires { (i : ℕ) → is_lower i (listed_entry entries.now i) ≡ true }
    ensures { (i : ℕ) → slice_index_or result i empty ≡ said_of (listed_entry entries.now i) }
{
    array::from_fn(|i| said(entries[i]))
}

#[tactic(auto, unfolding(tableau::specs::Labels::empty))]
fn said(entry: Entry) -> Label
    requires { LowerEntry 64 entry }
    ensures { result ≡ said_of entry }
{
    match entry {
        Entry::Plain(Concept::Restriction(q, _, a)) => {
            Label::EMPTY.with(sign_of(q, restricting_sign(q)), a as usize)
        }
        _ => Label::EMPTY,
    }
}

// What is told on of each restriction: itself, where its role is transitive, else those propagated of it.
pub fn passed_on(entries: &[Entry; 64], marks: u64, propagated: &[u64; 64]) -> [u64; 64]
    requires { (i : ℕ) → listed_role entries.now i < 64 }
    ensures { PassesOn marks propagated.now entries.now result }
{
    words::tabulate(|i| passed_row(words::member(marks, role(entries[i])), i, propagated[i]))
}

// The set of i alone, or the other.
fn passed_row(itself: bool, i: usize, propagated: u64) -> u64
    requires { i < 64 }
    ensures { (j : ℕ) → has result j ≡ cond itself (j == i) (has propagated j) }
{
    if itself { words::single(i) } else { propagated }
}

// The role of a restriction; of any other entry 0.
// Stays: 0 and no Option, as `role_of` says, which the definitions ask of restrictions alone.
fn role(entry: Entry) -> usize
    ensures { result ≡ role_of entry }
{
    match entry {
        Entry::Plain(Concept::Restriction(_, r, _)) => r as usize,
        _ => 0,
    }
}

pub fn is_absurd(entry: Entry, sign: bool) -> bool
    ensures { result ≡ absurd_entry entry sign }
{
    match entry {
        Entry::Plain(Concept::Nothing) => sign,
        Entry::Plain(Concept::Everything) => !sign,
        _ => false,
    }
}
