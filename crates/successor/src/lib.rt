// The obligations of a label, one after another, each with the seed of the successor that it asks for.
#![tactic(auto)]

ghost use Rattle.std.specs.Iterator.{at_most};
ghost use Rattle.std.specs.Prelude.{◌≡◌, ◌+◌, ◌-◌, ◌<◌, ◌≤◌, [], ◌∷◌, IfSome, MatchOption, option_map};
ghost use Rattle.tableau.specs.Seeds.{obligation, obliged_at, seed_of};
ghost use Rattle.plan.specs.Meanings.{table_in, box_in};
ghost use Rattle.successor.specs.Sets.{TakesLowest};
ghost use Rattle.successor.specs.Obligations.{seeds_in};

use meaning::Concept;
use plan::{Plan, obliges, sign_of};
use tableau::{Demand, Entry, Label};

// What a signed entry obliges to, if to anything.
fn obligation(e: Entry, sign: bool) -> Option<Demand>
    ensures { result ≡ obligation e sign }
{
    match e {
        Entry::Plain(Concept::Restriction(q, role, part)) if obliges(q, sign) => Some(Demand {
            role,
            sign: sign_of(q, sign),
            part,
        }),
        _ => None,
    }
}

// What entry i obliges a node with the label to, if to anything.
// Stays: `i < 64` in three contracts, as for a label: entries are plain numbers.
pub fn obligation_at(plan: &Plan, label: Label, i: usize) -> Option<Demand>
    requires { i < 64 }
    ensures value { result ≡ obliged_at (table_in plan.now) label i }
    ensures inside { IfSome result (λ d. (d.role < 64) × (d.part < 64)) }
{
    obligation(plan.entry(i), label.sign(i)?)
}

// The members of a set, by rising number.
#[derive(Drop)]
struct Members(u64);

impl Iterator for Members {
    type Item = usize;

    ghost next_gives = { λ s r t. MatchOption r (s.0 ≡ 0) (λ i. TakesLowest s.0 i t.0) };

    ghost remaining = { λ s. at_most s.0 };

    fn next(&mut self) -> Option<usize> {
        if self.0 == 0 {
            return None;
        }
        let i = words::lowest(self.0);
        self.0 = words::difference(self.0, words::single(i));
        Some(i)
    }
}

// The seed of a successor by r of a node with the label, for an obligation to the part a with the sign.
// Each restriction of the label whose role is above r tells what it says of its part, and what is told on of it, so far as
// that has a role above r too.
// Stays: the three numbers of a `Demand` one by one. It holds bytes, and to ask for one would narrow what this call takes. The plan
// goes with a label here and in the functions beside it: each call has another label.
pub fn seed(plan: &Plan, label: Label, r: usize, sign: bool, a: usize) -> Label
    requires successor { r < 64 }
    requires part { a < 64 }
    ensures { result ≡ seed_of (box_in plan.now) (table_in plan.now) label r sign a }
{
    let above = plan.above[r];
    let told = label.common(plan.restricting);
    let asked = words::intersection(told.entries(), above);
    let mut acc = Label::EMPTY.with(sign, a);
    for i in Members(asked) {
        acc = acc.joined(plan.said[i]).with_all(
            words::member(told.plus, i),
            words::intersection(plan.passed_on[i], above),
        );
    }
    acc
}

// The seed that entry i obliges a node with the label to, if it does.
fn seed_at(plan: &Plan, label: Label, i: usize) -> Option<Label>
    requires { i < 64 }
    ensures { result ≡ option_map (λ d. seed_of (box_in plan.now) (table_in plan.now) label d.role d.sign d.part) (obliged_at (table_in plan.now) label i) }
{
    obligation_at(plan, label, i).map(|d| seed(
        plan,
        label,
        d.role as usize,
        d.sign,
        d.part as usize,
    ))
}

// The seed of the first obligation of the label at entry k or after it, with the entry to go on from.
pub fn next_seed(plan: &Plan, label: Label, k: usize) -> Option<(Label, usize)>
    ensures { MatchOption result (seeds_in plan.now label k ≡ []) (λ p. (seeds_in plan.now label k ≡ p.0 ∷ seeds_in plan.now label p.1) × (k < p.1)) }
{
    if k >= plan.width {
        return None;
    }
    let signed = label.common(plan.obliging).entries();
    for i in Members(words::difference(signed, words::below(k))) {
        if let Some(found) = seed_at(plan, label, i) {
            return Some((found, i + 1));
        }
    }
    None
}
