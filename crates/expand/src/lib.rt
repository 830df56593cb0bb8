// The expansions of a seed, one after another, by choice words.
#![tactic(auto)]

ghost use Rattle.std.specs.Prelude.{◌≡◌, ℕ, ◌+◌, ◌<◌, ◌≤◌, true, false, ◌&&◌, ◌||◌, [], ◌∷◌, MatchOption, nat_lt};
ghost use Rattle.words.specs.Sets.{has};
ghost use Rattle.tableau.specs.Folds.{fold};
ghost use Rattle.tableau.specs.Labels.{in_label, put, joined};
ghost use Rattle.tableau.specs.Entries.{LowerEntry};
ghost use Rattle.tableau.specs.Expansions.{clash_at, clash, grown, taken};
ghost use Rattle.plan.specs.Plans.{listed_entry};
ghost use Rattle.plan.specs.Forcing.{forced_by};
ghost use Rattle.plan.specs.Meanings.{table_in};
ghost use Rattle.expand.specs.Choices.{weight, from, FirstFrom, ChoicesCover};
ghost use Rattle.expand.specs.Runs.{ways_of, Below, Free, Foreseen, Runs};

use meaning::Concept;
use plan::Plan;
use tableau::{Entry, Label};

// An entry with a sign.
// Stays: the sign is a bool, as in a label.
#[derive(Clone, Copy)]
struct Signed {
    sign: bool,
    entry: u8,
}

// What an entry that is taken makes of a label: another label, or a choice of what to put into it.
#[derive(Clone, Copy)]
enum Step {
    Grown(Label),
    Choice(Signed, Signed),
}

// Entry a with +, and with -.
fn plus(a: u8) -> Signed
    ensures { result ≡ record { sign = true; entry = a } }
{
    Signed {
        sign: true,
        entry: a,
    }
}

fn minus(a: u8) -> Signed
    ensures { result ≡ record { sign = false; entry = a } }
{
    Signed {
        sign: false,
        entry: a,
    }
}

// The label with both entries, so signed, in it too.
fn both(label: Label, sign: bool, a: u8, b: u8) -> Label
    requires first { a < 64 }
    requires second { b < 64 }
    ensures { result ≡ put sign a (put sign b label) }
{
    label.with(sign, b as usize).with(sign, a as usize)
}

// The label with each of n entries from lo on, with +, in it too.
fn put_all(label: Label, lo: u8, n: u8) -> Label
    requires { lo + n ≤ 64 }
    ensures { result ≡ fold n (λ k. put true (lo + k)) label }
{
    let start = lo as usize;
    let run = words::difference(words::below(start + n as usize), words::below(start));
    label.with_all(true, run)
}

// Whether the label holds one of two signed entries.
fn holds_one(label: Label, x: Signed, y: Signed) -> bool
    requires first { x.entry < 64 }
    requires second { y.entry < 64 }
    ensures { result ≡ (in_label label x.sign x.entry || in_label label y.sign y.entry) }
{
    label.holds(x.sign, x.entry as usize) || label.holds(y.sign, y.entry as usize)
}

// What a label that holds the entry with the sign must hold besides: nothing is added if an alternative is there.
fn grow(entry: Entry, sign: bool, label: Label) -> Step
    requires { LowerEntry 64 entry }
    ensures ways { ways_of label result ≡ grown entry sign label }
    ensures lower { (k : ℕ) → LowerEntry k entry → Below k result }
{
    match (entry, sign) {
        (Entry::Plain(Concept::Not(a)), _) => Step::Grown(label.with(!sign, a as usize)),
        (Entry::Plain(Concept::And(a, b)), true) => Step::Grown(both(label, true, a, b)),
        (Entry::Plain(Concept::Or(a, b)), false) => Step::Grown(both(label, false, a, b)),
        (Entry::Plain(Concept::And(a, b)), false) if holds_one(label, minus(a), minus(b)) => {
            Step::Grown(label)
        }
        (Entry::Plain(Concept::And(a, b)), false) => Step::Choice(minus(a), minus(b)),
        (Entry::Plain(Concept::Or(a, b)), true) if holds_one(label, plus(a), plus(b)) => {
            Step::Grown(label)
        }
        (Entry::Plain(Concept::Or(a, b)), true) => Step::Choice(plus(a), plus(b)),
        (Entry::Inclusion(a, b), true) if holds_one(label, minus(a), plus(b)) => Step::Grown(label),
        (Entry::Inclusion(a, b), true) => Step::Choice(minus(a), plus(b)),
        (Entry::Inclusions(lo, n), true) => Step::Grown(put_all(label, lo, n)),
        _ => Step::Grown(label),
    }
}

// What entry k, if the label holds it, makes of the label.
#[tactic(auto, unfolding(tableau::specs::Expansions::taken))]
fn take(plan: &Plan, k: usize, label: Label) -> Step
    requires { k < 64 }
    ensures ways { ways_of label result ≡ taken (listed_entry plan.now.entries k) k label }
    ensures lower { Below k result }
{
    match label.sign(k) {
        Some(sign) => grow(plan.entry(k), sign, label),
        None => Step::Grown(label),
    }
}

// The entries at which the label clashes.
fn clashing(plan: &Plan, label: Label) -> u64
    ensures { (i : ℕ) → has result i ≡ (nat_lt i plan.now.width && clash_at (listed_entry plan.now.entries i) label i) }
{
    let both = words::intersection(
        words::intersection(label.plus, label.minus),
        words::below(plan.width),
    );
    words::union(both, label.common(plan.absurd).entries())
}

// Whether the label clashes.
fn clashes(plan: &Plan, label: Label) -> bool
    ensures { result ≡ clash (table_in plan.now) label }
{
    clashing(plan, label) != 0
}

// What the second alternative at entry k adds to a choice word.
#[tactic(auto, unfolding(crate::specs::Choices::weight))]
fn weight_of(k: usize) -> u64
    requires { k < 64 }
    ensures { result ≡ weight k }
{
    words::single(k.saturating_sub(1))
}

// A label that grows, and signed entries that each of its expansions holds, so far as that is known ahead.
#[derive(Clone, Copy)]
struct Growth {
    label: Label,
    ahead: Label,
}

impl Growth {
    // A seed, and what its entries force.
    fn of(plan: &Plan, seed: Label) -> Growth
        ensures label { result.label ≡ seed }
        ensures ahead { Foreseen (table_in plan.now) plan.now.width seed result.ahead }
    {
        let mut ahead = seed;
        let mut left = plan.width;
        // Stays: no iterator goes over these entries.
        while let Some(i) = highest_growing(plan, seed, left) {
            ahead = ahead.joined(plan.forced.by(seed.holds(true, i), i));
            left = i;
        }
        Growth { label: seed, ahead }
    }

    // The label with the signed entry in it too, which brings with it what it forces.
    fn with(self, plan: &Plan, x: Signed) -> Growth
        requires { x.entry < 64 }
        ensures label { result.label ≡ put x.sign x.entry self.label }
        ensures ahead { result.ahead ≡ joined self.ahead (forced_by plan.now.forced x.sign x.entry) }
    {
        let i = x.entry as usize;
        Growth {
            label: self.label.with(x.sign, i),
            ahead: self.ahead.joined(plan.forced.by(x.sign, i)),
        }
    }
}

// The highest entry below k by which the label may have to hold more.
// Stays: that k is at most the width, in three contracts. Each step changes k and the label: a struct of them would be made at each.
fn highest_growing(plan: &Plan, label: Label, k: usize) -> Option<usize>
    requires { k ≤ plan.now.width }
    ensures { MatchOption result (Free (table_in plan.now) label 0 k) (λ i. (i < k) × Free (table_in plan.now) label (i + 1) k × ((in_label label true i || in_label label false i) ≡ true)) }
{
    let held = words::intersection(label.common(plan.growing).entries(), words::below(k));
    if held == 0 {
        return None;
    }
    Some(words::highest(held))
}

// What comes of a label up to the first entry that leaves a choice: an expansion, or the entry and its two alternatives.
#[derive(Clone, Copy)]
enum Run {
    Done(Label),
    Fork(usize, Growth, Signed, Signed),
}

// Takes the entries below k up to the first that leaves a choice. An entry by which the label stays as it is is passed over.
// Nothing comes of a label of which a clash is foreseen: each of its expansions would clash.
fn descend(plan: &Plan, growth: Growth, k: usize) -> Option<Run>
    requires width { k ≤ plan.now.width }
    requires foreseen { Foreseen (table_in plan.now) k growth.label growth.ahead }
    ensures { Runs (table_in plan.now) k growth.label result }
{
    if clashes(plan, growth.ahead) {
        return None;
    }
    let mut at = growth.label;
    let mut left = k;
    // Stays: no iterator goes over these entries, since each that is taken changes the label that says what comes next.
    while let Some(i) = highest_growing(plan, at, left) {
        match take(plan, i, at) {
            Step::Grown(l) => {
                at = l;
                left = i;
            }
            Step::Choice(x, y) => {
                let growth = Growth {
                    label: at,
                    ..growth
                };
                return Some(Run::Fork(i, growth, x, y));
            }
        }
    }
    (!clashes(plan, at)).then_some(Run::Done(at))
}

// The first expansion by the entries below k at the choice word c or after it, with its choice word.
fn first(plan: &Plan, growth: Growth, k: usize, c: u64) -> Option<(Label, u64)>
    requires width { k ≤ plan.now.width }
    requires foreseen { Foreseen (table_in plan.now) k growth.label growth.ahead }
    ensures { MatchOption result (from (table_in plan.now) k growth.label c ≡ []) (FirstFrom (table_in plan.now) k growth.label c) }
{
    match descend(plan, growth, k)? {
        Run::Done(l) => (c == 0).then_some((l, 0)),
        Run::Fork(j, growth, x, y) => {
            let weight = weight_of(j);
            if c < weight {
                if let Some(found) = first(plan, growth.with(plan, x), j, c) {
                    return Some(found);
                }
            }
            let (l, q) = first(plan, growth.with(plan, y), j, c.saturating_sub(weight))?;
            Some((l, q + weight))
        }
    }
}

// The next expansion of the seed at the choice word c or after it, with the choice word to go on from.
pub fn next_label(plan: &Plan, seed: Label, c: u64) -> Option<(Label, u64)>
    ensures { MatchOption result (from (table_in plan.now) plan.now.width seed c ≡ []) (λ p. from (table_in plan.now) plan.now.width seed c ≡ p.0 ∷ from (table_in plan.now) plan.now.width seed p.1) }
{
    let growth = Growth::of(plan, seed);
    let (label, q) = first(plan, growth, plan.width, c)?;
    Some((label, q + 1))
}

// Choice words from 0 on run through all expansions of a seed, and through no more than 2 ^ 63.
pub fn choices_cover()
    ensures { ChoicesCover }
{}
