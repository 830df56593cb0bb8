// What a program in C calls to time the layers of the search: each call makes the plan of a book once, and then does one
// thing over and over.
#![tactic(auto)]

ghost use Rattle.std.specs.Prelude.{◌≡◌, ℕ, [], min, length, replicate};
ghost use Rattle.tableau.specs.Expansions.{expansions};
ghost use Rattle.tableau.specs.Search.{explore};
ghost use Rattle.plan.specs.Meanings.{table_in, box_in};
ghost use Rattle.successor.specs.Obligations.{seeds_in};
ghost use Rattle.search.specs.Games.{told};
ghost use Rattle.search.specs.Nodes.{blank};
ghost use Rattle.probes.specs.Sums.{added};

use book::read::read;
use expand::next_label;
use model::{find, has_world};
use plan::Plan;
use roles::rows::Rows;
use search::{NoRoom, Node};
use successor::next_seed;
use tableau::Label;

// As many nodes as a search is lent at most.
const NODES: usize = 4096;

// The plan of the book in the bytes, under its closure rows.
// Stays: the tests in `examples` have the like, with the failure of a test for an error. This crate is a static library, on
// which no other builds, and the two lines are not worth a public function of `plan`.
fn plan_of(bytes: &[u8]) -> Option<Plan> {
    let book = read(bytes).ok()?;
    Plan::new(&book, &Rows::closed(&book)).ok()
}

// How many expansions the seed has, counted no further than the limit.
// Stays: each step asks at the word that the last one answered, here and in `count_seeds`. A chain of `successors` would
// take the same pair through a closure, and nothing says of such a chain that it ends, which `count` asks.
pub fn count_labels(plan: &Plan, seed: Label, limit: u64) -> u64
    ensures { result ≡ min limit (length (expansions (table_in plan.now) seed)) }
{
    let mut count = 0;
    let mut c = 0;
    while count < limit
        && let Some((_, after)) = next_label(plan, seed, c)
    {
        count += 1;
        c = after;
    }
    count
}

// How many obligations the label has.
pub fn count_seeds(plan: &Plan, label: Label) -> usize
    ensures { result ≡ length (seeds_in plan.now label 0) }
{
    let mut count = 0;
    let mut k = 0;
    while let Some((_, after)) = next_seed(plan, label, k) {
        count += 1;
        k = after;
    }
    count
}

// A count that is taken so many times over and added up, as far as a word goes.
fn over<F: Fn() -> u64>(times: u64, count: F) -> u64
    requires { F.IsAlwaysCallable count }
    ensures { (n : ℕ) → ((r : ℕ) → F.post count r → r ≡ n) → result ≡ added times n }
{
    let mut sum: u64 = 0;
    for _ in 0..times {
        sum = sum.saturating_add(count());
    }
    sum
}

// The same count, taken so many times over and added up, as far as a word goes.
pub fn count_labels_over(plan: &Plan, seed: Label, limit: u64, times: u64) -> u64
    ensures { result ≡ added times (min limit (length (expansions (table_in plan.now) seed))) }
{
    over(times, || count_labels(plan, seed, limit))
}

// The same count, taken so many times over and added up, as far as a word goes.
pub fn count_seeds_over(plan: &Plan, label: Label, times: u64) -> u64
    ensures { result ≡ added times (length (seeds_in plan.now label 0)) }
{
    over(times, || count_seeds(plan, label) as u64)
}

// Whether a world comes of the seed in the lent nodes; searched for so many times, and at least once. Every node is blank after
// it.
pub fn has_world_over(
    plan: &Plan,
    nodes: &mut [Node],
    seed: Label,
    times: u64,
) -> Result<bool, NoRoom>
    ensures answer { result ≡ told (explore (box_in plan.now) (table_in plan.now) (length nodes.old) (length nodes.old) [] seed) }
    ensures wiped { nodes.new ≡ replicate (length nodes.old) blank }
{
    let mut answer = has_world(plan, nodes, seed);
    for _ in 1..times {
        answer = has_world(plan, nodes, seed);
    }
    answer
}

// The calls of a program in C.
// Stays: such a program gives and gets numbers: a seed as two words, an answer as a number, one too where there is none.

// The number of working entries, 0 where the book has no plan.
#[unsafe(no_mangle)]
pub extern "C" fn probe_width(book: &[u8]) -> usize {
    plan_of(book).map_or(0, |plan| plan.width)
}

// Reads the book and makes its plan so many times; the widths of the plans added up.
#[unsafe(no_mangle)]
pub extern "C" fn probe_plan(book: &[u8], times: u64) -> u64 {
    over(times, || probe_width(book) as u64)
}

// Goes through the expansions of a seed, as far as the limit, so many times; how many there were in all.
#[unsafe(no_mangle)]
pub extern "C" fn probe_labels(book: &[u8], plus: u64, minus: u64, limit: u64, times: u64) -> u64 {
    plan_of(book).map_or(0, |plan| {
        count_labels_over(&plan, Label { plus, minus }, limit, times)
    })
}

// Goes through the obligations of the first expansion of a seed so many times; how many there were in all.
#[unsafe(no_mangle)]
pub extern "C" fn probe_seeds(book: &[u8], plus: u64, minus: u64, times: u64) -> u64 {
    let Some(plan) = plan_of(book) else {
        return 0;
    };
    next_label(&plan, Label { plus, minus }, 0).map_or(
        0,
        |(label, _)| count_seeds_over(&plan, label, times),
    )
}

// Searches from a seed in so many nodes, so many times: 0 failed, 1 stands, 2 no room, 3 no search was made.
#[unsafe(no_mangle)]
pub extern "C" fn probe_search(
    book: &[u8],
    plus: u64,
    minus: u64,
    nodes: usize,
    times: u64,
) -> u32 {
    if nodes > NODES {
        return 3;
    }
    let Some(plan) = plan_of(book) else {
        return 3;
    };
    let mut lent = [Node::BLANK; NODES];
    match has_world_over(&plan, &mut lent[..nodes], Label { plus, minus }, times) {
        Ok(false) => 0,
        Ok(true) => 1,
        Err(NoRoom) => 2,
    }
}

// How many nodes stand after a search from a seed in as many nodes as can be lent, 0 where it does not stand.
#[unsafe(no_mangle)]
pub extern "C" fn probe_standing(book: &[u8], plus: u64, minus: u64) -> usize {
    let Some(plan) = plan_of(book) else {
        return 0;
    };
    let mut lent = [Node::BLANK; NODES];
    match find(&plan, &mut lent, Label { plus, minus }) {
        Ok(Some(m)) => m,
        Ok(None) | Err(NoRoom) => 0,
    }
}
