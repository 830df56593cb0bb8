// The names: for each the set of the entries that are it.
ghost use Rattle.std.specs.Prelude.{◌≡◌, ℕ, ◌<◌, ◌&&◌, ◌||◌, ◌==◌, nat_lt, slice_index};
ghost use Rattle.words.specs.Sets.{has};
ghost use Rattle.tableau.specs.Found.{is_name};
ghost use Rattle.found.specs.Founds.{is_name_in};

use meaning::Concept;
use plan::Plan;
use tableau::Entry;

// As many names as a book can have.
pub const NAMES: usize = 64;

// Puts i into the set of the name n.
fn put(sets: &mut [u64; 64], n: usize, i: usize)
    requires { i < 64 }
    ensures { (k j : ℕ) → k < 64 → has (slice_index sets.new k) j ≡ (n == k && j == i || has (slice_index sets.old k) j) }
{
    if n < NAMES {
        sets[n] = words::insert(sets[n], i);
    }
}

// Puts i into the set of the name that the entry is, if it is one.
fn note(sets: &mut [u64; 64], entry: Entry, i: usize)
    requires { i < 64 }
    ensures { (k j : ℕ) → k < 64 → has (slice_index sets.new k) j ≡ (is_name k entry && j == i || has (slice_index sets.old k) j) }
{
    if let Entry::Plain(Concept::Name(n)) = entry {
        put(sets, n as usize, i);
    }
}

// For each name the entries that are it.
pub fn names(plan: &Plan) -> [u64; 64]
    ensures { (n i : ℕ) → n < 64 → has (slice_index result n) i ≡ (nat_lt i plan.now.width && is_name_in plan.now n i) }
{
    let mut sets = [0u64; 64];
    for (i, entry) in plan.entries[..plan.width].iter().enumerate() {
        note(&mut sets, *entry, i);
    }
    sets
}
