// The individuals of a world in an entry of a book, entry by entry from the lowest.
ghost use Rattle.std.specs.Prelude.{◌≡◌, ℕ, ◌+◌, ◌^◌, ◌<◌, ◌≤◌, ◌&&◌, if◌then◌else◌, nat_lt, slice_index};
ghost use Rattle.words.specs.Sets.{has, set_of};
ghost use Rattle.denial.specs.Denials.{answer, denial_report};
ghost use Rattle.meaning.specs.declared.Concept.TheVariants.{Restriction};
ghost use Rattle.meaning.specs.Worlds.{denotes, holds, Lower};
ghost use Rattle.book.specs.Sections.{says};
ghost use Rattle.book.specs.Views.{view};
ghost use Rattle.sheet.specs.Judgements.{judged, Asked, Inside};

use book::Book;
use denial::Denial;
use meaning::{Concept, Quantifier, World};

// The set of the individuals in the entry; refused where the book has no such entry.
pub fn judge<W: World>(world: &W, book: &Book, entry: usize) -> Result<u64, Denial>
    ensures { answer (λ w. w) denial_report result ≡ judged (W.World.interpretation world.now) (says (view book.now)) entry }
{
    if entry >= book.entry_count() {
        return Err(Denial::Entry(entry));
    }
    let sets = extensions(world, book, entry + 1);
    Ok(sets[entry])
}

// The sets of the first n entries.
pub(crate) fn extensions<W: World>(world: &W, book: &Book, n: usize) -> [u64; 64]
    requires { n ≤ (says (view book.now)).entries }
    ensures { (i : ℕ) → i < n → slice_index result i ≡ set_of (W.World.interpretation world.now).size (holds (W.World.interpretation world.now) (says (view book.now)).concept i) }
{
    // Stays: the library takes no heap, so the sets are a fixed array, of which the first n are made.
    let mut sets = [0; 64];
    // Stays: each set is made from those of the entries below it, so no chain over the entries is plainer.
    for i in 0..n {
        sets[i] = extension(world, book.concept(i), &sets);
    }
    sets
}

// The set of a concept, from the sets of its parts.
fn extension<W: World>(world: &W, concept: Concept, sets: &[u64; 64]) -> u64
    requires lower { Lower 64 concept }
    requires asked { Asked concept }
    requires inside { Inside (W.World.interpretation world.now).size sets.now }
    ensures { result ≡ set_of (W.World.interpretation world.now).size (denotes (W.World.interpretation world.now) concept (λ a. has (slice_index sets.now a))) }
{
    let all = words::below(world.individuals());
    match concept {
        Concept::Nothing => 0,
        Concept::Everything => all,
        Concept::Name(n) => bearers(world, n as usize),
        Concept::Not(a) => words::difference(all, sets[a as usize]),
        Concept::And(a, b) => words::intersection(sets[a as usize], sets[b as usize]),
        Concept::Or(a, b) => words::union(sets[a as usize], sets[b as usize]),
        Concept::Restriction(q, r, a) => restricted(world, q, r as usize, sets[a as usize]),
    }
}

// The individuals that bear the name n; none where n is from 64 on.
pub fn bearers<W: World>(world: &W, n: usize) -> u64
    ensures { result ≡ set_of (W.World.interpretation world.now).size (λ x. nat_lt n 64 && (W.World.interpretation world.now).bears x n) }
{
    words::collect(world.individuals(), |x| world.bears(x, n))
}

// The individuals to which the role r joins x; none where x is no individual.
// Stays: a world, a role and an individual go together here and in `keeping`. Each call has another role and another
// individual, so that a struct of them would be made at each.
pub fn successors<W: World>(world: &W, r: usize, x: usize) -> u64
    ensures { result ≡ set_of (W.World.interpretation world.now).size (λ y. nat_lt x (W.World.interpretation world.now).size && (W.World.interpretation world.now).joins r x y) }
{
    words::collect(world.individuals(), |y| world.joins(r, x, y))
}

// The individuals in the restriction by the role r whose part, given as a set, stands for part 0.
fn restricted<W: World>(world: &W, q: Quantifier, r: usize, part: u64) -> u64
    ensures { result ≡ set_of (W.World.interpretation world.now).size (denotes (W.World.interpretation world.now) (Restriction q r 0) (λ a. has part)) }
{
    words::collect(world.individuals(), |x| meets(world, q, r, part, x))
}

// Whether x is in that restriction.
fn meets<W: World>(world: &W, q: Quantifier, r: usize, part: u64, x: usize) -> bool
    requires { x < (W.World.interpretation world.now).size }
    ensures { result ≡ denotes (W.World.interpretation world.now) (Restriction q r 0) (λ a. has part) x }
{
    let row = successors(world, r, x);
    match q {
        Quantifier::Exists => !words::disjoint(row, part),
        Quantifier::Forall => words::subset(row, part),
        Quantifier::NoneOf => words::disjoint(row, part),
    }
}
