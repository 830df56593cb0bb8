// Whether a world keeps a book under a hierarchy of the book's roles.
ghost use Rattle.std.specs.Prelude.{◌≡◌, ℕ, ◌<◌, true, Decides, slice_index};
ghost use Rattle.words.specs.Sets.{set_of};
ghost use Rattle.meaning.specs.Worlds.{holds};
ghost use Rattle.meaning.specs.Books.{Includes, Passes, Obeys, KeepsInclusions, KeepsTransitivity, KeepsRules};
ghost use Rattle.meaning.specs.Orders.{role_box};
ghost use Rattle.book.specs.Sections.{says};
ghost use Rattle.book.specs.Views.{view};
ghost use Rattle.sheet.specs.Keeping.{RowWithin, KeepsAnswer};

use crate::judgement::{extensions, successors};
use book::Book;
use denial::Denial;
use meaning::{Hierarchy, Order, World};

// Refused where the hierarchy has another number of roles than the book.
// Stays: a world, a hierarchy and a book are what keeping is a relation of; a struct of them would be made at each call.
pub fn keeps<W: World, H: Hierarchy>(world: &W, hierarchy: &H, book: &Book) -> Result<bool, Denial>
    ensures { KeepsAnswer (role_box (H.Order.size hierarchy.now) (H.Order.under hierarchy.now) (H.Hierarchy.passing hierarchy.now)) (says (view book.now)) (W.World.interpretation world.now) result }
{
    let count = hierarchy.count();
    if count != book.role_count() {
        return Err(Denial::RoleCount(count));
    }
    Ok(
        keeps_inclusions(world, hierarchy)
            && keeps_transitivity(world, hierarchy)
            && keeps_rules(world, book),
    )
}

fn keeps_inclusions<W: World, H: Hierarchy>(world: &W, hierarchy: &H) -> bool
    ensures { Decides result (KeepsInclusions (H.Order.under hierarchy.now) (W.World.interpretation world.now)) }
{
    (0..hierarchy.count()).all(|r| keeps_uppers(world, hierarchy, r))
}

// Whether the pairs of r are pairs of every role that it is below.
fn keeps_uppers<W: World, H: Hierarchy>(world: &W, hierarchy: &H, r: usize) -> bool
    ensures { Decides result ((s : ℕ) → H.Order.under hierarchy.now r s ≡ true → Includes (W.World.interpretation world.now) r s) }
{
    (0..hierarchy.count()).all(|s| !hierarchy.below(r, s) || includes(world, r, s))
}

fn keeps_transitivity<W: World, H: Hierarchy>(world: &W, hierarchy: &H) -> bool
    ensures { Decides result (KeepsTransitivity (H.Hierarchy.passing hierarchy.now) (W.World.interpretation world.now)) }
{
    (0..hierarchy.count()).all(|r| !hierarchy.transitive(r) || passes(world, r))
}

fn keeps_rules<W: World>(world: &W, book: &Book) -> bool
    ensures { Decides result (KeepsRules (says (view book.now)) (W.World.interpretation world.now)) }
{
    let sets = extensions(world, book, book.entry_count());
    (0..book.rule_count()).all(|k| obeys(world, book, &sets, k))
}

// Whether the world, with these sets in the book's entries, obeys rule k.
fn obeys<W: World>(world: &W, book: &Book, sets: &[u64; 64], k: usize) -> bool
    requires inside { k < (says (view book.now)).rules }
    requires known { (i : ℕ) → i < (says (view book.now)).entries → slice_index sets.now i ≡ set_of (W.World.interpretation world.now).size (holds (W.World.interpretation world.now) (says (view book.now)).concept i) }
    ensures { Decides result (Obeys (W.World.interpretation world.now) (says (view book.now)).concept ((says (view book.now)).rule k).premise ((says (view book.now)).rule k).conclusion) }
{
    let rule = book.rule(k);
    let premise = sets[rule.premise as usize];
    let conclusion = sets[rule.conclusion as usize];
    words::subset(premise, conclusion)
}

// Whether every pair of r is a pair of s.
fn includes<W: World>(world: &W, r: usize, s: usize) -> bool
    ensures { Decides result (Includes (W.World.interpretation world.now) r s) }
{
    (0..world.individuals()).all(|x| row_within(world, r, x, s, x))
}

// Whether r joins x to z where it joins x to y and y to z.
fn passes<W: World>(world: &W, r: usize) -> bool
    ensures { Decides result (Passes (W.World.interpretation world.now) r) }
{
    (0..world.individuals()).all(|x| passes_from(world, r, x))
}

// Whether r joins x to z where it joins it to y and y to z.
fn passes_from<W: World>(world: &W, r: usize, x: usize) -> bool
    requires { x < (W.World.interpretation world.now).size }
    ensures { Decides result ((y : ℕ) → y < (W.World.interpretation world.now).size → (W.World.interpretation world.now).joins r x y ≡ true → RowWithin (W.World.interpretation world.now) r y r x) }
{
    (0..world.individuals()).all(|y| !world.joins(r, x, y) || row_within(world, r, y, r, x))
}

// Whether each individual to which r joins x is one to which s joins z.
fn row_within<W: World>(world: &W, r: usize, x: usize, s: usize, z: usize) -> bool
    requires first { x < (W.World.interpretation world.now).size }
    requires second { z < (W.World.interpretation world.now).size }
    ensures { Decides result (RowWithin (W.World.interpretation world.now) r x s z) }
{
    words::subset(successors(world, r, x), successors(world, s, z))
}
