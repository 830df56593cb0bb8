// The register: it gives the entries of a book class numbers, so that two entries have one number exactly when no finite
// world that keeps the book holds them apart; says whether one class is within another; and shows a world that holds two
// apart. It works in nodes and words that it is lent.
#![tactic(auto)]

ghost use Rattle.std.specs.Prelude.{◌≡◌, ℕ, ◌+◌, ◌<◌, ◌≤◌, length, slice_index};

use classes::Classes;
use plan::Plan;

mod ask;
mod classes;
mod facts;
mod file;
mod open;
mod searches;
mod show;

pub use show::{Shown, Side};

// What calls need of the book and the hierarchy, and the classes: class k + 1 stands by the entry `classes[k]`. Class 0 is
// nothing.
// Stays: entries are numbers, and have no type that knows that they are below 60. What is said of the classes would then be
// said of a list of entries through a map to their numbers. Two classes, or their entries, go with the nodes through `ask`, `show`
// and `file`: each call has others, and a struct of them would be made at each.
#[derive(Drop)]
pub struct Register {
    plan: Plan,
    entries: usize,
    classes: Classes,
    ghost wide: { entries + 2 ≤ plan.width },
    ghost universal: { 0 < plan.count },
    ghost few_entries: { entries ≤ 60 },
    ghost few: { length classes ≤ 24 },
    ghost named: { (k : ℕ) → k < length classes → slice_index classes k < entries },
}
