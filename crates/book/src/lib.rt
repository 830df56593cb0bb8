// A book: bytes in four sections (roles, pairs, concepts, rules) with a trailer at the end.
#![tactic(auto)]

ghost use Rattle.std.specs.Prelude.{◌≡◌, ◌*◌, ◌<◌, ◌≤◌, true, length, take};
ghost use Rattle.book.specs.Limits.{most_roles, most_pairs, most_entries, most_rules};
ghost use Rattle.book.specs.Layouts.{Whole};
ghost use Rattle.book.specs.Records.{faultless};

use crate::trailer::Layout;

mod kind;
pub mod parts;
pub mod read;
mod records;
mod trailer;

// The two records of a role: reading lets no other byte pass.
pub const PLAIN: u8 = 0;

pub const TRANSITIVE: u8 = 1;

// The most records that each section may have.
const ROLES: usize = 64;

const PAIRS: usize = 256;

const ENTRIES: usize = 60;

const RULES: usize = 32;

// How many records each section has.
#[derive(Clone, Copy)]
struct Counts {
    roles: usize,
    pairs: usize,
    entries: usize,
    rules: usize,
}

// A book that was read: a copy of its four sections, every record of them found good.
// Stays: arrays with counts beside them, since no heap is taken and a book outlives the bytes that it was read from.
#[derive(Clone, Copy)]
pub struct Book {
    counts: Counts,
    roles: [u8; ROLES],
    pairs: [u8; 2 * PAIRS],
    concepts: [u8; 4 * ENTRIES],
    rules: [u8; 2 * RULES],
    ghost roles_long: { length roles ≡ most_roles },
    ghost pairs_long: { length pairs ≡ 2 * most_pairs },
    ghost concepts_long: { length concepts ≡ 4 * most_entries },
    ghost rules_long: { length rules ≡ 2 * most_rules },
    ghost few_roles: { counts.roles ≤ most_roles },
    ghost few_pairs: { counts.pairs ≤ most_pairs },
    ghost some_entries: { 0 < counts.entries },
    ghost few_entries: { counts.entries ≤ most_entries },
    ghost few_rules: { counts.rules ≤ most_rules },
    ghost good: { faultless (take counts.roles roles) (take (2 * counts.pairs) pairs) (take (4 * counts.entries) concepts) (take (2 * counts.rules) rules) ≡ true },
}

// The four sections of a book, lent, with the layout that says where they are. It is not beside its methods in `read`,
// since a struct with a fact needs all that its file cites, and what `read` cites speaks of this struct.
#[derive(Clone, Copy)]
struct Lent<'a> {
    layout: Layout,
    roles: &'a [u8],
    pairs: &'a [u8],
    concepts: &'a [u8],
    rules: &'a [u8],
    ghost whole: { Whole layout (length roles.now) (length pairs.now) (length concepts.now) (length rules.now) },
}
