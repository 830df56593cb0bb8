// The parts of a book in order of place: each section, each non-empty makers' note between them, and the trailer.
ghost use Rattle.std.specs.Prelude.{◌+◌, ◌*◌, ◌≤◌, length};

use crate::trailer::Layout;

mod reader;

// A part of the book, lent, with the byte where it starts.
// Stays: all cases hold the same two fields, since the rules of this register name each kind of part with what it holds.
#[derive(Clone, Copy)]
pub enum Part<'a> {
    Roles { place: usize, bytes: &'a [u8] },
    Pairs { place: usize, bytes: &'a [u8] },
    Concepts { place: usize, bytes: &'a [u8] },
    Rules { place: usize, bytes: &'a [u8] },
    Note { place: usize, bytes: &'a [u8] },
    Trailer { place: usize, bytes: &'a [u8] },
}

// The part that comes next, once the note before it is given.
// Stays: a reader is plain data that can be copied, so what comes next is a value in it and no closure.
#[derive(Clone, Copy)]
enum Stage {
    AtRoles,
    AtPairs,
    AtConcepts,
    AtRules,
    AtTrailer,
    AtEnd,
}

// A reader that goes through the book: what comes before the byte `at` is given.
#[derive(Clone, Copy)]
pub struct Parts<'a> {
    bytes: &'a [u8],
    layout: Layout,
    stage: Stage,
    at: usize,
    ghost roles_end: { layout.roles.place + layout.roles.count ≤ layout.pairs.place },
    ghost pairs_end: { layout.pairs.place + 2 * layout.pairs.count ≤ layout.concepts.place },
    ghost concepts_end: { layout.concepts.place + 4 * layout.concepts.count ≤ layout.rules.place },
    ghost rules_end: { layout.rules.place + 2 * layout.rules.count + 16 ≤ length bytes.now },
}
