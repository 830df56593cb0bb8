// The trailer: the last 16 bytes, which say where each section is.
ghost use Rattle.std.specs.Prelude.{◌≡◌, ◌+◌, ◌<◌, ◌≤◌, ◌||◌, length, nat_lt, IfSome, IfOk};
ghost use Rattle.denial.specs.Denials.{answer, trailer_report};
ghost use Rattle.meaning.specs.Bounded.{first};
ghost use Rattle.book.specs.Layouts.{number16, section_from, end_of, bad_count, bad_place, laying, Laid};

use crate::{ENTRIES, PAIRS, ROLES, RULES};
use denial::TrailerDenial;

// A section: the byte where it starts, and how many records it has.
#[derive(Clone, Copy, Default)]
pub(crate) struct Section {
    pub(crate) place: usize,
    pub(crate) count: usize,
}

#[derive(Clone, Copy, Default)]
pub(crate) struct Layout {
    pub(crate) roles: Section,
    pub(crate) pairs: Section,
    pub(crate) concepts: Section,
    pub(crate) rules: Section,
}

pub(crate) const TRAILER: usize = 16;

const LONGEST: usize = 8192;

// What a section may be: the least and the most records, and the bytes of one.
#[derive(Clone, Copy)]
struct Limits {
    least: usize,
    most: usize,
    width: usize,
}

impl Limits {
    // Whether a section may not have so many records.
    fn exclude(&self, count: usize) -> bool
        ensures { result ≡ (nat_lt count self.now.least || nat_lt self.now.most count) }
    {
        !(self.least..=self.most).contains(&count)
    }
}

// The limits of the four sections: roles, pairs, concepts, rules.
const LIMITS: [Limits; 4] = [
    Limits {
        least: 0,
        most: ROLES,
        width: 1,
    },
    Limits {
        least: 0,
        most: PAIRS,
        width: 2,
    },
    Limits {
        least: 1,
        most: ENTRIES,
        width: 4,
    },
    Limits {
        least: 0,
        most: RULES,
        width: 2,
    },
];

// The layout of a book, or the first fault in its length, its counts or its places.
pub(crate) fn read_layout(bytes: &[u8]) -> Result<Layout, TrailerDenial>
    ensures value { answer (λ l. l) trailer_report result ≡ laying bytes.now }
    ensures laid { IfOk result (λ l. Laid (length bytes.now) l) }
{
    let len = bytes.len();
    if !(TRAILER..=LONGEST).contains(&len) {
        return Err(TrailerDenial::Length(len));
    }
    let start = len - TRAILER;
    let trailer = Trailer { bytes, start };
    if let Some(j) = trailer.first_bad_count() {
        return Err(TrailerDenial::Count(start + 4 * j + 2));
    }
    if let Some(j) = trailer.first_bad_place() {
        return Err(TrailerDenial::Place(start + 4 * j));
    }
    Ok(Layout {
        roles: trailer.section(0),
        pairs: trailer.section(1),
        concepts: trailer.section(2),
        rules: trailer.section(3),
    })
}

// The bytes of a book that has a trailer, and where the trailer starts. Its methods take a section by its number.
// Stays: a section is a number below 4 here, since a refusal of a count or a place tells where the j-th field is.
#[derive(Clone, Copy)]
struct Trailer<'a> {
    bytes: &'a [u8],
    start: usize,
    ghost ends: { start + 16 ≡ length bytes.now },
}

impl<'a> Trailer<'a> {
    fn first_bad_count(&self) -> Option<usize>
        ensures value { result ≡ first 4 (bad_count self.now.bytes.now) }
        ensures inside { IfSome result (λ j. j < 4) }
    {
        (0..4).find(|j| LIMITS[*j].exclude(self.section(*j).count))
    }

    // The first section that starts before the one before it ends, or, as the last one, runs into the trailer.
    fn first_bad_place(&self) -> Option<usize>
        ensures value { result ≡ first 4 (bad_place self.now.bytes.now) }
        ensures inside { IfSome result (λ j. j < 4) }
    {
        (0..4).find(|j| {
            *j > 0 && self.section(*j).place < self.end(*j - 1)
                || *j == 3 && self.start < self.end(*j)
        })
    }

    // Where a section ends.
    fn end(&self, j: usize) -> usize
        requires { j < 4 }
        ensures { result ≡ end_of self.now.bytes.now j }
    {
        let Section { place, count } = self.section(j);
        place + LIMITS[j].width * count
    }

    fn section(&self, j: usize) -> Section
        requires { j < 4 }
        ensures value { result ≡ section_from self.now.bytes.now j }
        ensures place { result.place < 65536 }
        ensures count { result.count < 65536 }
    {
        let at = self.start + 4 * j;
        Section {
            place: self.number(at),
            count: self.number(at + 2),
        }
    }

    // The 16-bit number at a byte, the low byte first.
    fn number(&self, at: usize) -> usize
        requires { at + 1 < length self.now.bytes.now }
        ensures value { result ≡ number16 self.now.bytes.now at }
        ensures small { result < 65536 }
    {
        u16::from_le_bytes([self.bytes[at], self.bytes[at + 1]]) as usize
    }
}
