// Going through the parts of a book.
ghost use Rattle.std.specs.Prelude.{◌≡◌, ◌+◌, ◌≤◌, length};
ghost use Rattle.book.specs.Pieces.{parts_of, Tiles, left, first_span};
ghost use Rattle.book.specs.Coming.{coming_of, Yields};
ghost use Rattle.std.specs.Iterator.{at_most};

use crate::parts::{Part, Parts, Stage};
use crate::read::{part, sections};
use crate::trailer::{Layout, TRAILER};

impl<'a> Parts<'a> {
    // The parts of a book; none where reading refuses it. Laid end to end they are the book.
    pub fn new(bytes: &'a [u8]) -> Parts<'a>
        ensures parts { coming_of result ≡ parts_of bytes.now }
        ensures tiles { Tiles bytes.now (coming_of result) }
    {
        let Ok(lent) = sections(bytes) else {
            // Zeros in which an empty layout has its place, since every reader has one.
            return Parts {
                bytes: &[0; TRAILER],
                layout: Layout::default(),
                stage: Stage::AtEnd,
                at: 0,
            };
        };
        Parts {
            bytes,
            layout: lent.layout,
            stage: Stage::AtRoles,
            at: 0,
        }
    }

    // Where the next part that is no note starts, and how many bytes it has; 0 and 0 at the end.
    // Stays: the end has neither, as `first_span` says by 0, so that the arms of `next` need no case for it.
    fn target(&self) -> (usize, usize)
        ensures value { result ≡ first_span (left self.now.bytes.now self.now.layout self.now.stage) }
        ensures inside { result.0 + result.1 ≤ length self.now.bytes.now }
    {
        let Layout {
            roles,
            pairs,
            concepts,
            rules,
        } = self.layout;
        match self.stage {
            Stage::AtRoles => (roles.place, roles.count),
            Stage::AtPairs => (pairs.place, 2 * pairs.count),
            Stage::AtConcepts => (concepts.place, 4 * concepts.count),
            Stage::AtRules => (rules.place, 2 * rules.count),
            Stage::AtTrailer => (self.bytes.len() - TRAILER, TRAILER),
            Stage::AtEnd => (0, 0),
        }
    }
}

impl<'a> Iterator for Parts<'a> {
    type Item = Part<'a>;

    ghost next_gives = { λ s r t. Yields (coming_of s) r (coming_of t) };

    ghost remaining = { λ s. at_most (length (coming_of s)) };

    // The next part, if one is left.
    fn next(&mut self) -> Option<Part<'a>> {
        let at = self.at;
        let (place, size) = self.target();
        if at < place {
            self.at = place;
            return Some(Part::Note {
                place: at,
                bytes: part(self.bytes, at, place - at),
            });
        }
        let bytes = part(self.bytes, place, size);
        let (given, next) = match self.stage {
            Stage::AtRoles => (Part::Roles { place, bytes }, Stage::AtPairs),
            Stage::AtPairs => (Part::Pairs { place, bytes }, Stage::AtConcepts),
            Stage::AtConcepts => (Part::Concepts { place, bytes }, Stage::AtRules),
            Stage::AtRules => (Part::Rules { place, bytes }, Stage::AtTrailer),
            Stage::AtTrailer => (Part::Trailer { place, bytes }, Stage::AtEnd),
            Stage::AtEnd => return None,
        };
        self.stage = next;
        self.at = place + size;
        Some(given)
    }
}
