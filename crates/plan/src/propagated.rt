// The propagated restrictions of a book under a hierarchy, by entry and then by role.
ghost use Rattle.std.specs.Prelude.{◌≡◌, ◌^◌, ◌<◌, length};
ghost use Rattle.book.specs.Sections.{says};
ghost use Rattle.book.specs.Views.{view};
ghost use Rattle.tableau.specs.Working.{propagates_by, propagated_list};
ghost use Rattle.plan.specs.Building.{box_of};
ghost use Rattle.plan.specs.Listing.{Lists, added};

use book::Book;
use meaning::{Concept, Hierarchy, Order};
use roles::rows::Rows;

// As many of them as are noted; the others are only counted.
const NOTED: usize = 64;

// The entry that a propagated restriction is of, and its role.
#[derive(Clone, Copy)]
pub struct Propagation {
    pub origin: u8,
    pub role: u8,
}

// How many there are, and the first 64 of them. The count goes on past 64, since the refusal of a width says it.
// Stays: the library takes no heap, so they are a fixed array with the count beside it.
#[derive(Clone, Copy)]
pub struct Propagations {
    pub count: usize,
    pub noted: [Propagation; 64],
}

impl Propagations {
    // All of them.
    // Stays: entries and roles go by number, and each pair that is found is pushed on the list, so that a chain over the pairs
    // would end in a loop all the same. A book goes with a hierarchy here and in `build`: `Draft` is what holds both.
    pub fn of(book: &Book, base: &Rows) -> Propagations
        ensures { Lists result (propagated_list (box_of base.now) (says (view book.now))) }
    {
        let blank = Propagation { origin: 0, role: 0 };
        let mut list = Propagations {
            count: 0,
            noted: [blank; 64],
        };
        'entries: for i in 0..book.entry_count() {
            let concept = book.concept(i);
            'roles: for p in 0..base.count() {
                if propagates(base, concept, p) {
                    list.add(i, p);
                }
            }
        }
        list
    }

    // One more at the end.
    fn add(&mut self, origin: usize, role: usize)
        requires few { self.old.count < 2 ^ 32 }
        requires long { length self.old.noted ≡ 64 }
        requires origin { origin < 256 }
        requires role { role < 256 }
        ensures { self.new ≡ added self.old origin role }
    {
        if self.count < NOTED {
            self.noted[self.count] = Propagation {
                origin: origin as u8,
                role: role as u8,
            };
        }
        self.count += 1;
    }
}

// Whether the concept is a restriction by a role that is not transitive, and p a transitive role below that.
fn propagates(base: &Rows, concept: Concept, p: usize) -> bool
    ensures { result ≡ propagates_by (box_of base.now) concept p }
{
    match concept {
        Concept::Restriction(_, s, _) => !base.transitive(s as usize)
            && base.transitive(p)
            && base.below(p, s as usize),
        _ => false,
    }
}
