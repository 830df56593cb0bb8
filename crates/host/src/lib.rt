// The call for hosts that are not written in Rattle: a book as bytes and two of its entries, answered by one number. The
// static library `host_c` exports it for C.
#![tactic(auto)]

ghost use Rattle.std.specs.Prelude.{◌≡◌, length, replicate};
ghost use Rattle.denial.specs.Denials.{granted};
ghost use Rattle.book.specs.Sections.{Sections, says};
ghost use Rattle.book.specs.Reading.{reading};
ghost use Rattle.roles.specs.Hierarchies.{roles_of};
ghost use Rattle.search.specs.Nodes.{blank};
ghost use Rattle.host.specs.Relations.{relation_in, relation_of};
ghost use Rattle.host.specs.Meanings.{NumberMeans};

use crate::calls::relation;
use search::Node;

mod calls;
pub mod relation;

pub use relation::Relation;

// A refusal is answered by its number and so much.
// Stays: a C host gets one number for a relation or a refusal, and no Result.
const REFUSED: u32 = 100;

// How many nodes the searches of a host's call have.
pub const NODES: usize = 200;

// How the two entries of the book stand to each other in all finite worlds that keep it: 0 where no such world holds them
// apart; 1 where the first is strictly below the second, 2 where it is the other way round, 3 where neither is below the
// other; and 100 and the number of the first refusal. The order of work is: reading the book, opening a register under its
// own hierarchy, filing the first entry, filing the second, asking whether the first class is within the second, and
// asking the reverse. The searches have the lent nodes, which may hold anything, and each of which is blank after it.
// Stays: the two entries are the two numbers of the C interface.
pub fn register_relation_in(book: &[u8], first: usize, second: usize, nodes: &mut [Node]) -> u32
    ensures value { result ≡ relation_in (length nodes.old) book.now first second }
    ensures meaning { (s : Sections) → reading book.now ≡ granted s → NumberMeans (roles_of s) (says s) first second result }
    ensures wiped { nodes.new ≡ replicate (length nodes.old) blank }
{
    match relation(book, first, second, nodes) {
        Ok(found) => found.number(),
        Err(denial) => REFUSED + u32::from(denial.report().number),
    }
}

// The same in 200 nodes of its own.
pub fn register_relation(book: &[u8], first: usize, second: usize) -> u32
    ensures value { result ≡ relation_of book.now first second }
    ensures meaning { (s : Sections) → reading book.now ≡ granted s → NumberMeans (roles_of s) (says s) first second result }
{
    let mut nodes = [Node::BLANK; NODES];
    register_relation_in(book, first, second, &mut nodes)
}
