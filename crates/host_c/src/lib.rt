// The call of the library `host`, exported for C.
// Stays: the C interface is this one function, of this name, in a static library of its own.
#![tactic(auto)]

ghost use Rattle.std.specs.Prelude.{◌≡◌};
ghost use Rattle.denial.specs.Denials.{granted};
ghost use Rattle.book.specs.Sections.{Sections, says};
ghost use Rattle.book.specs.Reading.{reading};
ghost use Rattle.roles.specs.Hierarchies.{roles_of};
ghost use Rattle.host.specs.Relations.{relation_of};
ghost use Rattle.host.specs.Meanings.{NumberMeans};

use host::{NODES, register_relation_in};
use search::Node;

// How the two entries of the book stand to each other in all finite worlds that keep it: 0 where no such world holds them
// apart; 1 where the first is strictly below the second, 2 where it is the other way round, 3 where neither is below the
// other; and 100 and the number of the first refusal. The nodes of its searches are an array of this function, on the stack.
#[unsafe(no_mangle)]
pub extern "C" fn register_relation(book: &[u8], first: usize, second: usize) -> u32
    ensures value { result ≡ relation_of book.now first second }
    ensures meaning { (s : Sections) → reading book.now ≡ granted s → NumberMeans (roles_of s) (says s) first second result }
{
    let mut nodes = [Node::BLANK; NODES];
    register_relation_in(book, first, second, &mut nodes)
}
