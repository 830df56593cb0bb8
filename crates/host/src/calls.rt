// The calls of a register that lead to the relation of two entries.
ghost use Rattle.std.specs.Prelude.{◌≡◌, length, replicate, IfOk};
ghost use Rattle.denial.specs.Denials.{answer, granted, denial_report};
ghost use Rattle.book.specs.Sections.{Sections, says};
ghost use Rattle.book.specs.Reading.{reading};
ghost use Rattle.roles.specs.Hierarchies.{roles_of};
ghost use Rattle.search.specs.Nodes.{blank};
ghost use Rattle.register.specs.Registers.{setup_of, classes_of};
ghost use Rattle.host.specs.Relations.{compared_by, filed_by, relating};
ghost use Rattle.host.specs.Meanings.{Means};

use crate::Relation;
use book::read::read;
use denial::Denial;
use register::Register;
use search::{Node, Workspace};

// The relation of two entries of the book in the bytes, or the first refusal; and what the relation means. The searches have
// the lent nodes, and each of these is blank after it.
// Stays: the two entries are the two numbers of the C interface.
#[tactic(auto, unfolding(crate::specs::Relations::relating))]
pub(crate) fn relation(
    bytes: &[u8],
    first: usize,
    second: usize,
    nodes: &mut [Node],
) -> Result<Relation, Denial>
    ensures value { answer (λ x. x) denial_report result ≡ relating (length nodes.old) bytes.now first second }
    ensures meaning { IfOk result (λ x. (s : Sections) → reading bytes.now ≡ granted s → Means (roles_of s) (says s) first second x) }
    ensures wiped { nodes.new ≡ replicate (length nodes.old) blank }
{
    let workspace = Workspace(nodes);
    let book = read(bytes)?;
    let mut register = Register::open_own(&book)?;
    filed(&mut register, first, second, workspace.0)
}

// Files the two entries, the first one first, and compares their classes.
#[tactic(auto, unfolding(crate::specs::Relations::filed_by))]
fn filed(
    register: &mut Register,
    first: usize,
    second: usize,
    nodes: &mut [Node],
) -> Result<Relation, Denial>
    ensures { answer (λ x. x) denial_report result ≡ filed_by (setup_of register.old) (classes_of register.old) (length nodes.old) first second }
{
    let a = register.file(first, nodes)?;
    let b = register.file(second, nodes)?;
    compared(register, a, b, nodes)
}

// Asks whether all of class a is in class b, and then the reverse.
#[tactic(auto, unfolding(crate::specs::Relations::compared_by))]
fn compared(register: &Register, a: usize, b: usize, nodes: &mut [Node]) -> Result<Relation, Denial>
    ensures { answer (λ x. x) denial_report result ≡ compared_by (setup_of register.now) (classes_of register.now) (length nodes.old) a b }
{
    let within = register.ask(a, b, nodes)?;
    let around = register.ask(b, a, nodes)?;
    Ok(Relation::by_answers(within, around))
}
