// The calls on a register that is open.
ghost use Rattle.std.specs.Prelude.{length};
ghost use Rattle.script.specs.Outcomes.{ComesTo};
ghost use Rattle.script.specs.Registers.{opened_at, world_of};
ghost use Rattle.script.specs.Sessions.{lent_call, Performs};

use crate::answer;
use crate::failure::Failure;
use crate::hex::WORDS;
use grammar::Action;
use lines::yes_or_no;
use register::Register;
use search::Node;
use std::alloc::Global;

// What the words of a sheet hold before a world is shown on it.
const FILLER: u64 = 0x5a5a_5a5a_5a5a_5a5a;

// The answer to a call on the register, which is lent these nodes. A world that is shown becomes the world.
pub fn perform(
    heap: Global,
    register: &mut Register,
    world: &mut Option<Vec<u64>>,
    action: Action,
    nodes: &mut [Node],
) -> Result<String, Failure>
    ensures { ComesTo result (λ o. Performs (opened_at register.old) (lent_call action (length nodes.old)) (world_of world.old) o (opened_at register.new) (world_of world.new)) }
{
    match action {
        Action::File(entry) => {
            let class = register.file(entry, nodes)?;
            Ok(format!(in heap; "class {class}\n")?)
        }
        Action::Ask(a, b) => {
            let within = register.ask(a, b, nodes)?;
            Ok(yes_or_no(heap, within)?)
        }
        Action::Show(a, b, count) => {
            let mut words = vec![in heap; FILLER; count.min(WORDS)]?;
            let shown = register.show(a, b, nodes, &mut words)?;
            let line = answer::shown(heap, shown, &words, register.role_count())?;
            *world = Some(words);
            Ok(line)
        }
    }
}
