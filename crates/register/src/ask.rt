// Asking: is all of one class in another?
ghost use Rattle.std.specs.Prelude.{◌≡◌, [], length};
ghost use Rattle.runs.specs.Steps.{Call, said, step};
ghost use Rattle.register.specs.Registers.{setup_of, classes_of, reply_of, done};

use crate::Register;
use crate::searches::seed_not;
use denial::Denial;
use search::{Node, Workspace, wipe};

impl Register {
    // Whether every finite world that keeps the book puts all of class a into class b. Refused with 9 where a number was not
    // given yet, the first looked at first, and with 15 where the nodes do not suffice. Every node is blank after it.
    #[tactic(auto, unfolding(runs::specs::Setups::stand, runs::specs::Steps::asking))]
    pub fn ask(&self, a: usize, b: usize, nodes: &mut [Node]) -> Result<bool, Denial>
        ensures { done (reply_of said result) self.now nodes.new [] ≡ step (setup_of self.now) (classes_of self.now) (Call.ask a b (length nodes.old)) }
    {
        let workspace = Workspace(nodes);
        let first = self.stand(a)?;
        let second = self.stand(b)?;
        let Some(first) = first else {
            return Ok(true);
        };
        let Some(second) = second else {
            return Ok(false);
        };
        wipe(workspace.0);
        let found = self
            .tried(seed_not(first, second), workspace.0)
            .map_err(|_| Denial::Room(a))?;
        Ok(!found)
    }
}
