// The searches of a register, from the seeds of its questions.
ghost use Rattle.std.specs.Prelude.{◌≡◌, ◌<◌, ◌≤◌, length, replicate};
ghost use Rattle.tableau.specs.Working.{seed_of_not, seed_of_one};
ghost use Rattle.search.specs.Games.{told};
ghost use Rattle.search.specs.Nodes.{blank};
ghost use Rattle.plan.specs.Meanings.{table_in};
ghost use Rattle.runs.specs.Setups.{root_in, search_in};
ghost use Rattle.register.specs.Registers.{setup_of};

use crate::Register;
use plan::Plan;
use search::{NoRoom, Node};
use tableau::Label;

// The seed of "a": + a.
#[tactic(auto, unfolding(tableau::specs::Labels::empty))]
pub(crate) fn seed_one(a: usize) -> Label
    requires { a < 64 }
    ensures { result ≡ seed_of_one a }
{
    Label::EMPTY.with(true, a)
}

// The seed of "a not b": + a, and - b.
pub(crate) fn seed_not(a: usize, b: usize) -> Label
    requires a { a < 64 }
    requires b { b < 64 }
    ensures { result ≡ seed_of_not a b }
{
    seed_one(a).with(false, b)
}

// The seed with + book and + everywhere, which are the last two working entries.
pub(crate) fn rooted(plan: &Plan, seed: Label) -> Label
    requires { 2 ≤ plan.now.width }
    ensures { result ≡ root_in (table_in plan.now) seed }
{
    seed.with(true, plan.width - 2).with(true, plan.width - 1)
}

impl Register {
    // Whether a world that keeps the book has an individual that satisfies the seed.
    // Stays: nodes that are all blank have no type of their own. With one, this `requires` would go from each function that
    // takes them, and each would have to ensure instead that there are as many of them as before.
    pub(crate) fn tried(&self, seed: Label, nodes: &mut [Node]) -> Result<bool, NoRoom>
        requires { nodes.old ≡ replicate (length nodes.old) blank }
        ensures answer { result ≡ told (search_in (setup_of self.now) seed (length nodes.old)) }
        ensures wiped { nodes.new ≡ replicate (length nodes.old) blank }
    {
        model::tried(&self.plan, nodes, rooted(&self.plan, seed))
    }
}
