// The search of a book's plan in lent nodes: the loop of the search with the plan's expansions and seeds, equal to the
// search as a value.
#![tactic(auto)]

ghost use Rattle.std.specs.Prelude.{◌≡◌, [], length, replicate};
ghost use Rattle.tableau.specs.Search.{explore};
ghost use Rattle.plan.specs.Meanings.{table_in, box_in};
ghost use Rattle.search.specs.Games.{told};
ghost use Rattle.search.specs.Nodes.{blank, Says};
ghost use Rattle.model.specs.Games.{game_in, game_bounded};

use plan::Plan;
use search::{NoRoom, Node, Strategy};
use tableau::Label;

// A plan as what a search asks.
#[derive(Clone, Copy)]
pub struct Planned<'p>(pub &'p Plan);

impl<'p> Strategy for Planned<'p> {
    ghost game = { λ x. game_in x.0.now };

    fn next_label(&self, seed: Label, c: u64) -> Option<(Label, u64)> {
        expand::next_label(self.0, seed, c)
    }

    fn next_seed(&self, label: Label, k: usize) -> Option<(Label, usize)> {
        successor::next_seed(self.0, label, k)
    }

    ghost few = { λ x. game_bounded x.0.now };
}

// Searches from the seed in the lent nodes. Where it stands, the labels of the first so many nodes are the standing list,
// none of them waits, and the other nodes are blank; where it fails, the answer is `None`. Where it fails, and where there is
// no room, every node is blank.
#[tactic(auto, using(crate::proofs::Same::find_same))]
pub fn find(plan: &Plan, nodes: &mut [Node], seed: Label) -> Result<Option<usize>, NoRoom>
    ensures { Says nodes.new result (explore (box_in plan.now) (table_in plan.now) (length nodes.old) (length nodes.old) [] seed) }
{
    search::run(&Planned(plan), nodes, seed)
}

// Whether a world comes of the seed; every node is blank after it.
#[tactic(auto, using(crate::proofs::Same::find_same))]
pub fn has_world(plan: &Plan, nodes: &mut [Node], seed: Label) -> Result<bool, NoRoom>
    ensures answer { result ≡ told (explore (box_in plan.now) (table_in plan.now) (length nodes.old) (length nodes.old) [] seed) }
    ensures wiped { nodes.new ≡ replicate (length nodes.old) blank }
{
    search::has_world(&Planned(plan), nodes, seed)
}

// The same as `find`, in nodes that are blank.
// Stays: a plan, the nodes and a seed are all that a search of a plan is given, as in `search`.
// Stays: `find` and `has_world` stand beside `find_in_blank` and `tried`, which ask for blank nodes and wipe no more than was
// written. With many lent nodes a wipe of all of them is the dearest part of a small search.
// Stays: that they are blank is a clause here and in `tried`, as in `search`: a struct that carries it needs as many clauses.
#[tactic(auto, using(crate::proofs::Same::find_same))]
pub fn find_in_blank(plan: &Plan, nodes: &mut [Node], seed: Label) -> Result<Option<usize>, NoRoom>
    requires { nodes.old ≡ replicate (length nodes.old) blank }
    ensures { Says nodes.new result (explore (box_in plan.now) (table_in plan.now) (length nodes.old) (length nodes.old) [] seed) }
{
    search::run_in_blank(&Planned(plan), nodes, seed)
}

// The same as `has_world`, in nodes that are blank: only what the search wrote is wiped.
#[tactic(auto, using(crate::proofs::Same::find_same))]
pub fn tried(plan: &Plan, nodes: &mut [Node], seed: Label) -> Result<bool, NoRoom>
    requires { nodes.old ≡ replicate (length nodes.old) blank }
    ensures answer { result ≡ told (explore (box_in plan.now) (table_in plan.now) (length nodes.old) (length nodes.old) [] seed) }
    ensures wiped { nodes.new ≡ replicate (length nodes.old) blank }
{
    search::tried(&Planned(plan), nodes, seed)
}
