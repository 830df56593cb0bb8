// The edges of the found world: each obligation of a node leads to the lowest node whose label contains the seed.
ghost use Rattle.std.specs.Prelude.{◌≡◌, ◌<◌, ◌≤◌, length};
ghost use Rattle.words.specs.Sets.{set_of};
ghost use Rattle.search.specs.Nodes.{labels};
ghost use Rattle.found.specs.Founds.{is_lowest, leads_in, targets_in, edge_in};
ghost use Rattle.found.specs.Rows.{RowsOf};

use plan::Plan;
use search::Node;
use tableau::Label;

// The edges of the nodes that a search leaves, below one role of the plan.
#[derive(Clone, Copy)]
pub struct Edges<'a> {
    pub plan: &'a Plan,
    pub nodes: &'a [Node],
    pub role: usize,
    ghost few: { length nodes.now ≤ 64 },
    ghost low: { role < 64 },
}

impl<'a> Edges<'a> {
    // The lowest node whose label contains the seed, as a set: empty where there is none.
    fn holder(&self, seed: Label) -> u64
        ensures { result ≡ set_of (length self.now.nodes.now) (is_lowest (labels self.now.nodes.now) seed) }
    {
        match search::lowest(self.nodes, seed) {
            Some(y) => words::single(y),
            None => 0,
        }
    }

    // Where entry i leads a node with the label, as a set.
    fn led(&self, label: Label, i: usize) -> u64
        requires { i < self.now.plan.now.width }
        ensures { result ≡ set_of (length self.now.nodes.now) (leads_in self.now.plan.now (labels self.now.nodes.now) label i self.now.role) }
    {
        match successor::obligation_at(self.plan, label, i) {
            Some(d) if words::member(self.plan.rows[d.role as usize], self.role) => {
                self.holder(successor::seed(
                    self.plan,
                    label,
                    d.role as usize,
                    d.sign,
                    d.part as usize,
                ))
            }
            _ => 0,
        }
    }

    // The individuals to which a node with the label has an edge.
    fn targets(&self, label: Label) -> u64
        ensures { result ≡ set_of (length self.now.nodes.now) (targets_in self.now.plan.now (labels self.now.nodes.now) label self.now.role) }
    {
        let mut set = 0;
        for i in 0..self.plan.width {
            set = words::union(set, self.led(label, i));
        }
        set
    }

    // The individuals to which x has an edge, none where x is no individual.
    fn row(&self, x: usize) -> u64
        ensures { x < length self.now.nodes.now → result ≡ set_of (length self.now.nodes.now) (edge_in self.now.plan.now (labels self.now.nodes.now) self.now.role x) }
    {
        let Some(node) = self.nodes.get(x) else {
            return 0;
        };
        self.targets(node.label)
    }

    // The same for each individual.
    pub fn rows(&self) -> [u64; 64]
        ensures { RowsOf (length self.now.nodes.now) (edge_in self.now.plan.now (labels self.now.nodes.now) self.now.role) result }
    {
        words::tabulate(|x| self.row(x))
    }
}
