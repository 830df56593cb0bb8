// The world that a search has found, over the nodes that it leaves.
#![tactic(auto)]

ghost use Rattle.std.specs.Prelude.{◌≡◌, ◌<◌, ◌≤◌, IfOk, length};
ghost use Rattle.denial.specs.Denials.{answer, denial_report};
ghost use Rattle.meaning.specs.Agreement.{Agree};
ghost use Rattle.plan.specs.Meanings.{plan_roles};
ghost use Rattle.search.specs.Nodes.{labels};
ghost use Rattle.found.specs.Founds.{found_in, finding, kept_world, kept_sized};

use crate::joins::ROWS;
use crate::names::NAMES;
use denial::Denial;
use meaning::World;
use plan::Plan;
use search::Node;

mod closure;
mod edges;
mod joins;
mod names;

// The most individuals, one for each bit of a word.
const MOST: usize = 64;

// The individuals are the nodes. `names` has for each name the set of the entries that are it, and `rows` at 64 * r + x the
// set of the individuals to which the role r joins x.
// Stays: the library takes no heap, so the rows are in arrays of the size that they can have at most, those of all roles in one, as
// contracts read them (`kept_world`).
#[derive(Clone, Copy)]
pub struct Found<'a> {
    nodes: &'a [Node],
    roles: u8,
    names: [u64; 64],
    rows: [u64; 4096],
    ghost some: { 0 < length nodes.now },
    ghost few: { length nodes.now ≤ 64 },
    ghost inside: { roles < 64 },
}

impl<'a> Found<'a> {
    // The found world of the labels of the nodes, for the roles of the book. Refused where there are not 1 to 64 nodes, with
    // their number.
    pub fn new(plan: &Plan, nodes: &'a [Node]) -> Result<Found<'a>, Denial>
        ensures value { answer (λ f. f.nodes.now) denial_report result ≡ finding nodes.now }
        ensures roles { IfOk result (λ f. f.roles ≡ plan_roles plan.now) }
        ensures world { IfOk result (λ f. Agree (plan_roles plan.now) (kept_world f.nodes.now f.roles f.names f.rows) (found_in plan.now (labels nodes.now))) }
    {
        if nodes.is_empty() || nodes.len() > MOST {
            return Err(Denial::Individuals(nodes.len()));
        }
        Ok(Found {
            nodes,
            roles: roles(plan),
            names: names::names(plan),
            rows: joins::table(plan, nodes),
        })
    }
}

// The roles of the book: all of the plan's but the last.
fn roles(plan: &Plan) -> u8
    ensures { result ≡ plan_roles plan.now }
{
    plan.count.saturating_sub(1) as u8
}

impl<'a> World for Found<'a> {
    ghost interpretation = { λ x. kept_world x.nodes.now x.roles x.names x.rows };

    ghost sized = { λ x. kept_sized x.nodes.now x.roles x.names x.rows };

    fn individuals(&self) -> usize {
        self.nodes.len()
    }

    fn bears(&self, x: usize, n: usize) -> bool {
        x < self.individuals()
            && n < NAMES
            && !words::disjoint(self.nodes[x].label.plus, self.names[n])
    }

    fn joins(&self, r: usize, x: usize, y: usize) -> bool {
        let m = self.individuals();
        r < self.roles as usize && x < m && y < m && words::member(self.rows[ROWS * r + x], y)
    }
}
