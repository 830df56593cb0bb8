// What the roles join: the edges below a role, and the chains of edges below a transitive role that is below it.
ghost use Rattle.std.specs.Prelude.{◌≡◌, ℕ, ◌+◌, ◌*◌, ◌<◌, ◌≤◌, Bool, length, if◌then◌else◌, ◌==◌, bit_or, slice_index};
ghost use Rattle.words.specs.Sets.{has, set_of};
ghost use Rattle.found.specs.Founds.{added_in, joined_to};
ghost use Rattle.found.specs.Rows.{RowsOf, chains_of, share_of};

use crate::closure;
use crate::edges::Edges;
use plan::Plan;
use search::Node;

// The rows of one role, one for each individual.
pub const ROWS: usize = 64;

// The rows of all roles: row x of the role r is at 64 * r + x.
// Stays: one array, since contracts read the rows as one list (`kept_world`), and no heap is taken.
const TABLE: usize = 4096;

// The set, or none.
fn only(test: bool, set: u64) -> u64
    ensures { result ≡ (if test then set else 0) }
{
    if test { set } else { 0 }
}

impl<'a> Edges<'a> {
    // What a row of the role t gets from the role of the edges: its own row, if t is that role, and the row of its
    // chains, if it is below t.
    fn share(&self, t: usize, own: u64, chain: u64) -> u64
        requires { t < 64 }
        ensures { result ≡ share_of (t == self.now.role) (has (slice_index self.now.plan.now.rows self.now.role) t) own chain }
    {
        words::union(
            only(t == self.role, own),
            only(words::member(self.plan.rows[self.role], t), chain),
        )
    }

    // Joins to each row of the table what it gets. The place of a row is taken apart into its role and its individual.
    // Stays: two arrays of rows, since the chains are worked out of a whole array of rows, in place.
    fn spread(&self, own: &[u64; 64], chains: &[u64; 64], table: &mut [u64; 4096])
        ensures { (t x : ℕ) → t < 64 → x < 64 → slice_index table.new (64 * t + x) ≡ bit_or (slice_index table.old (64 * t + x)) (share_of (t == self.now.role) (has (slice_index self.now.plan.now.rows self.now.role) t) (slice_index own.now x) (slice_index chains.now x)) }
    {
        for (k, row) in table.iter_mut().enumerate() {
            *row = words::union(*row, self.share(k / ROWS, own[k % ROWS], chains[k % ROWS]));
        }
    }

    // The chains of the edges, if their role is transitive.
    fn chains(&self, edges: [u64; 64]) -> [u64; 64]
        ensures { (R : ℕ → ℕ → Bool) → RowsOf (length self.now.nodes.now) R edges → RowsOf (length self.now.nodes.now) (chains_of (has self.now.plan.now.marks self.now.role) (length self.now.nodes.now) R) result }
    {
        if !words::member(self.plan.marks, self.role) {
            return [0; 64];
        }
        let mut rows = edges;
        closure::close(&mut rows[..self.nodes.len()]);
        rows
    }

    // Adds to the table what the edges add, each worked out once.
    fn add(&self, table: &mut [u64; 4096])
        ensures { (t x : ℕ) → t < 64 → x < length self.now.nodes.now → slice_index table.new (64 * t + x) ≡ bit_or (slice_index table.old (64 * t + x)) (set_of (length self.now.nodes.now) (added_in self.now.plan.now self.now.nodes.now self.now.role t x)) }
    {
        let own = self.rows();
        let far = self.chains(own);
        self.spread(&own, &far, table);
    }
}

// What each role joins each individual to.
pub fn table(plan: &Plan, nodes: &[Node]) -> [u64; 4096]
    requires { length nodes.now ≤ 64 }
    ensures { (t x : ℕ) → t < 64 → x < length nodes.now → slice_index result (64 * t + x) ≡ set_of (length nodes.now) (joined_to plan.now nodes.now plan.now.count t x) }
{
    let mut table = [0; TABLE];
    for role in 0..plan.count {
        let edges = Edges { plan, nodes, role };
        edges.add(&mut table);
    }
    table
}
