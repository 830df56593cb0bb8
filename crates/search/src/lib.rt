// The search for a world, in nodes that the caller lends: one loop, and no recursion.
#![tactic(auto)]

ghost use Rattle.std.specs.Prelude.{◌≡◌, ℕ, ◌<◌, ◌≤◌, [], length, replicate, Some, codes};
ghost use Rattle.search.specs.Games.{Game, Bounded, Leads, explore_by, told};
ghost use Rattle.search.specs.Nodes.{blank, labels, LowestIn, NewestIn, BlankFrom, Says};
ghost use Rattle.search.specs.Loop.{Go, Fail, Fit, Lacks, Retreats};

use std::error::Error;
use std::fmt;
use tableau::Label;

// What a search asks: the expansions of a seed, one after another by choice words, and the seeds of the successors that
// a label is obliged to, one after another by entries. Its meaning is the game; `few` is what makes a search end.
pub trait Strategy {
    ghost game: { Self → Game };

    // The next expansion of the seed at choice word c or after it, with the word to go on from.
    fn next_label(&self, seed: Label, c: u64) -> Option<(Label, u64)>
        ensures { Leads ((game self.now).labels_from seed) c result };

    // The seed of the next obligation of the label at entry k or after it, with the entry to go on from.
    fn next_seed(&self, label: Label, k: usize) -> Option<(Label, usize)>
        ensures { Leads ((game self.now).seeds_from label) k result };

    ghost few: { (x : Self) → Bounded (game x) };
}

// Where a node goes on that waits for what comes of its obligations: its next expansion is tried from the choice word on,
// and its next obligation is sought from the entry on.
#[derive(Clone, Copy)]
pub struct Waiting {
    pub choice: u64,
    pub next: usize,
}

// A node with its seed and its label; `waiting` is `None` once its obligations are met. The newest node that waits is the
// current one.
#[derive(Clone, Copy)]
pub struct Node {
    pub seed: Label,
    pub label: Label,
    pub waiting: Option<Waiting>,
}

impl Node {
    pub const BLANK: Node = Node {
        seed: Label::EMPTY,
        label: Label::EMPTY,
        waiting: None,
    };
}

// The lent nodes do not suffice, so that nothing is known.
#[derive(Clone, Copy, PartialEq, Eq, Debug)]
pub struct NoRoom;

impl fmt::Display for NoRoom {
    ghost output = { λ _. Some (codes "the lent nodes do not suffice") };

    fn fmt<W: fmt::Write>(&self, f: &mut fmt::Formatter<W>) -> fmt::Result {
        write!(f, "the lent nodes do not suffice")
    }
}

impl Error for NoRoom {}

// Makes every node blank.
pub fn wipe(nodes: &mut [Node])
    ensures { nodes.new ≡ replicate (length nodes.old) blank }
{
    nodes.fill(Node::BLANK);
}

// Makes every node blank, where those from k on are blank already: only the first k are written.
#[tactic(auto, using(crate::proofs::Steps::blank_front))]
fn wipe_first(nodes: &mut [Node], k: usize)
    requires within { k ≤ length nodes.old }
    requires blank { BlankFrom k nodes.old }
    ensures { nodes.new ≡ replicate (length nodes.old) blank }
{
    wipe(&mut nodes[..k]);
}

// The first of the nodes whose label contains the seed.
pub fn lowest(nodes: &[Node], seed: Label) -> Option<usize>
    ensures { LowestIn (labels nodes.now) seed result }
{
    nodes.iter().position(|x| x.label.contains(seed))
}

// The newest of the nodes that waits, and where it goes on.
fn newest(nodes: &[Node]) -> Option<(usize, Waiting)>
    ensures { NewestIn nodes.now result }
{
    // The node at that place waits, so that the second `?` never leaves.
    let p = nodes.iter().rposition(|x| x.waiting.is_some())?;
    Some((p, nodes[p].waiting?))
}

// Goes on with the obligations of the newest waiting node until one wants a further node: the seed of that node, or `None`
// where no node of the first m waits any more. A standing label that contains the seed of an obligation is reused. Where a
// further node is wanted and all are in use, every node is wiped.
// Stays: the nodes in use are the first m of those lent, here and in `retreat`. A struct of both would have to say in each clause
// that it holds the same slice.
fn lacking<S: Strategy>(strategy: &S, nodes: &mut [Node], m: usize) -> Result<Option<Label>, NoRoom>
    requires { Fit nodes.old m Go }
    ensures { Lacks (S.Strategy.game strategy.now) nodes.old m nodes.new result }
{
    while let Some((p, Waiting { choice, next })) = newest(&nodes[..m]) {
        match strategy.next_seed(nodes[p].label, next) {
            None => nodes[p].waiting = None,
            Some((seed, after)) => {
                nodes[p].waiting = Some(Waiting {
                    choice,
                    next: after,
                });
                if lowest(&nodes[..m], seed).is_none() {
                    if m == nodes.len() {
                        wipe(nodes);
                        return Err(NoRoom);
                    }
                    return Ok(Some(seed));
                }
            }
        }
    }
    Ok(None)
}

// Gives up the label of the newest waiting node: its place, its seed, and the choice word to go on from. The tail of the slice
// from it on is handed on to be wiped before its next choice is tried; where no node of the first m waits, the whole slice is.
// Of either only what stands before m is written: from m on the nodes are blank.
#[tactic(auto, using(crate::proofs::Steps::blank_behind))]
fn retreat(nodes: &mut [Node], m: usize) -> Option<(usize, Label, u64)>
    requires { Fit nodes.old m Fail }
    ensures { (G : Game) → Bounded G → Retreats G nodes.old m nodes.new result }
{
    let Some((p, Waiting { choice, .. })) = newest(&nodes[..m]) else {
        wipe_first(nodes, m);
        return None;
    };
    let seed = nodes[p].seed;
    wipe_first(&mut nodes[p..], m - p);
    Some((p, seed, choice))
}

// Searches from the seed in the lent nodes, as many as there are; what they held before does not matter. Where it stands,
// the first so many nodes are the individuals of a world, and the others are blank; `None` where it fails. Where it fails, and
// where there is no room, every node is blank.
// Stays: a strategy, the nodes and a seed are all that a search is given, and no two of them belong together.
pub fn run<S: Strategy>(
    strategy: &S,
    nodes: &mut [Node],
    seed: Label,
) -> Result<Option<usize>, NoRoom>
    ensures { Says nodes.new result (explore_by (S.Strategy.game strategy.now) (length nodes.old) (length nodes.old) [] seed) }
{
    wipe(nodes);
    run_in_blank(strategy, nodes, seed)
}

// The same in nodes that are blank.
// Stays: a call of its own beside `run`, since a caller of many searches wipes only what each of them wrote.
// Stays: that the nodes are blank is a clause here and in `tried`. A struct round the slice can carry it as a ghost field, but
// each method that takes the struct has to say instead that it holds the same reference, and as many nodes, as before.
pub fn run_in_blank<S: Strategy>(
    strategy: &S,
    nodes: &mut [Node],
    seed: Label,
) -> Result<Option<usize>, NoRoom>
    requires { nodes.old ≡ replicate (length nodes.old) blank }
    ensures { Says nodes.new result (explore_by (S.Strategy.game strategy.now) (length nodes.old) (length nodes.old) [] seed) }
{
    if nodes.is_empty() {
        return Err(NoRoom);
    }
    let mut m = 0;
    let mut seed = seed;
    let mut c = 0;
    'turn: loop {
        match strategy.next_label(seed, c) {
            Some((label, choice)) => {
                nodes[m] = Node {
                    seed,
                    label,
                    waiting: Some(Waiting { choice, next: 0 }),
                };
                m += 1;
                match lacking(strategy, nodes, m)? {
                    Some(wanted) => {
                        seed = wanted;
                        c = 0;
                    }
                    None => return Ok(Some(m)),
                }
            }
            None => match retreat(nodes, m) {
                Some(back) => (m, seed, c) = back,
                None => return Ok(None),
            },
        }
    }
}

// The lent nodes of one search, and nothing else: they are wiped when it goes.
pub struct Workspace<'a>(pub &'a mut [Node]);

impl Drop for Workspace<'_> {
    fn drop(self)
        ensures { self.exit.0.now ≡ replicate (length self.entry.0.now) blank }
    {
        wipe(self.0);
        let Workspace(_) = self;
    }
}

// Whether a world comes of the seed, in nodes that are blank and are so again after it. Only what the search wrote is wiped.
#[tactic(auto, using(crate::proofs::Steps::all_blank))]
pub fn tried<S: Strategy>(strategy: &S, nodes: &mut [Node], seed: Label) -> Result<bool, NoRoom>
    requires { nodes.old ≡ replicate (length nodes.old) blank }
    ensures answer { result ≡ told (explore_by (S.Strategy.game strategy.now) (length nodes.old) (length nodes.old) [] seed) }
    ensures wiped { nodes.new ≡ replicate (length nodes.old) blank }
{
    match run_in_blank(strategy, nodes, seed) {
        Ok(None) => Ok(false),
        Ok(Some(m)) => {
            wipe_first(nodes, m);
            Ok(true)
        }
        Err(e) => Err(e),
    }
}

// Whether a world comes of the seed; every node is blank after it.
pub fn has_world<S: Strategy>(strategy: &S, nodes: &mut [Node], seed: Label) -> Result<bool, NoRoom>
    ensures answer { result ≡ told (explore_by (S.Strategy.game strategy.now) (length nodes.old) (length nodes.old) [] seed) }
    ensures wiped { nodes.new ≡ replicate (length nodes.old) blank }
{
    let workspace = Workspace(nodes);
    wipe(workspace.0);
    tried(strategy, workspace.0, seed)
}
