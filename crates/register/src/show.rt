// Showing: a world that holds two classes apart.
ghost use Rattle.std.specs.Prelude.{◌≡◌, ◌<◌, length, replicate, IfOk, IfSome};
ghost use Rattle.search.specs.Nodes.{blank, labels, Says};
ghost use Rattle.runs.specs.Setups.{apart_by};
ghost use Rattle.runs.specs.Steps.{Call, separating, showed_world, step};
ghost use Rattle.register.specs.Registers.{setup_of, classes_of, reply_of, done};
ghost use Rattle.register.specs.Showing.{side_number, shown_reply};

use crate::Register;
use crate::searches::{rooted, seed_not, seed_one};
use denial::Denial;
use drawing::draw;
use found::Found;
use search::{NoRoom, Node, Workspace, wipe};

// The class that individual 0 of a world that was shown is of: the first of the two asked for, and not the second, or the
// other way round.
#[derive(Clone, Copy, PartialEq, Eq, Debug)]
pub enum Side {
    First,
    Second,
}

// How many individuals the world has that was written on the sheet, and the side of its individual 0.
#[derive(Clone, Copy, PartialEq, Eq, Debug)]
pub struct Shown {
    pub individuals: usize,
    pub side: Side,
}

impl Register {
    // Writes a world that keeps the book on the sheet, with an individual of class a that is not of class b, or else the other
    // way round. Refused with 9 where a number was not given yet, the first looked at first; with 16 where the numbers are
    // equal; with 15 where the nodes do not suffice; with 17 where the world has more than 64 individuals; and with 11 where
    // the words do not suffice. Then the sheet stays as it was, as do words past those needed. Every node is blank after it.
    #[tactic(auto, unfolding(runs::specs::Steps::showing))]
    pub fn show(
        &self,
        a: usize,
        b: usize,
        nodes: &mut [Node],
        sheet: &mut [u64],
    ) -> Result<Shown, Denial>
        ensures { done (reply_of shown_reply result) self.now nodes.new sheet.new ≡ step (setup_of self.now) (classes_of self.now) (Call.show a b (length nodes.old) sheet.old) }
    {
        let workspace = Workspace(nodes);
        let first = self.stand(a)?;
        let second = self.stand(b)?;
        if a == b {
            return Err(Denial::Equal(a));
        }
        wipe(workspace.0);
        self.separate(a, first, second, workspace.0, sheet)
    }

    // The same for different classes, by the entries by which they stand.
    #[tactic(auto, using(search::proofs::Steps::all_blank))]
    fn separate(
        &self,
        a: usize,
        first: Option<usize>,
        second: Option<usize>,
        nodes: &mut [Node],
        sheet: &mut [u64],
    ) -> Result<Shown, Denial>
        requires first { IfSome first (λ e. e < 60) }
        requires second { IfSome second (λ e. e < 60) }
        requires blank { nodes.old ≡ replicate (length nodes.old) blank }
        ensures reply { reply_of shown_reply result ≡ (separating (setup_of self.now) a first second (length nodes.old) sheet.old).reply }
        ensures sheet { sheet.new ≡ (separating (setup_of self.now) a first second (length nodes.old) sheet.old).sheet }
    {
        if let Some(m) = self
            .apart(first, second, nodes)
            .map_err(|_| Denial::Room(a))?
        {
            return self.put_on(&nodes[..m], Side::First, sheet);
        }
        match self
            .apart(second, first, nodes)
            .map_err(|_| Denial::Room(a))?
        {
            Some(m) => self.put_on(&nodes[..m], Side::Second, sheet),
            None => Err(Denial::Equal(a)),
        }
    }

    // The search for an individual of the one class that is not of the other. Class 0, which stands by no entry, has none, and
    // needs no search.
    #[tactic(auto, using(search::proofs::Steps::blank_all, crate::proofs::Showing::some_node))]
    fn apart(
        &self,
        inside: Option<usize>,
        outside: Option<usize>,
        nodes: &mut [Node],
    ) -> Result<Option<usize>, NoRoom>
        requires inside { IfSome inside (λ e. e < 60) }
        requires outside { IfSome outside (λ e. e < 60) }
        requires blank { nodes.old ≡ replicate (length nodes.old) blank }
        ensures says { Says nodes.new result (apart_by (setup_of self.now) inside outside (length nodes.old)) }
        ensures some { IfOk result (λ found. IfSome found (λ m. 0 < m)) }
    {
        let Some(entry) = inside else {
            return Ok(None);
        };
        let seed = match outside {
            Some(other) => seed_not(entry, other),
            None => seed_one(entry),
        };
        model::find_in_blank(&self.plan, nodes, rooted(&self.plan, seed))
    }

    // Writes the world that was found in the nodes on the sheet.
    fn put_on(&self, nodes: &[Node], side: Side, sheet: &mut [u64]) -> Result<Shown, Denial>
        requires { 0 < length nodes.now }
        ensures reply { reply_of shown_reply result ≡ (showed_world (setup_of self.now) sheet.old (side_number side) (labels nodes.now)).reply }
        ensures sheet { sheet.new ≡ (showed_world (setup_of self.now) sheet.old (side_number side) (labels nodes.now)).sheet }
    {
        let world = Found::new(&self.plan, nodes)?;
        let individuals = draw(&world, self.role_count() as u8, sheet)?;
        Ok(Shown { individuals, side })
    }
}
