// Filing: the class number of an entry.
ghost use Rattle.std.specs.Prelude.{◌≡◌, ◌<◌, ◌≤◌, [], length, replicate, IfOk, IfSome};
ghost use Rattle.search.specs.Nodes.{blank};
ghost use Rattle.runs.specs.Steps.{Call, class, added, compared, placed, placing, step};
ghost use Rattle.register.specs.Registers.{setup_of, classes_of, reply_of, done};

use crate::Register;
use crate::searches::{seed_not, seed_one};
use denial::Denial;
use search::{NoRoom, Node, Workspace, wipe};

impl Register {
    // The class number of the entry: 0 where no world that keeps the book has an individual in it, that of the class from
    // which no world holds it apart, or else the next number. Refused with 8 where the entry is not in the book, with 15 where
    // the nodes do not suffice, and with 14 where there is no next number. Every node is blank after it.
    // Stays: that a class is at most 24 is a clause here, for callers that write two digits, and of the three functions that it
    // follows from: each of them answers with a class, and a type for one would be made in each.
    pub fn file(&mut self, entry: usize, nodes: &mut [Node]) -> Result<usize, Denial>
        ensures done { done (reply_of class result) self.new nodes.new [] ≡ step (setup_of self.old) (classes_of self.old) (Call.file entry (length nodes.old)) }
        ensures setup { setup_of self.new ≡ setup_of self.old }
        ensures few { IfOk result (λ class. class ≤ 24) }
    {
        let workspace = Workspace(nodes);
        if entry >= self.entries {
            return Err(Denial::Entry(entry));
        }
        wipe(workspace.0);
        match self.place(entry, workspace.0)? {
            Some(class) => Ok(class),
            None => self.add(entry),
        }
    }

    // The class that the entry belongs to, if there is one: nothing first, and then each class in its turn.
    #[tactic(auto, unfolding(runs::specs::Steps::placing))]
    fn place(&self, entry: usize, nodes: &mut [Node]) -> Result<Option<usize>, Denial>
        requires entry { entry < 60 }
        requires blank { nodes.old ≡ replicate (length nodes.old) blank }
        ensures value { result ≡ placing (setup_of self.now) (classes_of self.now) entry (length nodes.old) }
        ensures few { IfOk result (λ found. IfSome found (λ class. class ≤ 24)) }
        ensures wiped { nodes.new ≡ replicate (length nodes.old) blank }
    {
        let some = self
            .tried(seed_one(entry), nodes)
            .map_err(|_| Denial::Room(0))?;
        if !some {
            return Ok(Some(0));
        }
        self.among(entry, nodes)
    }

    // The same among the classes from 1 on.
    fn among(&self, entry: usize, nodes: &mut [Node]) -> Result<Option<usize>, Denial>
        requires entry { entry < 60 }
        requires blank { nodes.old ≡ replicate (length nodes.old) blank }
        ensures value { result ≡ placed (setup_of self.now) entry (length nodes.old) (classes_of self.now) 1 }
        ensures few { IfOk result (λ found. IfSome found (λ class. class ≤ 24)) }
        ensures wiped { nodes.new ≡ replicate (length nodes.old) blank }
    {
        'classes: for (k, stand) in self.classes.as_slice().iter().enumerate() {
            let same = self
                .compare(entry, *stand as usize, nodes)
                .map_err(|_| Denial::Room(k + 1))?;
            if same {
                return Ok(Some(k + 1));
            }
        }
        Ok(None)
    }

    // Whether no world holds the two entries apart: none with a in and b out, and then none the other way round.
    #[tactic(auto, unfolding(runs::specs::Steps::compared))]
    fn compare(&self, a: usize, b: usize, nodes: &mut [Node]) -> Result<bool, NoRoom>
        requires a { a < 60 }
        requires b { b < 60 }
        requires blank { nodes.old ≡ replicate (length nodes.old) blank }
        ensures value { result ≡ compared (setup_of self.now) a b (length nodes.old) }
        ensures wiped { nodes.new ≡ replicate (length nodes.old) blank }
    {
        if self.tried(seed_not(a, b), nodes)? {
            return Ok(false);
        }
        let found = self.tried(seed_not(b, a), nodes)?;
        Ok(!found)
    }

    // The next class, which stands by the entry.
    fn add(&mut self, entry: usize) -> Result<usize, Denial>
        requires { entry < self.old.entries }
        ensures reply { reply_of class result ≡ (added (classes_of self.old) entry).reply }
        ensures classes { classes_of self.new ≡ (added (classes_of self.old) entry).classes }
        ensures setup { setup_of self.new ≡ setup_of self.old }
        ensures few { IfOk result (λ class. class ≤ 24) }
    {
        self.classes.push(entry as u8)?;
        Ok(self.classes.len())
    }
}
