// What signed entries force on a label, so that a clash is seen before the entries are taken that lead to it.
ghost use Rattle.std.specs.Prelude.{◌≡◌, ℕ, ◌<◌, Bool, length};
ghost use Rattle.tableau.specs.Labels.{put};
ghost use Rattle.plan.specs.Forcing.{Forces, forced_by, brought};

use crate::sets::Entries;
use meaning::Concept;
use tableau::{Entry, Label};

// For each entry what it forces with + and what with -. It is an aid of the search: what it holds is right, and it need not be
// all that is forced.
#[derive(Clone, Copy)]
pub struct Forced {
    pub plus: [Label; 64],
    pub minus: [Label; 64],
}

impl Forced {
    // Works it out upward: the parts of an entry are lower entries.
    pub fn of(entries: &Entries) -> Forced
        ensures { (s : Bool) (i : ℕ) → Forces (length entries.now.items.now) entries.now.items.now s i (forced_by result s i) }
    {
        let mut forced = Forced {
            plus: [Label::EMPTY; 64],
            minus: [Label::EMPTY; 64],
        };
        'entries: for i in 0..entries.items.len() {
            let entry = entries.items[i];
            let plus = forced.brought(entry, true).with(true, i);
            let minus = forced.brought(entry, false).with(false, i);
            forced.plus[i] = plus;
            forced.minus[i] = minus;
        }
        forced
    }

    // What the signed entry forces.
    #[tactic(auto, unfolding(tableau::specs::Labels::empty))]
    pub fn by(&self, sign: bool, i: usize) -> Label
        ensures { result ≡ forced_by self.now sign i }
    {
        let table = if sign { &self.plus } else { &self.minus };
        table.get(i).copied().unwrap_or(Label::EMPTY)
    }

    // What the parts force that the signed entry asks for, where there is no choice.
    #[tactic(auto, unfolding(tableau::specs::Labels::empty))]
    fn brought(&self, entry: Entry, sign: bool) -> Label
        ensures { result ≡ brought self.now entry sign }
    {
        match (entry, sign) {
            (Entry::Plain(Concept::Not(a)), _) => self.by(!sign, a as usize),
            (Entry::Plain(Concept::And(a, b)), true) | (Entry::Plain(Concept::Or(a, b)), false) => {
                self.by(sign, a as usize).joined(self.by(sign, b as usize))
            }
            _ => Label::EMPTY,
        }
    }
}
