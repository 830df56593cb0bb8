// The entries by which the classes of a register stand, in a place of fixed size.
ghost use Rattle.std.specs.Prelude.{◌≡◌, [], ◌∷◌, ◌++◌, ◌<◌, length, MatchResult};

use denial::Denial;
use std::marker::Model;

// The most classes besides class 0.
const MOST: usize = 24;

// Stays: no heap, and no library is trusted beyond the standard one, so they are a fixed array with their number beside it. The
// kit's `ArrayVec` proved as well.
#[derive(Drop)]
pub(crate) struct Classes {
    entries: [u8; MOST],
    count: usize,
}

impl Model for Classes {
    ghost use Rattle.std.specs.Prelude.{◌≡◌, ◌≤◌, List, ℕ, length, take};

    ghost Value = { List ℕ };

    ghost view = { λ c. take c.count c.entries };

    ghost invariant = { λ c. (c.count ≤ 24) × (length c.entries ≡ 24) };
}

impl Classes {
    pub(crate) fn new() -> Classes
        ensures { result ≡ [] }
    {
        Classes {
            entries: [0; MOST],
            count: 0,
        }
    }

    pub(crate) fn as_slice(&self) -> &[u8]
        ensures { result.now ≡ self.now }
    {
        &self.entries[..self.count]
    }

    pub(crate) fn len(&self) -> usize
        ensures { result ≡ length self.now }
    {
        self.count
    }

    // One more at the end; refused where there are as many as there can be.
    pub(crate) fn push(&mut self, entry: u8) -> Result<(), Denial>
        ensures { MatchResult result (λ _. (length self.old < 24) × (self.new ≡ self.old ++ entry ∷ [])) (λ d. (d ≡ Denial.Classes 24) × (length self.old ≡ 24) × (self.new ≡ self.old)) }
    {
        if self.count >= MOST {
            return Err(Denial::Classes(MOST));
        }
        self.entries[self.count] = entry;
        self.count += 1;
        Ok(())
    }
}
