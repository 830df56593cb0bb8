// The relation of two classes.
ghost use Rattle.std.specs.Prelude.{◌≡◌};
ghost use Rattle.host.specs.Relations.{relation_number, related_by};

// How the first class stands to the second: the same, strictly below it, strictly above it, or neither below the other.
// Stays: the numbers are the C interface.
#[derive(Clone, Copy, PartialEq, Eq, Debug)]
pub enum Relation {
    Equal = 0,
    Below = 1,
    Above = 2,
    Apart = 3,
}

impl Relation {
    // The number by which a host gets the relation.
    // Stays: hosts get it by a public method of this name.
    pub fn number(self) -> u32
        ensures { result ≡ relation_number self }
    {
        self as u32
    }

    // The relation, where it is known whether all of the first class is in the second, and the reverse.
    // Stays: a From of two bools would not say which of the answers is which.
    pub(crate) fn by_answers(within: bool, around: bool) -> Relation
        ensures { result ≡ related_by within around }
    {
        match (within, around) {
            (true, true) => Relation::Equal,
            (true, false) => Relation::Below,
            (false, true) => Relation::Above,
            (false, false) => Relation::Apart,
        }
    }
}
