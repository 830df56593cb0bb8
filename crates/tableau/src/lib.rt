// The search for a world, as a value, and the theorems about it. The code here is the types that the definitions share
// with the code of the search, and the functions that carry the theorems.
#![tactic(auto)]

ghost use Rattle.std.specs.Prelude.{◌≡◌, ℕ, ◌<◌, ◌||◌};
ghost use Rattle.words.specs.Sets.{has};
ghost use Rattle.tableau.specs.Labels.{in_label, sign_at, put, put_all, joined, common, contains};
ghost use Rattle.tableau.specs.Examples.{ExamplesOpen};
ghost use Rattle.tableau.specs.Promises.{FailureIsRight, SuccessIsRight, RoomSuffices, StandingLabelsDiffer, FullIsRight, EdgesAreThoseChosen, SearchDecides};

use meaning::Concept;

// A label: a set of signed entries, those with + and those with - each as a word.
#[derive(Clone, Copy)]
pub struct Label {
    pub plus: u64,
    pub minus: u64,
}

// Stays: `i < 64` in three contracts. Entries are plain numbers: a type of their own would be made at each call. A sign is a
// bool, as it is in every definition and theorem of this crate, which would have to name the cases of a type for it.
impl Label {
    // The label that holds no entry.
    pub const EMPTY: Label = Label { plus: 0, minus: 0 };

    // Whether the label holds entry i with the sign.
    #[tactic(auto, unfolding(crate::specs::Labels::in_label))]
    pub fn holds(self, sign: bool, i: usize) -> bool
        requires { i < 64 }
        ensures { result ≡ in_label self sign i }
    {
        words::member(if sign { self.plus } else { self.minus }, i)
    }

    // The sign with which the label holds entry i, if it holds it: + where it holds it with both.
    pub fn sign(self, i: usize) -> Option<bool>
        requires { i < 64 }
        ensures { result ≡ sign_at self i }
    {
        if self.holds(true, i) {
            Some(true)
        } else if self.holds(false, i) {
            Some(false)
        } else {
            None
        }
    }

    // The entries that the label holds, with either sign.
    pub fn entries(self) -> u64
        ensures { (i : ℕ) → has result i ≡ (has self.plus i || has self.minus i) }
    {
        words::union(self.plus, self.minus)
    }

    // The label with entry i, so signed, in it too.
    #[tactic(auto, unfolding(crate::specs::Labels::put))]
    pub fn with(self, sign: bool, i: usize) -> Label
        requires { i < 64 }
        ensures { result ≡ put sign i self }
    {
        self.with_all(sign, words::single(i))
    }

    // The label with every member of the set, so signed, in it too.
    pub fn with_all(self, sign: bool, set: u64) -> Label
        ensures { result ≡ put_all sign set self }
    {
        if sign {
            Label {
                plus: self.plus | set,
                ..self
            }
        } else {
            Label {
                minus: self.minus | set,
                ..self
            }
        }
    }

    // The signed entries of the two labels together.
    pub fn joined(self, other: Label) -> Label
        ensures { result ≡ joined self other }
    {
        Label {
            plus: words::union(self.plus, other.plus),
            minus: words::union(self.minus, other.minus),
        }
    }

    // The signed entries that both labels hold.
    pub fn common(self, other: Label) -> Label
        ensures { result ≡ common self other }
    {
        Label {
            plus: words::intersection(self.plus, other.plus),
            minus: words::intersection(self.minus, other.minus),
        }
    }

    // Whether every signed entry of the seed is in the label.
    #[tactic(auto, unfolding(crate::specs::Labels::contains))]
    pub fn contains(self, seed: Label) -> bool
        ensures { result ≡ contains self seed }
    {
        words::subset(seed.plus, self.plus) && words::subset(seed.minus, self.minus)
    }
}

// A working entry.
#[derive(Clone, Copy)]
pub enum Entry {
    // a concept entry of the book, or a restriction made of one
    Plain(Concept),
    // a rule: its premise and its conclusion
    Inclusion(u8, u8),
    // all rules: the first of their entries, and how many there are
    Inclusions(u8, u8),
}

// What an entry that obliges a node asks for: a successor by the role, in the part (true) or outside it.
// Stays: the sign is a bool, as in a label.
#[derive(Clone, Copy)]
pub struct Demand {
    pub role: u8,
    pub sign: bool,
    pub part: u8,
}

// Both books of the examples open: the theorems speak of them.
pub fn examples_open()
    ensures { ExamplesOpen }
{}

// Where the search fails, no individual of any finite world that keeps the book satisfies the seed.
pub fn failure_is_right()
    ensures { FailureIsRight }
{}

// Where the search stands, the found world keeps the book, and its first individual satisfies the seed.
pub fn success_is_right()
    ensures { SuccessIsRight }
{}

// With 3 ^ w nodes the search is never without room.
pub fn room_suffices()
    ensures { RoomSuffices }
{}

// At every moment of a search the labels that stand are pairwise different, and at most n; so are those that it leaves.
pub fn standing_labels_differ()
    ensures { StandingLabelsDiffer }
{}

// A search has no room exactly where n is 0, or where at a moment of it all n nodes stand and an obligation wants one more.
pub fn full_is_right()
    ensures { FullIsRight }
{}

// The edges that are read off the labels that stand in the end are those that the search chose.
pub fn edges_are_those_chosen()
    ensures { EdgesAreThoseChosen }
{}

// With room enough, "a not b" fails exactly when every finite world that keeps the book puts all of a into b.
pub fn search_decides()
    ensures { SearchDecides }
{}
