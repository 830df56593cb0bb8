// What a book means: worlds, concepts, hierarchies of roles, and what it is to keep a book.
// The definitions stand in specs/; here are the types that they share with the code, and the traits by which code asks
// a world or a hierarchy. A trait's ghost members are its meaning, and code above is proved against them alone.
#![tactic(auto)]

ghost use Rattle.std.specs.Prelude.{◌≡◌, ℕ, ◌<◌, Bool, true, ◌&&◌, nat_lt};
ghost use Rattle.meaning.specs.Worlds.{Interpretation, Sized, EntriesMean};
ghost use Rattle.meaning.specs.Orders.{Lawful};
ghost use Rattle.meaning.specs.Agreement.{AgreeingWorlds};
ghost use Rattle.meaning.specs.Chains.{ReachDecides};

// How a restriction by a role speaks of what the role joins an individual to.
#[derive(Clone, Copy)]
pub enum Quantifier {
    // to some individual in the part
    Exists,
    // only to individuals in the part
    Forall,
    // to no individual in the part
    NoneOf,
}

// A concept entry of a book, one of nine kinds. Names, roles and parts go by number; a part is an entry with a lower number.
#[derive(Clone, Copy)]
pub enum Concept {
    Nothing,
    Everything,
    Name(u8),
    Not(u8),
    And(u8, u8),
    Or(u8, u8),
    // the quantifier, the role and the part
    Restriction(Quantifier, u8, u8),
}

// A rule (a general concept inclusion): every individual in the premise is in the conclusion.
#[derive(Clone, Copy)]
pub struct Rule {
    pub premise: u8,
    pub conclusion: u8,
}

// A world that can be asked: a finite interpretation of 1 to 64 individuals, numbered from 0.
// Its meaning is the interpretation; asking changes nothing, since it is a function of the value that is asked.
pub trait World {
    ghost interpretation: { Self → Interpretation };

    fn individuals(&self) -> usize
        ensures { result ≡ (interpretation self.now).size };

    // Whether x bears the name n; no where x is no individual, or n is from 64 on.
    fn bears(&self, x: usize, n: usize) -> bool
        ensures { result ≡ (nat_lt x (interpretation self.now).size && (nat_lt n 64 && (interpretation self.now).bears x n)) };

    // Whether the role r joins x to y; no where x or y is no individual. Which roles there are is the interpretation's.
    fn joins(&self, r: usize, x: usize, y: usize) -> bool
        ensures { result ≡ (nat_lt x (interpretation self.now).size && (nat_lt y (interpretation self.now).size && (interpretation self.now).joins r x y)) };

    ghost sized: { (x : Self) → Sized (interpretation x) };
}

// A reflexive and transitive relation on the numbers below a count of 0 to 64. That it is one is a law of the trait: there
// is no implementation without its proof.
pub trait Order {
    ghost size: { Self → ℕ };

    ghost under: { Self → ℕ → ℕ → Bool };

    fn count(&self) -> usize
        ensures { result ≡ size self.now };

    // Whether r is below s; no where either is out of range.
    fn below(&self, r: usize, s: usize) -> bool
        ensures { result ≡ under self.now r s };

    ghost lawful: { (x : Self) → Lawful (size x) (under x) };
}

// An order of roles that also knows which of them are transitive.
pub trait Hierarchy: Order {
    ghost passing: { Self → ℕ → Bool };

    // Whether the role r is transitive; no where it is out of range.
    fn transitive(&self, r: usize) -> bool
        ensures { result ≡ passing self.now r };

    // Only roles are transitive.
    ghost inside: { (x : Self) (r : ℕ) → passing x r ≡ true → r < Self.Order.size x };
}

// What an entry means is what its kind says over what its parts mean.
pub fn entries_mean()
    ensures { EntriesMean }
{}

// For a relation on the numbers below a bound, `reach` decides whether a chain of its steps leads from x to y.
pub fn chains_decided()
    ensures { ReachDecides }
{}

// Worlds that agree on the names and on a book's roles are alike to the book: in its entries, and in keeping it.
pub fn agreeing_worlds()
    ensures { AgreeingWorlds }
{}
