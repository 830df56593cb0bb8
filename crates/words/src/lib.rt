// A 64-bit word as a set of the numbers 0 to 63: k is in the set where bit k is 1.
// Every contract speaks through the one definition of membership, `has`; a word is determined by its members.
#![tactic(auto)]

ghost use Rattle.std.specs.Prelude.{◌≡◌, ℕ, ◌-◌, ◌^◌, ◌<◌, ◌≤◌, Bool, true, false, not, ◌&&◌, ◌||◌, Decides, ◌==◌, bit_and, bit_or, nat_lt, slice_index};
ghost use Rattle.words.specs.Sets.{has, set_of, Tests, Within, Disjoint, Determined, Comprehension};

use std::array;

// Whether k is in the set.
// Stays: `k < 64` in three contracts, and words by themselves. Types for a set and a member would be made and taken apart at
// each call.
pub fn member(w: u64, k: usize) -> bool
    requires { k < 64 }
    ensures { result ≡ has w k }
{
    (w >> k) & 1 == 1
}

// The set of k alone.
pub fn single(k: usize) -> u64
    requires { k < 64 }
    ensures value { result ≡ 2 ^ k }
    ensures members { (j : ℕ) → has result j ≡ (j == k) }
{
    1 << k
}

// The set of the numbers below n.
pub fn below(n: usize) -> u64
    requires { n < 65 }
    ensures value { result ≡ 2 ^ n - 1 }
    ensures members { (j : ℕ) → has result j ≡ nat_lt j n }
{
    if n == 64 { u64::MAX } else { (1 << n) - 1 }
}

// The set with k in it too.
pub fn insert(w: u64, k: usize) -> u64
    requires { k < 64 }
    ensures value { result ≡ bit_or w (2 ^ k) }
    ensures members { (j : ℕ) → has result j ≡ (j == k || has w j) }
{
    w | single(k)
}

pub fn union(a: u64, b: u64) -> u64
    ensures value { result ≡ bit_or a b }
    ensures members { (j : ℕ) → has result j ≡ (has a j || has b j) }
{
    a | b
}

pub fn intersection(a: u64, b: u64) -> u64
    ensures value { result ≡ bit_and a b }
    ensures members { (j : ℕ) → has result j ≡ (has a j && has b j) }
{
    a & b
}

// What is in a and not in b.
pub fn difference(a: u64, b: u64) -> u64
    ensures { (j : ℕ) → has result j ≡ (has a j && not (has b j)) }
{
    a & !b
}

// Whether every member of a is in b.
pub fn subset(a: u64, b: u64) -> bool
    ensures value { result ≡ (bit_and a b == a) }
    ensures members { Decides result (Within a b) }
{
    intersection(a, b) == a
}

// Whether no number is in both.
pub fn disjoint(a: u64, b: u64) -> bool
    ensures value { result ≡ (bit_and a b == 0) }
    ensures members { Decides result (Disjoint a b) }
{
    intersection(a, b) == 0
}

// The lowest member of a set that is not empty.
pub fn lowest(w: u64) -> usize
    requires { 0 < w }
    ensures place { result < 64 }
    ensures first { has w result ≡ true }
    ensures least { (j : ℕ) → j < result → has w j ≡ false }
{
    w.trailing_zeros() as usize
}

// The highest member of a set that is not empty.
pub fn highest(w: u64) -> usize
    requires { 0 < w }
    ensures place { result < 64 }
    ensures last { has w result ≡ true }
    ensures most { (j : ℕ) → result < j → has w j ≡ false }
{
    63 - w.leading_zeros() as usize
}

// The set of the numbers below n that pass the test.
pub fn collect<F: Fn(usize) -> bool>(n: usize, passes: F) -> u64
    requires few { n < 65 }
    requires callable { (k : ℕ) → k < n → F.pre passes k }
    ensures value { (p : ℕ → Bool) → Tests n (F.post passes) p → result ≡ set_of n p }
    ensures members { (p : ℕ → Bool) → Tests n (F.post passes) p → (j : ℕ) → has result j ≡ (nat_lt j n && p j) }
{
    let mut set = 0;
    for k in 0..n {
        if passes(k) {
            set = insert(set, k);
        }
    }
    set
}

// The table of 64 words whose word k is what the function gives for k.
pub fn tabulate<F: Fn(usize) -> u64>(row: F) -> [u64; 64]
    requires { (k : ℕ) → k < 64 → F.pre row k }
    ensures { (k : ℕ) → k < 64 → F.post row k (slice_index result k) }
{
    array::from_fn(
        |k|
            requires { F.pre row k }
            ensures { F.post row k result }
        { row(k) },
    )
}

// Two words with the same members are the same word, so the contracts above pin their results; and the word that is
// written as a set has the members that it says.
pub fn members_determine()
    ensures determined { Determined }
    ensures comprehension { Comprehension }
{}
