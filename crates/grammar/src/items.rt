// The items of a line, and the numbers that they write.
ghost use Rattle.std.specs.Prelude.{◌≡◌, ℕ, ◌<◌, ◌≤◌, [], Some, None, MatchResult, Decides};
ghost use Rattle.std.specs.Str.{trim};
ghost use Rattle.grammar.specs.Items.{first_item, other_items, Writes};

use crate::NoCall;

// The most nodes that a line can lend, 2^24, which take less than a gigabyte.
const NODES: usize = 16777216;

// What is left of a line. An item ends at a space, and white space before an item does not count.
#[derive(Drop)]
pub struct Items<'a> {
    rest: &'a str,
}

impl<'a> Items<'a> {
    // The items of a line. White space at its ends does not count.
    pub fn new(line: &'a str) -> Items<'a>
        ensures { result.rest.now ≡ trim line.now }
    {
        Items { rest: line.trim() }
    }

    // Whether there is no item left.
    pub fn is_empty(&self) -> bool
        ensures { Decides result (self.now.rest.now ≡ []) }
    {
        self.rest.is_empty()
    }

    // The next item, or the empty text where there is none.
    // Stays: the empty text is no name of a call, of a hierarchy or of a number, so that an Option would be one refusal more.
    pub fn item(&mut self) -> &'a str
        ensures item { result.now ≡ first_item self.old.rest.now }
        ensures rest { self.new.rest.now ≡ other_items self.old.rest.now }
    {
        let (item, rest) = cut(self.rest);
        self.rest = rest;
        item
    }

    // Takes all that is left.
    pub fn take_rest(&mut self) -> &'a str
        ensures all { result.now ≡ self.old.rest.now }
        ensures empty { self.new.rest.now ≡ [] }
    {
        let rest = self.rest;
        self.rest = "";
        rest
    }

    // The number that the next item writes.
    pub fn number(&mut self) -> Result<usize, NoCall>
        ensures number { MatchResult result (λ n. Writes (first_item self.old.rest.now) (Some n)) (λ _. Writes (first_item self.old.rest.now) None) }
        ensures rest { self.new.rest.now ≡ other_items self.old.rest.now }
    {
        number(self.item()).ok_or(NoCall)
    }

    // The same, for how many nodes are lent.
    pub fn nodes(&mut self) -> Result<usize, NoCall>
        ensures nodes { MatchResult result (λ n. Writes (first_item self.old.rest.now) (Some n) × (n ≤ 16777216)) (λ _. (n : ℕ) → Writes (first_item self.old.rest.now) (Some n) → 16777216 < n) }
        ensures rest { self.new.rest.now ≡ other_items self.old.rest.now }
    {
        let nodes = self.number()?;
        if nodes <= NODES {
            Ok(nodes)
        } else {
            Err(NoCall)
        }
    }
}

// The first item of a text, and the items after it.
fn cut(text: &str) -> (&str, &str)
    ensures first { result.0.now ≡ first_item text.now }
    ensures others { result.1.now ≡ other_items text.now }
{
    let (item, rest) = text.split_once(' ').unwrap_or((text, ""));
    (item, rest.trim_start())
}

// A decimal number, digits alone. The library's `parse` takes a plus before them, which is no digit.
pub fn number(text: &str) -> Option<usize>
    ensures { Writes text.now result }
{
    if text.starts_with('+') {
        return None;
    }
    text.parse().ok()
}
