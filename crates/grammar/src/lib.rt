// The lines of a script, as calls.
#![tactic(auto)]

ghost use Rattle.std.specs.Prelude.{◌≡◌, Some, codes, MatchResult};
ghost use Rattle.std.specs.Str.{trim};
ghost use Rattle.grammar.specs.Spelling.{Spells};
ghost use Rattle.grammar.specs.declared.Call.{Call};

mod items;

use items::Items;
pub use items::number;
use questions::{Base, Source, UnknownHierarchy};
use std::error::Error;
use std::fmt;

// A line of a script.
#[derive(Clone, Copy, PartialEq, Eq, Debug)]
pub enum Call<'a> {
    // the bytes of a book, in hex
    Book(&'a str),
    // how many words, and those that are not 0: for each its place, a colon and its hex digits
    Sheet(usize, &'a str),
    AskBook(BookQuestion),
    AskWorld(WorldQuestion),
    // opens a register under the hierarchy
    Open(Base),
    Register(RegisterCall),
    // two entries
    Relation(usize, usize),
    Classes,
}

// A call that asks the book.
#[derive(Clone, Copy, PartialEq, Eq, Debug)]
pub enum BookQuestion {
    Read,
    Parts,
    Below(Source, usize, usize),
    Transitive(Source, usize),
}

// A call that asks the world on the sheet.
#[derive(Clone, Copy, PartialEq, Eq, Debug)]
pub enum WorldQuestion {
    Judge(usize),
    Keeps(Base),
}

// A call on the register, and how many nodes it is lent.
#[derive(Clone, Copy, PartialEq, Eq, Debug)]
pub struct RegisterCall {
    pub action: Action,
    pub nodes: usize,
}

// What is asked of the register.
#[derive(Clone, Copy, PartialEq, Eq, Debug)]
pub enum Action {
    // the entry
    File(usize),
    // two class numbers
    Ask(usize, usize),
    // two class numbers, and how many words are lent
    Show(usize, usize, usize),
}

// A line that is no call.
#[derive(Clone, Copy, PartialEq, Eq, Debug)]
pub struct NoCall;

impl fmt::Display for NoCall {
    ghost output = { λ _. Some (codes "no call") };

    fn fmt<W: fmt::Write>(&self, f: &mut fmt::Formatter<W>) -> fmt::Result {
        f.write_str("no call")
    }
}

impl Error for NoCall {}

impl From<UnknownHierarchy> for NoCall {
    ghost from_gives = { λ _ r. r ≡ record {} };

    fn from(_unknown: UnknownHierarchy) -> NoCall {
        NoCall
    }
}

// The call on a line. White space at the ends of the line does not count.
impl<'a> TryFrom<&'a str> for Call<'a> {
    type Error = NoCall;

    ghost try_from_gives = { λ line r. MatchResult r (λ call. Spells (trim line.now) call) (λ _. (call : Call) → ¬ (Spells (trim line.now) call)) };

    fn try_from(line: &'a str) -> Result<Call<'a>, NoCall> {
        let mut items = Items::new(line);
        let call = match items.item() {
            "book" => Call::Book(items.take_rest()),
            "sheet" => Call::Sheet(items.number()?, items.take_rest()),
            "read" => Call::AskBook(BookQuestion::Read),
            "parts" => Call::AskBook(BookQuestion::Parts),
            "below" => Call::AskBook(BookQuestion::Below(
                items.item().parse()?,
                items.number()?,
                items.number()?,
            )),
            "transitive" => Call::AskBook(BookQuestion::Transitive(
                items.item().parse()?,
                items.number()?,
            )),
            "judge" => Call::AskWorld(WorldQuestion::Judge(items.number()?)),
            "keeps" => Call::AskWorld(WorldQuestion::Keeps(items.item().parse()?)),
            "open" => Call::Open(items.item().parse()?),
            "file" => Call::Register(RegisterCall {
                action: Action::File(items.number()?),
                nodes: items.nodes()?,
            }),
            "ask" => Call::Register(RegisterCall {
                action: Action::Ask(items.number()?, items.number()?),
                nodes: items.nodes()?,
            }),
            // the nodes stand before the words on the line, and after them in the call
            "show" => {
                let (a, b, nodes) = (items.number()?, items.number()?, items.nodes()?);
                Call::Register(RegisterCall {
                    action: Action::Show(a, b, items.number()?),
                    nodes,
                })
            }
            "c" => Call::Relation(items.number()?, items.number()?),
            "classes" => Call::Classes,
            _ => return Err(NoCall),
        };
        if items.is_empty() {
            Ok(call)
        } else {
            Err(NoCall)
        }
    }
}
