// A session: the book, the register opened on it, and the world drawn for it.
ghost use Rattle.std.specs.Prelude.{◌≡◌, vec_items};
ghost use Rattle.denial.specs.Denials.{answer, record_report};
ghost use Rattle.book.specs.Reading.{reading};
ghost use Rattle.book.specs.Views.{view};

use crate::answer;
use crate::calls::perform;
use crate::failure::Failure;
use crate::hex::{bytes_of, words_of};
use crate::opening::opened;
use book::Book;
use book::read::read;
use denial::RecordDenial;
use grammar::{BookQuestion, Call, NoCall, RegisterCall, WorldQuestion};
use host::register_relation;
use lines::{denied, yes_or_no};
use listing::listing;
use questions::Base;
use register::Register;
use search::Node;
use std::alloc::{AllocError, Global};

// The bytes of the book, what reading them came to, the register, if one is open, and the words of the sheet, if one was
// drawn or shown.
#[derive(Drop)]
pub struct Session {
    heap: Global,
    bytes: Vec<u8>,
    book: Result<Book, RecordDenial>,
    register: Option<Register>,
    words: Option<Vec<u64>>,
    ghost read: { answer view record_report book ≡ reading (vec_items bytes) },
}

impl Session {
    ghost use Rattle.std.specs.Prelude.{◌≡◌, ℕ, List, [], Option, IfOk, string_bytes};
    ghost use Rattle.denial.specs.Denials.{Answer, granted};
    ghost use Rattle.host.specs.Relations.{relation_of};
    ghost use Rattle.listing.specs.Listings.{listing_of};
    ghost use Rattle.script.specs.Hexes.{bytes_in, WordsIn};
    ghost use Rattle.script.specs.Lines.{relation_line, classes_line};
    ghost use Rattle.script.specs.Outcomes.{called, ComesTo};
    ghost use Rattle.script.specs.Sessions.{fresh, turn, started, drawn, asked_book, AskedWorld, opening, opened_by, register_of, CalledOn, LineComes, Answers};
    ghost use Rattle.script.specs.Views.{held_of};

    // A session with an empty book, which is refused, and no world.
    pub fn new(heap: Global) -> Session
        ensures { held_of result ≡ fresh [] }
    {
        let bytes = Vec::new(heap);
        let book = read(bytes.as_slice());
        Session {
            heap,
            bytes,
            book,
            register: None,
            words: None,
        }
    }

    // The answer to the call on a line, whose number is told where it is no call.
    pub fn answer(&mut self, number: usize, line: &[u8]) -> Result<String, AllocError>
        ensures { IfOk result (λ s. Answers number line.now (held_of self.old) (string_bytes s) (held_of self.new)) }
    {
        match self.answer_call(line) {
            Ok(text) => Ok(text),
            Err(Failure::BadLine) => format!(in self.heap; "bad line {number}\n"),
            Err(Failure::Denied(report)) => denied(self.heap, report),
            Err(Failure::OutOfMemory(error)) => Err(error),
        }
    }

    fn answer_call(&mut self, line: &[u8]) -> Result<String, Failure>
        ensures { ComesTo result (λ o. LineComes line.now (held_of self.old) (turn o (held_of self.new))) }
    {
        let text = std::str::from_utf8(line).map_err(|_| NoCall)?;
        match Call::try_from(text)? {
            Call::Book(hex) => self.start(hex),
            Call::Sheet(count, words) => self.draw(count, words),
            Call::AskBook(question) => self.ask_book(question),
            Call::AskWorld(question) => self.ask_world(question),
            Call::Open(base) => self.open(base),
            Call::Register(call) => self.call(call),
            Call::Relation(first, second) => self.relate(first, second),
            Call::Classes => self.list(),
        }
    }

    // Starts afresh with the book whose bytes are given in hex; nothing is answered.
    fn start(&mut self, hex: &str) -> Result<String, Failure>
        ensures { ComesTo result (λ o. turn o (held_of self.new) ≡ started (bytes_in hex.now) (held_of self.old)) }
    {
        let bytes = bytes_of(self.heap, hex)?;
        self.book = read(bytes.as_slice());
        self.bytes = bytes;
        self.register = None;
        self.words = None;
        Ok(String::new(self.heap))
    }

    // Draws a sheet, which becomes the world if it is a good one; where it is refused there is no world.
    fn draw(&mut self, count: usize, named: &str) -> Result<String, Failure>
        ensures { ComesTo result (λ o. (words : Option (List ℕ)) × WordsIn count named.now words × (turn o (held_of self.new) ≡ drawn words (held_of self.old))) }
    {
        let words = words_of(self.heap, count, named)?;
        self.words = None;
        let m = questions::individuals(&self.book?, words.as_slice())?;
        self.words = Some(words);
        Ok(format!(in self.heap; "sheet {m}\n")?)
    }

    // The answer to a question to the book.
    fn ask_book(&self, question: BookQuestion) -> Result<String, Failure>
        ensures { ComesTo result (λ o. o ≡ called (asked_book question (held_of self.now).bytes)) }
    {
        let heap = self.heap;
        let book = self.book.as_ref().map_err(|lower| *lower)?;
        let answer = match question {
            BookQuestion::Read => {
                let roles = book.role_count();
                let pairs = book.pair_count();
                let entries = book.entry_count();
                let rules = book.rule_count();
                format!(in heap; "read {roles} {pairs} {entries} {rules}\n")?
            }
            BookQuestion::Parts => answer::parts(heap, self.bytes.as_slice())?,
            BookQuestion::Below(source, r, s) => {
                yes_or_no(heap, questions::below(book, source, r, s)?)?
            }
            BookQuestion::Transitive(source, r) => {
                yes_or_no(heap, questions::transitive(book, source, r)?)?
            }
        };
        Ok(answer)
    }

    // The answer to a question to the world on the sheet.
    fn ask_world(&self, question: WorldQuestion) -> Result<String, Failure>
        ensures { ComesTo result (λ o. (a : Answer (List ℕ)) × AskedWorld question (held_of self.now) a × (o ≡ called a)) }
    {
        let heap = self.heap;
        let book = self.book.as_ref().map_err(|lower| *lower)?;
        let Some(words) = &self.words else {
            return Ok(String::from_str(heap, "no world\n")?);
        };
        let answer = match question {
            WorldQuestion::Judge(entry) => {
                let set = questions::judged(book, words.as_slice(), entry)?;
                format!(in heap; "set {set:x}\n")?
            }
            WorldQuestion::Keeps(base) => {
                let kept = questions::kept(book, words.as_slice(), base)?;
                String::from_str(heap, if kept { "keeps yes\n" } else { "keeps no\n" })?
            }
        };
        Ok(answer)
    }

    // Opens a register afresh.
    fn open(&mut self, base: Base) -> Result<String, Failure>
        ensures { ComesTo result (λ o. turn o (held_of self.new) ≡ opened_by (opening (held_of self.old).bytes) (held_of self.old)) }
    {
        self.register = None;
        let register = opened(&self.book?, base)?;
        let w = register.width();
        self.register = Some(register);
        Ok(format!(in self.heap; "open {w}\n")?)
    }

    // The answer to a call on the register; where none is open, one is opened with closure rows first.
    fn call(&mut self, call: RegisterCall) -> Result<String, Failure>
        ensures { ComesTo result (λ o. CalledOn (register_of (held_of self.old)) call.action call.nodes (held_of self.old) (turn o (held_of self.new))) }
    {
        let book = self.book?;
        let register = self
            .register
            .get_or_try_insert_with(|| opened(&book, Base::Closed))?;
        let mut nodes = vec![in self.heap; Node::BLANK; call.nodes]?;
        perform(
            self.heap,
            register,
            &mut self.words,
            call.action,
            &mut nodes,
        )
    }

    // What the call for C hosts answers.
    fn relate(&self, first: usize, second: usize) -> Result<String, Failure>
        ensures { ComesTo result (λ o. o ≡ called (granted (relation_line (relation_of (held_of self.now).bytes first second)))) }
    {
        let number = register_relation(self.bytes.as_slice(), first, second);
        Ok(format!(in self.heap; "c {number}\n")?)
    }

    // The classes of the whole book on one line.
    fn list(&self) -> Result<String, Failure>
        ensures { ComesTo result (λ o. o ≡ called (granted (classes_line (listing_of (held_of self.now).bytes)))) }
    {
        let lines = listing(self.heap, self.bytes.as_slice())?;
        Ok(answer::on_one_line(self.heap, lines.as_slice())?)
    }
}
