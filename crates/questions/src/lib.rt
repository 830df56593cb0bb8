// What a script asks of a book and of the world on a sheet.
#![tactic(auto)]

ghost use Rattle.std.specs.Prelude.{◌≡◌, ◌≢◌, ℕ, length, Some, codes, MatchResult};
ghost use Rattle.denial.specs.Denials.{answer, denial_report};
ghost use Rattle.book.specs.Views.{view};
ghost use Rattle.roles.specs.Told.{marked};
ghost use Rattle.roles.specs.Closure.{closure};
ghost use Rattle.questions.specs.Bases.{count_in, under_in, passing_in, lawful_in, inside_in};
ghost use Rattle.questions.specs.Questions.{name_of_base, name_of_source, answer_of, answer_over, answer_from, below_of, transitive_of, individuals_of, judged_of, Kept};
ghost use Rattle.questions.specs.declared.Base.{Base};
ghost use Rattle.questions.specs.declared.Source.{Source};

use book::Book;
use denial::Denial;
use meaning::{Hierarchy, Order, World};
use roles::rows::Rows;
use roles::told::Told;
use roles::universal::Universal;
use sheet::Sheet;
use std::error::Error;
use std::fmt;
use std::str::FromStr;

// One of the two hierarchies of a book: its closure rows, or its told pairs.
#[derive(Clone, Copy, PartialEq, Eq, Debug)]
pub enum Base {
    Closed,
    Told,
}

// One of these, alone or under a universal role.
#[derive(Clone, Copy, PartialEq, Eq, Debug)]
pub struct Source {
    pub base: Base,
    // Stays: a name has the ending or not, whatever its base; a type of two cases would say no more than yes and no.
    pub universal: bool,
}

// A hierarchy of a book, which the code can ask: the one that a base names.
#[derive(Clone, Copy)]
pub enum Based<'a> {
    Closed(Rows),
    Told(Told<'a>),
}

impl Base {
    // The hierarchy of the book: closed now, or followed at each question.
    pub fn of<'a>(self, book: &'a Book) -> Based<'a>
        ensures count { count_in result ≡ length (view book.now).roles }
        ensures relation { (r s : ℕ) → under_in result r s ≡ closure (length (view book.now).roles) (view book.now).pairs r s }
        ensures transitive { (r : ℕ) → passing_in result r ≡ marked (view book.now).roles r }
    {
        match self {
            Base::Closed => Based::Closed(Rows::closed(book)),
            Base::Told => Based::Told(Told::new(book)),
        }
    }
}

impl<'a> Order for Based<'a> {
    ghost size = { count_in };

    ghost under = { under_in };

    fn count(&self) -> usize {
        match self {
            Based::Closed(rows) => rows.count(),
            Based::Told(told) => told.count(),
        }
    }

    fn below(&self, r: usize, s: usize) -> bool {
        match self {
            Based::Closed(rows) => rows.below(r, s),
            Based::Told(told) => told.below(r, s),
        }
    }

    ghost lawful = { lawful_in };
}

impl<'a> Hierarchy for Based<'a> {
    ghost passing = { passing_in };

    fn transitive(&self, r: usize) -> bool {
        match self {
            Based::Closed(rows) => rows.transitive(r),
            Based::Told(told) => told.transitive(r),
        }
    }

    ghost inside = { inside_in };
}

// A text that names no hierarchy.
#[derive(Clone, Copy, PartialEq, Eq, Debug)]
pub struct UnknownHierarchy;

impl fmt::Display for UnknownHierarchy {
    ghost output = { λ _. Some (codes "no such hierarchy") };

    fn fmt<W: fmt::Write>(&self, f: &mut fmt::Formatter<W>) -> fmt::Result {
        f.write_str("no such hierarchy")
    }
}

impl Error for UnknownHierarchy {}

impl FromStr for Base {
    type Err = UnknownHierarchy;

    ghost from_str_gives = { λ text r. MatchResult r (λ b. text ≡ name_of_base b) (λ _. (b : Base) → text ≢ name_of_base b) };

    fn from_str(name: &str) -> Result<Base, UnknownHierarchy> {
        match name {
            "closed" => Ok(Base::Closed),
            "told" => Ok(Base::Told),
            _ => Err(UnknownHierarchy),
        }
    }
}

impl FromStr for Source {
    type Err = UnknownHierarchy;

    ghost from_str_gives = { λ text r. MatchResult r (λ s. text ≡ name_of_source s) (λ _. (s : Source) → text ≢ name_of_source s) };

    fn from_str(name: &str) -> Result<Source, UnknownHierarchy> {
        let (base, universal) = match name.strip_suffix("+universal") {
            Some(base) => (base, true),
            None => (name, false),
        };
        Ok(Source {
            base: base.parse()?,
            universal,
        })
    }
}

// A question of roles, which any hierarchy answers.
// Stays: a closure takes one type of hierarchy, and a question is put to more: to a book's, and to a universal role over it.
#[derive(Clone, Copy)]
enum Question {
    // whether the first role is below the second
    Below(usize, usize),
    // whether the role is transitive
    Transitive(usize),
}

impl Question {
    fn put_to<H: Hierarchy>(self, h: &H) -> bool
        ensures { result ≡ answer_of self (H.Order.under h.now) (H.Hierarchy.passing h.now) }
    {
        match self {
            Question::Below(r, s) => h.below(r, s),
            Question::Transitive(r) => h.transitive(r),
        }
    }

    // The answer of the hierarchy, or of a universal role over it.
    fn put_over<H: Hierarchy>(self, h: &H, universal: bool) -> Result<bool, Denial>
        ensures { answer (λ b. b) denial_report result ≡ answer_over universal self (H.Order.size h.now) (H.Order.under h.now) (H.Hierarchy.passing h.now) }
    {
        if universal {
            return Ok(self.put_to(&Universal::over(h)?));
        }
        Ok(self.put_to(h))
    }

    fn put(self, book: &Book, source: Source) -> Result<bool, Denial>
        ensures { answer (λ b. b) denial_report result ≡ answer_from source self (view book.now) }
    {
        self.put_over(&source.base.of(book), source.universal)
    }
}

// Whether the role r is below s.
// Stays: a book goes with a source here and with the words of a sheet below, and each question has another mix of them.
pub fn below(book: &Book, source: Source, r: usize, s: usize) -> Result<bool, Denial>
    ensures { answer (λ b. b) denial_report result ≡ below_of source (view book.now) r s }
{
    Question::Below(r, s).put(book, source)
}

// Whether the role r is transitive. The two hierarchies of a book say the same, so the told pairs are asked, which need no closure.
pub fn transitive(book: &Book, source: Source, r: usize) -> Result<bool, Denial>
    ensures { answer (λ b. b) denial_report result ≡ transitive_of source (view book.now) r }
{
    Question::Transitive(r).put_over(&Told::new(book), source.universal)
}

// How many individuals are on the sheet.
pub fn individuals(book: &Book, words: &[u64]) -> Result<usize, Denial>
    ensures { answer (λ m. m) denial_report result ≡ individuals_of (view book.now) words.now }
{
    Ok(Sheet::new(words, book)?.individuals())
}

// The individuals on the sheet that are in the entry.
pub fn judged(book: &Book, words: &[u64], entry: usize) -> Result<u64, Denial>
    ensures { answer (λ w. w) denial_report result ≡ judged_of (view book.now) words.now entry }
{
    let world = Sheet::new(words, book)?;
    sheet::judge(&world, book, entry)
}

// Whether the world on the sheet keeps the book.
pub fn kept(book: &Book, words: &[u64], base: Base) -> Result<bool, Denial>
    ensures { Kept (view book.now) words.now result }
{
    let world = Sheet::new(words, book)?;
    sheet::keeps(&world, &base.of(book), book)
}
