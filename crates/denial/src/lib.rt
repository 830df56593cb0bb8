// Every refusal: one enum for each layer, the upper one handing the lower one's refusal on whole, and the report
// (number, detail, layer) that a definition gives to each case.
#![tactic(auto)]

ghost use Rattle.std.specs.Prelude.{◌≡◌, Some};
ghost use Rattle.denial.specs.Denials.{trailer_report, record_report, denial_report, from_trailer, from_record, name_of_layer, text_of_report};

use std::error::Error;
use std::fmt;

// Where a refusal arose: in the trailer of the book, in its records, or in the register and the calls around it.
#[derive(Clone, Copy, PartialEq, Eq, Debug)]
pub enum Layer {
    Trailer,
    Records,
    Register,
}

// What a refusal says: its number, its detail, its layer.
// Stays: the numbers of refusals are fixed by the rules of the register, and users go by them.
#[derive(Clone, Copy, PartialEq, Eq, Debug)]
pub struct Report {
    pub number: u8,
    pub detail: usize,
    pub layer: Layer,
}

// The book's length or its trailer is wrong.
#[derive(Clone, Copy, PartialEq, Eq, Debug)]
pub enum TrailerDenial {
    // the length, which is not 16 to 8192
    Length(usize),
    // byte of the first count field that is out of its range
    Count(usize),
    // byte of the first place field whose section starts too early, or of the rules' where they run into the trailer
    Place(usize),
}

// A record of a section is wrong; each case has the first byte of the first bad record.
#[derive(Clone, Copy, PartialEq, Eq, Debug)]
pub enum RecordDenial {
    Layout(TrailerDenial),
    Role(usize),
    Pair(usize),
    Concept(usize),
    Rule(usize),
}

// A call on a book that was read is refused.
#[derive(Clone, Copy, PartialEq, Eq, Debug)]
pub enum Denial {
    Unread(RecordDenial),
    // the entry, which is not in the book
    Entry(usize),
    // the class number, which was not given yet
    Class(usize),
    // 0, the length, or the place of the first bad word of the sheet
    Sheet(usize),
    // how many words a sheet needs for the world that is to be written on it
    ShortSheet(usize),
    // the count of the hierarchy: it differs from the book's, or leaves no number for one more role
    RoleCount(usize),
    // w, the number of working entries, which is over 64
    Width(usize),
    // as many classes as there can be: one more is needed
    Classes(usize),
    // no lent node is left: for a filing the class compared, else the first number of the call
    Room(usize),
    // the number that was given twice: a class is not held apart from itself
    Equal(usize),
    // how many individuals the found world has, more than 64
    Individuals(usize),
}

// Stays: each denial has `report` beside its conversion, since a caller that has one and wants its number names no type.
impl TrailerDenial {
    pub fn report(self) -> Report
        ensures { result ≡ trailer_report self }
    {
        self.into()
    }
}

impl RecordDenial {
    pub fn report(self) -> Report
        ensures { result ≡ record_report self }
    {
        self.into()
    }
}

impl Denial {
    pub fn report(self) -> Report
        ensures { result ≡ denial_report self }
    {
        self.into()
    }
}

impl From<TrailerDenial> for Report {
    ghost from_gives = { λ d r. r ≡ trailer_report d };

    fn from(denial: TrailerDenial) -> Report {
        let (number, detail) = match denial {
            TrailerDenial::Length(length) => (1, length),
            TrailerDenial::Count(place) => (2, place),
            TrailerDenial::Place(place) => (3, place),
        };
        Report {
            number,
            detail,
            layer: Layer::Trailer,
        }
    }
}

impl From<RecordDenial> for Report {
    ghost from_gives = { λ d r. r ≡ record_report d };

    fn from(denial: RecordDenial) -> Report {
        let (number, detail) = match denial {
            RecordDenial::Layout(lower) => return lower.into(),
            RecordDenial::Role(place) => (4, place),
            RecordDenial::Pair(place) => (5, place),
            RecordDenial::Concept(place) => (6, place),
            RecordDenial::Rule(place) => (7, place),
        };
        Report {
            number,
            detail,
            layer: Layer::Records,
        }
    }
}

impl From<Denial> for Report {
    ghost from_gives = { λ d r. r ≡ denial_report d };

    fn from(denial: Denial) -> Report {
        let (number, detail) = match denial {
            Denial::Unread(lower) => return lower.into(),
            Denial::Entry(entry) => (8, entry),
            Denial::Class(class) => (9, class),
            Denial::Sheet(place) => (10, place),
            Denial::ShortSheet(needed) => (11, needed),
            Denial::RoleCount(count) => (12, count),
            Denial::Width(width) => (13, width),
            Denial::Classes(count) => (14, count),
            Denial::Room(class) => (15, class),
            Denial::Equal(class) => (16, class),
            Denial::Individuals(count) => (17, count),
        };
        Report {
            number,
            detail,
            layer: Layer::Register,
        }
    }
}

impl From<TrailerDenial> for RecordDenial {
    ghost from_gives = { λ lower r. r ≡ from_trailer lower };

    fn from(denial: TrailerDenial) -> RecordDenial {
        RecordDenial::Layout(denial)
    }
}

impl From<RecordDenial> for Denial {
    ghost from_gives = { λ lower r. r ≡ from_record lower };

    fn from(denial: RecordDenial) -> Denial {
        Denial::Unread(denial)
    }
}

// A layer is shown as its name.
impl fmt::Display for Layer {
    ghost output = { λ l. Some (name_of_layer l) };

    fn fmt<W: fmt::Write>(&self, f: &mut fmt::Formatter<W>) -> fmt::Result {
        f.write_str(match self {
            Layer::Trailer => "trailer",
            Layer::Records => "records",
            Layer::Register => "register",
        })
    }
}

// A report is shown as "denied", its number, its detail and its layer.
impl fmt::Display for Report {
    ghost output = { λ r. Some (text_of_report r) };

    fn fmt<W: fmt::Write>(&self, f: &mut fmt::Formatter<W>) -> fmt::Result {
        let Report {
            number,
            detail,
            layer,
        } = self;
        write!(f, "denied {number} {detail} {layer}")
    }
}

// A denial is shown as its report.
// Stays: three impls, since `Display` is the library's, and no impl of it may cover every type that gives a report.
impl fmt::Display for TrailerDenial {
    ghost output = { λ d. Some (text_of_report (trailer_report d)) };

    fn fmt<W: fmt::Write>(&self, f: &mut fmt::Formatter<W>) -> fmt::Result {
        self.report().fmt(f)
    }
}

impl fmt::Display for RecordDenial {
    ghost output = { λ d. Some (text_of_report (record_report d)) };

    fn fmt<W: fmt::Write>(&self, f: &mut fmt::Formatter<W>) -> fmt::Result {
        self.report().fmt(f)
    }
}

impl fmt::Display for Denial {
    ghost output = { λ d. Some (text_of_report (denial_report d)) };

    fn fmt<W: fmt::Write>(&self, f: &mut fmt::Formatter<W>) -> fmt::Result {
        self.report().fmt(f)
    }
}

impl Error for TrailerDenial {}

impl Error for RecordDenial {}

impl Error for Denial {}
