// The lines of a refusal, of yes and no, and of a listing, byte by byte.
#![tactic(auto)]

ghost use Rattle.std.specs.Prelude.{◌≡◌, IfOk, string_bytes};
ghost use Rattle.lines.specs.Lines.{line_of_denial, yes_line};
ghost use Rattle.lines.specs.Listings.{both_digits, line_of_class, line_of_denied_entry, line_of_book};

use denial::Report;
use std::alloc::{AllocError, Global};

// The line of an answer that is yes or no.
pub fn yes_or_no(heap: Global, yes: bool) -> Result<String, AllocError>
    ensures { IfOk result (λ s. string_bytes s ≡ yes_line yes) }
{
    String::from_str(heap, if yes { "yes\n" } else { "no\n" })
}

// The line of a refusal.
pub fn denied(heap: Global, report: Report) -> Result<String, AllocError>
    ensures { IfOk result (λ s. string_bytes s ≡ line_of_denial report) }
{
    format!(in heap; "{report}\n")
}

// The lines of a listing have numbers of two decimal digits. They are the last two: entries are below 60, class numbers at
// most 24 and the numbers of refusals at most 17, so nothing is lost.
// Stays: the library prints two digits into a text, and these are bytes at fixed places.
#[tactic(auto, unfolding(crate::specs::Listings::both_digits))]
fn two_digits(n: u8) -> [u8; 2]
    ensures { result ≡ both_digits n }
{
    let n = n % 100;
    [b'0' + n / 10, b'0' + n % 10]
}

// The line of an entry that has a class number.
// Stays: the length of a line is part of its type, and no const argument is worked out from the length of a word, so each
// of the three lines has a function of its own.
#[tactic(auto, unfolding(crate::specs::Listings::line_of_class, crate::specs::Listings::both_digits))]
pub fn class_line(entry: u8, class: u8) -> [u8; 12]
    ensures { result ≡ line_of_class entry class }
{
    let mut line = *b"class __ __\n";
    [line[6], line[7]] = two_digits(entry);
    [line[9], line[10]] = two_digits(class);
    line
}

// The line of an entry whose filing was refused with the number.
// Stays: the rules of the listing name the bytes of a line by the number of a refusal, whatever byte it is, and a report has
// two more parts, which no byte of the line shows.
#[tactic(auto, unfolding(crate::specs::Listings::line_of_denied_entry, crate::specs::Listings::both_digits))]
pub fn denied_line(entry: u8, number: u8) -> [u8; 13]
    ensures { result ≡ line_of_denied_entry entry number }
{
    let mut line = *b"denied __ __\n";
    [line[7], line[8]] = two_digits(entry);
    [line[10], line[11]] = two_digits(number);
    line
}

// The line of a book that is refused with the number.
// Stays: the rules name its bytes by the number, as they do for an entry.
#[tactic(auto, unfolding(crate::specs::Listings::line_of_book, crate::specs::Listings::both_digits))]
pub fn book_line(number: u8) -> [u8; 8]
    ensures { result ≡ line_of_book number }
{
    let mut line = *b"book __\n";
    [line[5], line[6]] = two_digits(number);
    line
}
