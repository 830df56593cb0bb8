// The listing of a book: the class number of each of its entries.
#![tactic(auto)]

ghost use Rattle.std.specs.Prelude.{◌≡◌, ◌<◌, ◌≤◌, ◌++◌, IfOk, OnOk};
ghost use Rattle.denial.specs.Denials.{granted};
ghost use Rattle.book.specs.Sections.{Sections, says};
ghost use Rattle.book.specs.Reading.{reading};
ghost use Rattle.book.specs.Views.{view};
ghost use Rattle.roles.specs.Hierarchies.{roles_of};
ghost use Rattle.plan.specs.Building.{verdict};
ghost use Rattle.lines.specs.Listings.{line_of_book};
ghost use Rattle.runs.specs.Steps.{Call, step};
ghost use Rattle.runs.specs.Runs.{history};
ghost use Rattle.register.specs.Registers.{setup_of, classes_of};
ghost use Rattle.listing.specs.Listings.{lent_nodes, filings, filed_line, lines_of, opened_run, listed, listing_of, RightLines};

use book::Book;
use book::read::read;
use denial::Report;
use lines::{book_line, class_line, denied_line};
use register::Register;
use search::Node;
use std::alloc::{AllocError, Global};

// How many nodes each filing is lent.
const NODES: usize = 64;

// The listing of the book in the bytes: for each entry, upward from 0, a line with its class number, or with the number of
// the refusal of its filing; for a book that is refused, in reading or in opening, the line of that refusal alone. Where a
// register is opened, these are the lines of a run that is right.
#[tactic(auto, unfolding(crate::specs::Listings::listing_of))]
pub fn listing(heap: Global, bytes: &[u8]) -> Result<Vec<u8>, AllocError>
    ensures lines { IfOk result (λ v. v.items ≡ listing_of bytes.now) }
    ensures right { IfOk result (λ v. (s : Sections) → reading bytes.now ≡ granted s → verdict (roles_of s) (says s) ≡ granted tt → RightLines (roles_of s) (says s) v.items) }
{
    match read(bytes) {
        Ok(book) => book_listing(heap, &book),
        Err(denial) => refused(heap, denial.report()),
    }
}

// The listing of a book that is refused.
fn refused(heap: Global, report: Report) -> Result<Vec<u8>, AllocError>
    ensures { IfOk result (λ v. v.items ≡ line_of_book report.number) }
{
    let mut out = Vec::new(heap);
    out.extend_from_slice(&book_line(report.number))?;
    Ok(out)
}

// The listing of a book that was read.
fn book_listing(heap: Global, book: &Book) -> Result<Vec<u8>, AllocError>
    ensures lines { IfOk result (λ v. v.items ≡ listed (opened_run (view book.now))) }
    ensures right { IfOk result (λ v. verdict (roles_of (view book.now)) (says (view book.now)) ≡ granted tt → RightLines (roles_of (view book.now)) (says (view book.now)) v.items) }
{
    match Register::open_own(book) {
        Ok(register) => filed_lines(heap, register, book.entry_count()),
        Err(denial) => refused(heap, denial.report()),
    }
}

// The lines of the first so many entries.
fn filed_lines(heap: Global, mut register: Register, entries: usize) -> Result<Vec<u8>, AllocError>
    requires { entries ≤ 60 }
    ensures { IfOk result (λ v. v.items ≡ lines_of (history (setup_of register) (classes_of register) (filings entries))) }
{
    let mut out = Vec::new(heap);
    'entries: for entry in 0..entries {
        add_line(&mut out, &mut register, entry)?;
    }
    Ok(out)
}

// Files the entry, and adds its line.
fn add_line(out: &mut Vec<u8>, register: &mut Register, entry: usize) -> Result<(), AllocError>
    requires { entry < 60 }
    ensures line { OnOk result (out.new.items ≡ out.old.items ++ filed_line entry (step (setup_of register.old) (classes_of register.old) (Call.file entry lent_nodes)).reply) }
    ensures classes { classes_of register.new ≡ (step (setup_of register.old) (classes_of register.old) (Call.file entry lent_nodes)).classes }
    ensures setup { setup_of register.new ≡ setup_of register.old }
{
    let mut nodes = [Node::BLANK; NODES];
    match register.file(entry, &mut nodes) {
        Ok(class) => out.extend_from_slice(&class_line(entry as u8, class as u8)),
        Err(denial) => out.extend_from_slice(&denied_line(entry as u8, denial.report().number)),
    }
}
