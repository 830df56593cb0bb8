// The lines of the answers that list something.
ghost use Rattle.std.specs.Prelude.{◌≡◌, ◌++◌, string_bytes, IfOk, OnOk};
ghost use Rattle.book.specs.Pieces.{parts_of, seen};
ghost use Rattle.register.specs.Showing.{side_number};
ghost use Rattle.script.specs.Lines.{hex_bytes, line_of_part, part_line, part_lines, word_item, word_items, shown_line, with_semicolons, classes_line};

use book::parts::{Part, Parts};
use register::{Shown, Side};
use sheet::sheet::ROWS;
use std::alloc::{AllocError, Global};
use std::fmt::Write;

// A line for each part of a book that is read: its kind, its place, its length and its bytes.
pub fn parts(heap: Global, bytes: &[u8]) -> Result<String, AllocError>
    ensures { IfOk result (λ s. string_bytes s ≡ part_lines (parts_of bytes.now)) }
{
    let mut out = String::new(heap);
    for part in Parts::new(bytes) {
        add_part(&mut out, part)?;
    }
    Ok(out)
}

// The line of a part.
// Stays: the words for the kinds are those of this answer, and nothing else writes them.
fn add_part(out: &mut String, part: Part) -> Result<(), AllocError>
    ensures { OnOk result (string_bytes out.new ≡ string_bytes out.old ++ part_line (seen part.entry)) }
{
    match part {
        Part::Roles { place, bytes } => add_line(out, "roles", place, bytes),
        Part::Pairs { place, bytes } => add_line(out, "pairs", place, bytes),
        Part::Concepts { place, bytes } => add_line(out, "concepts", place, bytes),
        Part::Rules { place, bytes } => add_line(out, "rules", place, bytes),
        Part::Note { place, bytes } => add_line(out, "note", place, bytes),
        Part::Trailer { place, bytes } => add_line(out, "trailer", place, bytes),
    }
}

// The line of a part of the kind. No space stands at the end where the part is empty.
fn add_line(out: &mut String, kind: &str, place: usize, bytes: &[u8]) -> Result<(), AllocError>
    ensures { OnOk result (string_bytes out.new ≡ string_bytes out.old ++ line_of_part kind.now place bytes.now) }
{
    let length = bytes.len();
    write!(out, "{kind} {place} {length}")?;
    if length > 0 {
        out.push_str(" ")?;
    }
    add_hex(out, bytes)?;
    out.push_str("\n")
}

// Two hex digits for each byte.
fn add_hex(out: &mut String, bytes: &[u8]) -> Result<(), AllocError>
    ensures { OnOk result (string_bytes out.new ≡ string_bytes out.old ++ hex_bytes bytes.now) }
{
    for b in bytes {
        write!(out, "{b:02x}")?;
    }
    Ok(())
}

// "shown", how many individuals, the side, and those of the words needed that are not 0, each after its place.
// Stays: a side has no number of its own; that it is 1 or 2 is a matter of this answer.
pub fn shown(heap: Global, shown: Shown, words: &[u64], roles: usize) -> Result<String, AllocError>
    ensures { IfOk result (λ s. string_bytes s ≡ shown_line roles shown.individuals (side_number shown.side) words.now) }
{
    let m = shown.individuals;
    let side = match shown.side {
        Side::First => 1,
        Side::Second => 2,
    };
    let mut line = format!(in heap; "shown {m} {side}")?;
    let needed = roles.saturating_mul(m).saturating_add(ROWS);
    add_words(&mut line, &words[..needed.min(words.len())])?;
    line.push_str("\n")?;
    Ok(line)
}

// Those of the words that are not 0, each after its place.
fn add_words(out: &mut String, words: &[u64]) -> Result<(), AllocError>
    ensures { OnOk result (string_bytes out.new ≡ string_bytes out.old ++ word_items 0 words.now) }
{
    for (place, word) in words.iter().enumerate() {
        add_word(out, place, *word)?;
    }
    Ok(())
}

// The word after its place, unless it is 0.
fn add_word(out: &mut String, place: usize, word: u64) -> Result<(), AllocError>
    ensures { OnOk result (string_bytes out.new ≡ string_bytes out.old ++ word_item place word) }
{
    if word != 0 {
        write!(out, " {place}:{word:x}")?;
    }
    Ok(())
}

// "classes" and the lines of all classes, a semicolon for each newline.
pub fn on_one_line(heap: Global, lines: &[u8]) -> Result<String, AllocError>
    ensures { IfOk result (λ s. string_bytes s ≡ classes_line lines.now) }
{
    let mut line = String::from_str(heap, "classes ")?;
    add_with_semicolons(&mut line, lines)?;
    line.push_str("\n")?;
    Ok(line)
}

// Each byte as a character, a semicolon for a newline.
fn add_with_semicolons(out: &mut String, lines: &[u8]) -> Result<(), AllocError>
    ensures { OnOk result (string_bytes out.new ≡ string_bytes out.old ++ with_semicolons lines.now) }
{
    for b in lines {
        out.push(if *b == b'\n' { ';' } else { char::from(*b) })?;
    }
    Ok(())
}
