// Reading: the layout by the trailer, then every record of every section.
ghost use Rattle.std.specs.Prelude.{◌≡◌, ◌+◌, ◌-◌, ◌/◌, ◌<◌, ◌≤◌, true, ◌++◌, length, replicate, take, IfSome, IfOk, OnOk};
ghost use Rattle.denial.specs.Denials.{answer, granted, record_report};
ghost use Rattle.meaning.specs.Books.{Sound};
ghost use Rattle.book.specs.Kinds.{kind_of};
ghost use Rattle.book.specs.Sections.{says};
ghost use Rattle.book.specs.Records.{named, fitting, lowest_bad_role, lowest_unfit, lowest_bad_concept, faultless};
ghost use Rattle.book.specs.Layouts.{laying, Laid};
ghost use Rattle.book.specs.Reading.{cut, checking, reading};
ghost use Rattle.book.specs.Views.{view, held};

use crate::kind::{Kind, UnknownKind};
use crate::trailer::read_layout;
use crate::{Book, Counts, Lent, PLAIN, TRANSITIVE};
use denial::RecordDenial;

const NAMES: u8 = 64;

// The book in the bytes, or the first refusal. What a book that was read says is sound.
#[tactic(auto, using(crate::proofs::Soundness::book_sound))]
pub fn read(bytes: &[u8]) -> Result<Book, RecordDenial>
    ensures value { answer view record_report result ≡ reading bytes.now }
    ensures sound { IfOk result (λ b. Sound (says (view b))) }
{
    Ok(sections(bytes)?.stored())
}

// The sections of the book in the bytes, each record good, or the first refusal.
#[tactic(auto, unfolding(crate::specs::Reading::reading))]
pub(crate) fn sections(bytes: &[u8]) -> Result<Lent<'_>, RecordDenial>
    ensures value { answer held record_report result ≡ reading bytes.now }
    ensures granted { IfOk result (λ x. granted x.layout ≡ laying bytes.now) }
    ensures laid { IfOk result (λ x. Laid (length bytes.now) x.layout) }
    ensures good { IfOk result (λ x. faultless x.roles.now x.pairs.now x.concepts.now x.rules.now ≡ true) }
{
    let layout = read_layout(bytes)?;
    let lent = Lent {
        layout,
        roles: part(bytes, layout.roles.place, layout.roles.count),
        pairs: part(bytes, layout.pairs.place, 2 * layout.pairs.count),
        concepts: part(bytes, layout.concepts.place, 4 * layout.concepts.count),
        rules: part(bytes, layout.rules.place, 2 * layout.rules.count),
    };
    lent.check()?;
    Ok(lent)
}

// So many bytes from a place on.
pub(crate) fn part(bytes: &[u8], place: usize, size: usize) -> &[u8]
    requires { place + size ≤ length bytes.now }
    ensures value { result.now ≡ cut bytes.now place size }
    ensures len { length result.now ≡ size }
{
    &bytes[place..place + size]
}

impl<'a> Lent<'a> {
    // Refuses at the first bad record.
    #[tactic(auto, unfolding(crate::specs::Reading::checking, crate::specs::Records::faultless))]
    fn check(&self) -> Result<(), RecordDenial>
        ensures value { answer (λ _. held self.now) record_report result ≡ checking self.now.layout (held self.now) }
        ensures good { OnOk result (faultless self.now.roles.now self.now.pairs.now self.now.concepts.now self.now.rules.now ≡ true) }
    {
        let layout = self.layout;
        if let Some(k) = first_bad_role(self.roles) {
            return Err(RecordDenial::Role(layout.roles.place + k));
        }
        if let Some(k) = first_unfit(self.roles.len(), self.pairs) {
            return Err(RecordDenial::Pair(layout.pairs.place + 2 * k));
        }
        if let Some(k) = first_bad_concept(self.roles.len(), self.concepts) {
            return Err(RecordDenial::Concept(layout.concepts.place + 4 * k));
        }
        if let Some(k) = first_unfit(self.concepts.len() / 4, self.rules) {
            return Err(RecordDenial::Rule(layout.rules.place + 2 * k));
        }
        Ok(())
    }

    // The book of these sections, where they are good.
    fn stored(&self) -> Book
        requires { faultless self.now.roles.now self.now.pairs.now self.now.concepts.now self.now.rules.now ≡ true }
        ensures { view result ≡ held self.now }
    {
        let layout = self.layout;
        Book {
            counts: Counts {
                roles: layout.roles.count,
                pairs: layout.pairs.count,
                entries: layout.concepts.count,
                rules: layout.rules.count,
            },
            roles: padded(self.roles),
            pairs: padded(self.pairs),
            concepts: padded(self.concepts),
            rules: padded(self.rules),
        }
    }
}

// The bytes, and zeros after them.
fn padded<const N: usize>(bytes: &[u8]) -> [u8; N]
    requires { length bytes.now ≤ N }
    ensures value { result ≡ bytes.now ++ replicate (N - length bytes.now) 0 }
    ensures front { take (length bytes.now) result ≡ bytes.now }
{
    let mut all = [0; N];
    all[..bytes.len()].copy_from_slice(bytes);
    all
}

fn first_bad_role(roles: &[u8]) -> Option<usize>
    ensures value { result ≡ lowest_bad_role roles.now }
    ensures inside { IfSome result (λ k. k < length roles.now) }
{
    roles
        .iter()
        .position(|role| !matches!(*role, PLAIN | TRANSITIVE))
}

// The first record of two bytes that are not both below n.
fn first_unfit(n: usize, records: &[u8]) -> Option<usize>
    ensures value { result ≡ lowest_unfit n records.now }
    ensures inside { IfSome result (λ k. k < length records.now / 2) }
{
    let (pairs, _) = records.as_chunks::<2>();
    pairs
        .iter()
        .position(|[a, b]| (*a as usize) >= n || (*b as usize) >= n)
}

fn first_bad_concept(roles: usize, concepts: &[u8]) -> Option<usize>
    ensures value { result ≡ lowest_bad_concept roles concepts.now }
    ensures inside { IfSome result (λ k. k < length concepts.now / 4) }
{
    let (entries, _) = concepts.as_chunks::<4>();
    entries.iter().enumerate().position(|(i, [kind, b, c, last])| {
        !fits(roles, concepts, i, *kind, *b, *c) || *last != 0
    })
}

// Whether entry i may have this kind and these operands.
// Stays: the kind is a byte of the format until `Kind::try_from` has read it, and a byte of no kind fits nowhere.
fn fits(roles: usize, concepts: &[u8], i: usize, kind: u8, b: u8, c: u8) -> bool
    requires { i ≤ length concepts.now / 4 }
    ensures { result ≡ fitting roles concepts.now i (kind_of kind) b c }
{
    match Kind::try_from(kind) {
        Ok(Kind::Nothing | Kind::Everything) => b == 0 && c == 0,
        Ok(Kind::Name) => b < NAMES && c == 0 && !named_before(concepts, i, b),
        Ok(Kind::Not) => (b as usize) < i && c == 0,
        Ok(Kind::And | Kind::Or) => (b as usize) < i && (c as usize) < i,
        Ok(Kind::Exists | Kind::Forall | Kind::NoneOf) => (b as usize) < roles && (c as usize) < i,
        Err(UnknownKind) => false,
    }
}

// Whether an entry before i has the name.
fn named_before(concepts: &[u8], i: usize, name: u8) -> bool
    requires { i ≤ length concepts.now / 4 }
    ensures { result ≡ named concepts.now i name }
{
    let (entries, _) = concepts.as_chunks::<4>();
    entries.iter().take(i).any(|[kind, b, ..]| matches!(Kind::try_from(*kind), Ok(Kind::Name))
        && *b == name)
}
