// A sheet: a world of 1 to 64 individuals, written as 64-bit words for the roles of a book.
ghost use Rattle.std.specs.Prelude.{◌≡◌, ◌<◌, ◌≤◌, ◌+◌, ◌*◌, length, IfSome, IfOk, slice_index};
ghost use Rattle.denial.specs.Denials.{answer, denial_report};
ghost use Rattle.book.specs.Sections.{says};
ghost use Rattle.book.specs.Views.{view};
ghost use Rattle.sheet.specs.Sheets.{needed, strays, lowest_stray, sheet_of, written, sheet_world, held_sized};

use book::Book;
use denial::Denial;
use meaning::World;

// The most individuals, one for each bit of a word.
const MOST: u64 = 64;

// How many names a sheet has a word for.
pub const NAMES: usize = 64;

// The place of the first row of the first role: after word 0 and the names.
pub const ROWS: usize = 1 + NAMES;

// Word 0 is the number m of individuals, words 1 to 64 are the names, and then each role has m words, one for each
// individual: the set of those that it joins it to.
#[derive(Clone, Copy)]
pub struct Sheet<'a> {
    words: &'a [u64],
    roles: u8,
}

impl<'a> Sheet<'a> {
    // Refused where the number of individuals is not 1 to 64 (detail 0), where there are too few words (their number),
    // or where a word has a bit that is no individual's (the first such place).
    pub fn new(words: &'a [u64], book: &Book) -> Result<Sheet<'a>, Denial>
        ensures value { answer (λ s. s.words.now) denial_report result ≡ sheet_of (says (view book.now)).roles words.now }
        ensures roles { IfOk result (λ s. s.roles ≡ (says (view book.now)).roles) }
        ensures world { IfOk result (λ s. sheet_world s.roles s.words.now ≡ written s.roles (slice_index words.now 0) words.now) }
    {
        let roles = book.role_count();
        if words.is_empty() || words[0] == 0 || words[0] > MOST {
            return Err(Denial::Sheet(0));
        }
        if words.len() < ROWS + roles * words[0] as usize {
            return Err(Denial::Sheet(words.len()));
        }
        match first_stray(words, roles) {
            Some(k) => Err(Denial::Sheet(k + 1)),
            None => Ok(Sheet {
                words,
                roles: roles as u8,
            }),
        }
    }

    // Word i, 0 past the end.
    // Stays: by decision a sheet means a world whatever its words are: the code reads words as `sheet_world` does, past the end too.
    fn word(&self, i: usize) -> u64
        ensures { result ≡ slice_index self.now.words.now i }
    {
        self.words.get(i).copied().unwrap_or(0)
    }
}

// The first word after word 0 with a bit at the number of individuals or above, counted from 0.
fn first_stray(words: &[u64], roles: usize) -> Option<usize>
    requires few_roles { roles ≤ 64 }
    requires some { 0 < slice_index words.now 0 }
    requires few { slice_index words.now 0 ≤ 64 }
    requires enough { needed roles (slice_index words.now 0) ≤ length words.now }
    ensures value { result ≡ lowest_stray roles words.now }
    ensures inside { IfSome result (λ k. k < 64 + roles * slice_index words.now 0) }
{
    let m = words[0] as usize;
    words[1..ROWS + roles * m]
        .iter()
        .position(|word| is_stray(*word, m))
}

fn is_stray(word: u64, m: usize) -> bool
    requires { m < 65 }
    ensures { result ≡ strays m word }
{
    !words::subset(word, words::below(m))
}

impl<'a> World for Sheet<'a> {
    ghost interpretation = { λ x. sheet_world x.roles x.words.now };

    fn individuals(&self) -> usize {
        self.word(0).clamp(1, MOST) as usize
    }

    fn bears(&self, x: usize, n: usize) -> bool {
        x < self.individuals() && n < NAMES && words::member(self.word(1 + n), x)
    }

    fn joins(&self, r: usize, x: usize, y: usize) -> bool {
        let m = self.individuals();
        r < self.roles as usize && x < m && y < m && words::member(self.word(ROWS + r * m + x), y)
    }

    ghost sized = { λ x. held_sized x.roles x.words.now };
}
