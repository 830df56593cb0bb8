// Any world written on lent words as a sheet.
#![tactic(auto)]

ghost use Rattle.std.specs.Prelude.{◌≡◌, length, IfOk};
ghost use Rattle.denial.specs.Denials.{answer, denial_report};
ghost use Rattle.drawing.specs.Drawings.{drawn_on, drawing, Drawn, DrawingIsRight, DrawnAlike};

use denial::Denial;
use meaning::World;
use sheet::judgement::{bearers, successors};
use sheet::sheet::ROWS;

// Writes the world on the words, with so many roles, and answers how many individuals it has. Refused where the words are
// too few: then they stay as they were. Words past those needed stay as they were.
pub fn draw<W: World>(world: &W, roles: u8, words: &mut [u64]) -> Result<usize, Denial>
    ensures value { answer (λ m. m) denial_report result ≡ drawing roles (W.World.interpretation world.now) (length words.old) }
    ensures words { words.new ≡ drawn_on roles (W.World.interpretation world.now) words.old }
    ensures right { IfOk result (λ m. Drawn roles (W.World.interpretation world.now) words.new) }
{
    let m = world.individuals();
    let roles = roles as usize;
    let needed = ROWS + roles * m;
    if words.len() < needed {
        return Err(Denial::ShortSheet(needed));
    }
    words[0] = m as u64;
    'names: for (n, word) in words[1..ROWS].iter_mut().enumerate() {
        *word = bearers(world, n);
    }
    // Stays: by the role's number. The contract of `chunks_exact_mut` does not say what the words are afterwards; parts split off
    // one after another would each need that they lie end to end; and one loop over all rows would find the role by a division.
    'roles: for r in 0..roles {
        let first = ROWS + r * m;
        'individuals: for (x, row) in words[first..first + m].iter_mut().enumerate() {
            *row = successors(world, r, x);
        }
    }
    Ok(m)
}

// A world is written down so that the sheet is good and agrees with it.
pub fn drawing_is_right()
    ensures { DrawingIsRight }
{}

// Worlds that agree are written alike.
pub fn drawn_alike()
    ensures { DrawnAlike }
{}
