// Opening a register on a book.
ghost use Rattle.std.specs.Prelude.{◌≡◌};
ghost use Rattle.denial.specs.Denials.{answer, denial_report};
ghost use Rattle.book.specs.Views.{view};
ghost use Rattle.script.specs.Sessions.{opening_on};
ghost use Rattle.script.specs.Registers.{opened_at};

use book::Book;
use denial::Denial;
use questions::Base;
use register::Register;

// A register on the book, under the hierarchy that the base names.
pub fn opened(book: &Book, base: Base) -> Result<Register, Denial>
    ensures { answer opened_at denial_report result ≡ opening_on (view book.now) }
{
    Register::open(book, &base.of(book))
}
