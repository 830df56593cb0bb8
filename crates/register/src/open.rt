// Opening a register.
ghost use Rattle.std.specs.Prelude.{◌≡◌, List, [], IfOk, OnOk};
ghost use Rattle.denial.specs.Denials.{answer, denial_report};
ghost use Rattle.meaning.specs.Orders.{role_box};
ghost use Rattle.book.specs.Sections.{says};
ghost use Rattle.book.specs.Views.{view};
ghost use Rattle.roles.specs.Hierarchies.{roles_of};
ghost use Rattle.tableau.specs.Promises.{Opens};
ghost use Rattle.plan.specs.Building.{verdict};
ghost use Rattle.runs.specs.Setups.{setup};
ghost use Rattle.runs.specs.Runs.{Event, Run, Right};
ghost use Rattle.register.specs.Registers.{setup_of, classes_of, opening};

use crate::Register;
use crate::classes::Classes;
use book::Book;
use denial::Denial;
use meaning::{Hierarchy, Order};
use plan::Plan;
use roles::rows::Rows;

impl Register {
    // A register on the book under the hierarchy, with class 0 alone. Refused with 12 where the hierarchy's count is not the
    // book's or is 64, and then with 13 where there are more than 64 working entries. Where it is opened, what the
    // theorems about the search ask for holds, and every run of it is right: whatever calls it is made of, and whatever they are
    // lent.
    pub fn open<H: Hierarchy>(book: &Book, hierarchy: &H) -> Result<Register, Denial>
        ensures answer { answer opening denial_report result ≡ verdict (role_box (H.Order.size hierarchy.now) (H.Order.under hierarchy.now) (H.Hierarchy.passing hierarchy.now)) (says (view book.now)) }
        ensures setup { IfOk result (λ g. setup_of g ≡ setup (role_box (H.Order.size hierarchy.now) (H.Order.under hierarchy.now) (H.Hierarchy.passing hierarchy.now)) (says (view book.now))) }
        ensures fresh { IfOk result (λ g. classes_of g ≡ []) }
        ensures opens { OnOk result (Opens (role_box (H.Order.size hierarchy.now) (H.Order.under hierarchy.now) (H.Hierarchy.passing hierarchy.now)) (says (view book.now))) }
        ensures right { IfOk result (λ g. (run : List Event) → Run (setup_of g) (classes_of g) run → Right (role_box (H.Order.size hierarchy.now) (H.Order.under hierarchy.now) (H.Hierarchy.passing hierarchy.now)) (says (view book.now)) run) }
    {
        let plan = Plan::new(book, hierarchy)?;
        let entries = book.entry_count();
        let classes = Classes::new();
        Ok(Register {
            plan,
            entries,
            classes,
        })
    }

    // The same under the book's own hierarchy. Not inlined, so that the stack that it takes is free again before a search.
    #[inline(never)]
    pub fn open_own(book: &Book) -> Result<Register, Denial>
        ensures answer { answer opening denial_report result ≡ verdict (roles_of (view book.now)) (says (view book.now)) }
        ensures setup { IfOk result (λ g. setup_of g ≡ setup (roles_of (view book.now)) (says (view book.now))) }
        ensures fresh { IfOk result (λ g. classes_of g ≡ []) }
        ensures opens { OnOk result (Opens (roles_of (view book.now)) (says (view book.now))) }
        ensures right { IfOk result (λ g. (run : List Event) → Run (setup_of g) (classes_of g) run → Right (roles_of (view book.now)) (says (view book.now)) run) }
    {
        Register::open(book, &Rows::closed(book))
    }
}
