// The plan of a book under a hierarchy.
ghost use Rattle.std.specs.Prelude.{◌≡◌, IfOk, OnOk};
ghost use Rattle.denial.specs.Denials.{answer, denial_report};
ghost use Rattle.meaning.specs.Orders.{role_box};
ghost use Rattle.book.specs.Sections.{says};
ghost use Rattle.book.specs.Views.{view};
ghost use Rattle.tableau.specs.Promises.{Opens};
ghost use Rattle.plan.specs.Building.{Planned, verdict, granting, VerdictOpens, box_of};

use crate::Plan;
use crate::forced::Forced;
use crate::sets::{Entries, grows, is_absurd, is_obliging, is_restricting, passed_on, said_by};
use crate::working::Draft;
use book::Book;
use denial::Denial;
use meaning::{Hierarchy, Order};
use roles::asked;
use roles::rows::Rows;
use roles::universal::Universal;

impl Plan {
    // Asks the hierarchy every question, once. Refused where its count is not the book's or leaves no number for the
    // universal role, and where there are too many working entries.
    pub fn new<H: Hierarchy>(book: &Book, hierarchy: &H) -> Result<Plan, Denial>
        ensures answer { answer granting denial_report result ≡ verdict (role_box (H.Order.size hierarchy.now) (H.Order.under hierarchy.now) (H.Hierarchy.passing hierarchy.now)) (says (view book.now)) }
        ensures planned { IfOk result (Planned (role_box (H.Order.size hierarchy.now) (H.Order.under hierarchy.now) (H.Hierarchy.passing hierarchy.now)) (says (view book.now))) }
        ensures opens { OnOk result (Opens (role_box (H.Order.size hierarchy.now) (H.Order.under hierarchy.now) (H.Hierarchy.passing hierarchy.now)) (says (view book.now))) }
    {
        let base = Rows::copied(hierarchy);
        over(book, &base)
    }
}

// The same for a hierarchy that is kept as rows.
fn over(book: &Book, base: &Rows) -> Result<Plan, Denial>
    ensures answer { answer granting denial_report result ≡ verdict (box_of base.now) (says (view book.now)) }
    ensures planned { IfOk result (Planned (box_of base.now) (says (view book.now))) }
    ensures opens { OnOk result (Opens (box_of base.now) (says (view book.now))) }
{
    let count = base.count();
    if count != book.role_count() {
        return Err(Denial::RoleCount(count));
    }
    let universal = Universal::over(base)?;
    let draft = Draft::new(book, base)?;
    Ok(assembled(&draft, &universal))
}

// The plan, where all tests were passed. Not inlined, so that the stack that it takes is free again before a search.
#[inline(never)]
fn assembled(draft: &Draft, universal: &Universal<Rows>) -> Plan
    requires opens { Opens (box_of draft.now.base.now) (says (view draft.now.book.now)) }
    requires over { universal.now.base.now ≡ draft.now.base.now }
    ensures { Planned (box_of draft.now.base.now) (says (view draft.now.book.now)) result }
{
    let width = draft.width;
    let entries = draft.entries();
    let rows = asked::rows(universal);
    let listed = Entries {
        items: &entries[..width],
    };
    let above = listed.above(&rows);
    let marks = asked::marks(universal);
    let propagated = draft.propagated();
    let said = said_by(&entries);
    let passed_on = passed_on(&entries, marks, &propagated);
    Plan {
        width,
        plain: draft.plain(),
        count: universal.count(),
        entries,
        rows,
        marks,
        above,
        propagated,
        absurd: listed.signed(is_absurd),
        growing: listed.signed(grows),
        obliging: listed.signed(is_obliging),
        restricting: listed.signed(is_restricting),
        said,
        passed_on,
        forced: Forced::of(&listed),
    }
}

// Of a lawful hierarchy and a sound book, a plan is granted exactly where what the theorems about the search ask for holds.
pub fn verdict_opens()
    ensures { VerdictOpens }
{}
