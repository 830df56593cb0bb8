// What a register tells of itself.
ghost use Rattle.std.specs.Prelude.{◌≡◌, ◌<◌, ◌≤◌, length, IfErr, IfOk, IfSome, OnOk};
ghost use Rattle.denial.specs.declared.Denial.{Denial};
ghost use Rattle.runs.specs.Setups.{stand};
ghost use Rattle.register.specs.Registers.{setup_of, classes_of};

use crate::Register;
use denial::Denial;

impl Register {
    // w, the number of working entries: with 3 ^ w nodes no call is refused for want of room.
    pub fn width(&self) -> usize
        ensures { result ≡ (setup_of self.now).table.width }
    {
        self.plan.width
    }

    // How many roles the book has: a sheet for a world of m individuals needs 65 words and m for each of them.
    pub fn role_count(&self) -> usize
        ensures { result ≡ (setup_of self.now).roles }
    {
        self.plan.count - 1
    }

    // How many class numbers were given so far besides 0.
    pub fn class_count(&self) -> usize
        ensures { result ≡ length (classes_of self.now) }
    {
        self.classes.len()
    }

    // The entry by which the class stands; none for class 0, which is nothing. Refused with 9 where the number was not given.
    #[tactic(auto, unfolding(runs::specs::Setups::stand))]
    pub(crate) fn stand(&self, class: usize) -> Result<Option<usize>, Denial>
        ensures given { OnOk result (class ≤ length (classes_of self.now)) }
        ensures value { IfOk result (λ entry. entry ≡ stand (classes_of self.now) class) }
        ensures few { IfOk result (λ entry. IfSome entry (λ e. e < 60)) }
        ensures refused { IfErr result (λ d. (length (classes_of self.now) < class) × (d ≡ Denial.Class class)) }
    {
        if class > self.class_count() {
            return Err(Denial::Class(class));
        }
        if class == 0 {
            return Ok(None);
        }
        Ok(Some(self.classes.as_slice()[class - 1] as usize))
    }
}
