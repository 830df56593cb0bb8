// Why a line of a script has no answer of its own.
ghost use Rattle.std.specs.Prelude.{◌≡◌, alloc_error};
ghost use Rattle.denial.specs.Denials.{record_report, denial_report};
ghost use Rattle.script.specs.declared.failure.Failure.TheVariants.{BadLine, Denied, OutOfMemory};

use denial::{Denial, RecordDenial, Report};
use grammar::NoCall;
use std::alloc::{AllocError, AllocFailed};

#[derive(Clone, Copy)]
pub enum Failure {
    // the line is no call
    BadLine,
    // the call is refused
    Denied(Report),
    OutOfMemory(AllocError),
}

impl From<NoCall> for Failure {
    ghost from_gives = { λ _ r. r ≡ BadLine };

    fn from(_no_call: NoCall) -> Failure {
        Failure::BadLine
    }
}

impl From<RecordDenial> for Failure {
    ghost from_gives = { λ d r. r ≡ Denied (record_report d) };

    fn from(denial: RecordDenial) -> Failure {
        Failure::Denied(denial.report())
    }
}

impl From<Denial> for Failure {
    ghost from_gives = { λ d r. r ≡ Denied (denial_report d) };

    fn from(denial: Denial) -> Failure {
        Failure::Denied(denial.report())
    }
}

impl From<AllocError> for Failure {
    ghost from_gives = { λ e r. r ≡ OutOfMemory e };

    fn from(error: AllocError) -> Failure {
        Failure::OutOfMemory(error)
    }
}

impl<T: Drop> From<AllocFailed<T>> for Failure {
    ghost from_gives = { λ _ r. r ≡ OutOfMemory alloc_error };

    fn from(failed: AllocFailed<T>) -> Failure {
        Failure::OutOfMemory(failed.into())
    }
}
