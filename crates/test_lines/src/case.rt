// Why a case of which a line tells cannot be run.
ghost use Rattle.std.specs.Prelude.{◌≡◌};
ghost use Rattle.test_lines.specs.declared.case.CaseError.TheVariants.{OutOfMemory};

use std::alloc::{AllocError, AllocFailed};
use std::error::Error;
use std::fmt;

#[derive(Clone, Copy, Debug, PartialEq, Eq)]
pub enum CaseError {
    // Its given numbers, or the pairs of memory among the wanted ones, are none that such a case has.
    Given,
    // It has not as many wanted numbers as are compared.
    Wanted,
    OutOfMemory,
}

impl fmt::Display for CaseError {
    fn fmt<W: fmt::Write>(&self, f: &mut fmt::Formatter<W>) -> fmt::Result {
        f.write_str(match self {
            CaseError::Given => {
                "not the given numbers, or not pairs of memory, that a case of this file has"
            }
            CaseError::Wanted => "not as many wanted numbers as a case of this file has",
            CaseError::OutOfMemory => "there is no memory left to run it in",
        })
    }
}

impl Error for CaseError {}

impl From<AllocError> for CaseError {
    ghost from_gives = { λ _ e. e ≡ OutOfMemory };

    fn from(_error: AllocError) -> CaseError {
        CaseError::OutOfMemory
    }
}

impl<T: Drop> From<AllocFailed<T>> for CaseError {
    ghost from_gives = { λ _ e. e ≡ OutOfMemory };

    fn from(_error: AllocFailed<T>) -> CaseError {
        CaseError::OutOfMemory
    }
}
