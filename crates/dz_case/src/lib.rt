//! What programs of cases share: their input and output, the lines of cases and their words, and
//! systems with their books.
#![tactic(auto)]

mod programs;
mod systems;
mod words;

use dz_poly::PolyStop;
pub use programs::answer_input;
use std::alloc::{AllocError, AllocFailed};
pub use systems::{book_for, read_case, system_of, values};
pub use words::{cases_of, number, place, split_at_first};

/// Why a case is not judged.
#[derive(Clone, Copy, Debug, PartialEq, Eq)]
pub enum CaseStop {
    Memory,
    /// It is no case: a line is missing, or is not what stands there, or the system passes a limit.
    NoCase,
}

impl From<AllocError> for CaseStop {
    fn from(_error: AllocError) -> CaseStop {
        CaseStop::Memory
    }
}

impl<T: Drop> From<AllocFailed<T>> for CaseStop {
    fn from(_error: AllocFailed<T>) -> CaseStop {
        CaseStop::Memory
    }
}

impl From<PolyStop> for CaseStop {
    fn from(stop: PolyStop) -> CaseStop {
        match stop {
            PolyStop::Memory => CaseStop::Memory,
            _ => CaseStop::NoCase,
        }
    }
}
