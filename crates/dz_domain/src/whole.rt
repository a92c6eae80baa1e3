// The whole numbers.
ghost use Rattle.dz_algebra.specs.Whole.{whole_operations, whole_laws};

use crate::domain::Domain;

/// The whole numbers, of any size, without a derivation.
///
/// An element is an `i128` in code. A contract sees it as a whole number, and the laws hold for
/// every whole number.
#[derive(Clone, Copy, Debug)]
pub struct Whole;

impl Whole {
    /// The domain of the whole numbers.
    pub fn new() -> Whole {
        Whole
    }
}

impl Domain for Whole {
    type Element = i128;

    ghost operations = { whole_operations };

    ghost laws = { whole_laws };
}
