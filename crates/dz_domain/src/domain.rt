// Differential domains.
ghost use Rattle.dz_algebra.specs.Domain.{Operations, DomainLaws};

/// A differential domain of characteristic zero (Ritt, Kolchin): a commutative ring without zero
/// divisors, with commuting derivations, in which no whole number but 0 is zero.
///
/// Its values are those elements, as contracts see them, that pass the test `is_value` of its
/// operations. An implementation gives the operations and proves the laws, which speak of values
/// alone.
pub trait Domain: Drop {
    /// What an element is in code.
    type Element: Drop;

    /// The number of derivations, the tests for a value and for zero, zero, one, sum, negative,
    /// product, and the derivations.
    ghost operations: { Operations Self.Element };

    /// That the operations are those of a differential domain of characteristic zero.
    ghost laws: { DomainLaws operations };
}
