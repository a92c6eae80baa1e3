// Polynomials in one new variable over a domain.
ghost use Rattle.std.specs.Prelude.{◌≡◌};
ghost use Rattle.dz_domain.specs.Adjoin.{adjoin_operations};
ghost use Rattle.dz_domain.specs.AdjoinLaws.{adjoin_laws};

use crate::domain::Domain;
use std::marker::Model;

/// The coefficients of a polynomial in one variable, from the constant upwards. A contract sees the
/// list of them.
#[derive(Drop)]
pub struct Coefficients<E> {
    list: Vec<E>,
}

impl<E> Model for Coefficients<E> {
    ghost use Rattle.std.specs.Prelude.{List};

    ghost Value = { List E };

    ghost view = { λ c. c.list.items };
}

impl<E> Coefficients<E> {
    /// These coefficients. It takes no memory.
    pub fn new(items: Vec<E>) -> Coefficients<E>
        ensures { result ≡ items.items }
    {
        Coefficients { list: items }
    }

    /// The coefficients, from the constant upwards.
    pub fn items(&self) -> &[E]
        ensures { result.now ≡ self.now }
    {
        &self.list
    }
}

/// The polynomials in one new variable over the values of a domain.
///
/// A value is a list of values whose last member, where there is one, is not zero; zero is the
/// empty list. The derivations are those of the domain, which act on each coefficient, and last the
/// one by the new variable. The laws follow from those of the domain alone, so that an `Adjoin` of
/// an `Adjoin` is a domain too.
#[derive(Drop)]
pub struct Adjoin<D> {
    below: D,
}

impl<D> Adjoin<D> {
    /// The polynomials over the domain `below`. It takes no memory.
    pub fn new(below: D) -> Adjoin<D> {
        Adjoin { below }
    }
}

impl<D: Domain> Domain for Adjoin<D> {
    type Element = Coefficients<D::Element>;

    ghost operations = { adjoin_operations D.operations };

    ghost laws = { adjoin_laws D.laws };
}
