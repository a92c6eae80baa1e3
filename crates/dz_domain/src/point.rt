// Points of a domain.
ghost use Rattle.std.specs.Prelude.{◌≡◌, []};
ghost use Rattle.dz_domain.specs.Point.{IsPoint};

use crate::domain::Domain;
use std::alloc::Global;
use std::marker::Model;

/// A value for each independent and for each dependent, in a domain.
///
/// The i-th derivation takes the j-th independent to one where i = j, and to zero otherwise. A
/// contract sees the two lists of values.
#[derive(Drop)]
pub struct Point<D: Domain> {
    domain: D,
    independents: Vec<D::Element>,
    dependents: Vec<D::Element>,
}

impl<D: Domain> Model for Point<D> {
    ghost use Rattle.dz_domain.specs.Point.{Coordinates, IsPoint};

    ghost Value = { Coordinates D.Element };

    ghost view = { λ p. record {
      independents = p.independents.items;
      dependents = p.dependents.items;
    } };

    ghost invariant = { λ p. IsPoint D.operations
        (record { independents = p.independents.items; dependents = p.dependents.items }) };
}

impl<D: Domain> Point<D> {
    /// The point with these values. It takes no memory.
    pub fn new(domain: D, independents: Vec<D::Element>, dependents: Vec<D::Element>) -> Point<D>
        requires { IsPoint D.operations
            (record { independents = independents.items; dependents = dependents.items }) }
        ensures { result
            ≡ record { independents = independents.items; dependents = dependents.items } }
    {
        Point {
            domain,
            independents,
            dependents,
        }
    }

    /// The point with no independent and no dependent. It takes no memory.
    pub fn empty(alloc: Global, domain: D) -> Point<D>
        ensures { result ≡ record { independents = []; dependents = [] } }
    {
        Point {
            domain,
            independents: Vec::new(alloc),
            dependents: Vec::new(alloc),
        }
    }

    /// What is true of every point, for contracts: the call does nothing when it runs.
    pub fn is_point(&self)
        ensures { IsPoint D.operations self.now }
    {
        let _ = &self.domain;
    }
}

#[cfg(test)]
mod tests {
    use super::*;
    use crate::adjoin::{Adjoin, Coefficients};
    use crate::whole::Whole;
    use std::test::Fail;

    // polynomials in x, with u the square of x; polynomials in x and y, with u their product; and
    // whole numbers, with no derivation
    #[test]
    fn points_over_polynomials(rt: HostRuntime) -> Result<(), Fail> {
        let alloc = rt.alloc();
        let x = Coefficients::new(vec![in alloc; 0i128, 1]?);
        let square = Coefficients::new(vec![in alloc; 0i128, 0, 1]?);
        let parabola = Point::new(
            Adjoin::new(Whole::new()),
            vec![in alloc; x]?,
            vec![in alloc; square]?,
        );
        assert!(rt; parabola.independents[0].items() == [0i128, 1].as_slice());
        assert!(rt; parabola.dependents[0].items() == [0i128, 0, 1].as_slice());

        let x = Coefficients::new(vec![in alloc; Coefficients::new(vec![in alloc; 0i128, 1]?)]?);
        let none = Coefficients::new(Vec::new(alloc));
        let y = Coefficients::new(vec![in alloc; none, Coefficients::new(vec![in alloc; 1i128]?)]?);
        let none = Coefficients::new(Vec::new(alloc));
        let product = Coefficients::new(vec![in alloc;
            none,
            Coefficients::new(vec![in alloc; 0i128, 1]?),
        ]?);
        let saddle = Point::new(
            Adjoin::new(Adjoin::new(Whole::new())),
            vec![in alloc; x, y]?,
            vec![in alloc; product]?,
        );
        assert!(rt; saddle.independents[0].items()[0].items() == [0i128, 1].as_slice());
        assert!(rt; saddle.independents[1].items()[1].items() == [1i128].as_slice());
        assert!(rt; saddle.dependents[0].items()[1].items() == [0i128, 1].as_slice());

        let numbers = Point::empty(alloc, Whole::new());
        assert!(rt; numbers.independents.is_empty() && numbers.dependents.is_empty());
        Ok(())
    }
}
