//! Systems by the names of their polynomials.

ghost use Rattle.std.specs.Prelude.{◌≡◌, ◌+◌, ◌-◌, ◌^◌, min};
ghost use Rattle.dz_diff.specs.State.{terms_of};
ghost use Rattle.dz_diff.specs.States.{LiveAll, polynomials};

use dz_poly::{Book, Limit, Poly, term_count};
use std::marker::Model;

/// The equations and inequations of a book that are handed in.
#[derive(Drop)]
pub struct System {
    equations: Vec<Poly>,
    inequations: Vec<Poly>,
}

impl Model for System {
    ghost use Rattle.dz_move.specs.Systems.{SystemValue};

    ghost Value = { SystemValue };

    ghost view = { λ s. record {
      equations = s.equations.items;
      inequations = s.inequations.items;
    } };
}

/// The number of terms in polynomials, up to the greatest number that a `usize` has.
pub(crate) fn terms_of(book: &Book, polys: &[Poly]) -> usize
    requires { LiveAll book.now polys.now }
    ensures { result ≡ min (terms_of (polynomials book.now polys.now)) (2 ^ 64 - 1) }
{
    let mut terms = 0usize;
    'polys: for p in polys {
        terms = terms.saturating_add(term_count(book, *p));
    }
    terms
}

impl System {
    ghost use Rattle.std.specs.Prelude.{◌≡◌, Some, IfOk, IfErr};
    ghost use Rattle.dz_diff.specs.States.{LiveAll, polynomials};
    ghost use Rattle.dz_move.specs.Systems.{IsSystemIn, system_limit};

    /// The system with these lists, or the limit that it passes: it has at most 256 polynomials,
    /// and at most 65,536 terms in them together.
    pub fn new(book: &Book, equations: Vec<Poly>, inequations: Vec<Poly>) -> Result<System, Limit>
        requires equations { LiveAll book.now equations.items }
        requires inequations { LiveAll book.now inequations.items }
        ensures ok { IfOk result (λ s. s
            ≡ record { equations = equations.items; inequations = inequations.items }) }
        ensures within { IfOk result (λ s. IsSystemIn book.now s) }
        ensures refused { IfErr result (λ limit. system_limit (record {
          equations = polynomials book.now equations.items;
          inequations = polynomials book.now inequations.items;
        }) ≡ Some limit) }
    {
        if equations.len() > 256 || inequations.len() > 256 - equations.len() {
            return Err(Limit::Polynomials);
        }
        let terms = terms_of(book, &equations).saturating_add(terms_of(book, &inequations));
        if terms > 65_536 {
            return Err(Limit::Node);
        }
        Ok(System {
            equations,
            inequations,
        })
    }

    /// The equations that were handed in.
    pub fn equations(&self) -> &[Poly]
        ensures { result.now ≡ self.now.equations }
    {
        self.equations.as_slice()
    }

    /// The inequations that were handed in.
    pub fn inequations(&self) -> &[Poly]
        ensures { result.now ≡ self.now.inequations }
    {
        self.inequations.as_slice()
    }
}
