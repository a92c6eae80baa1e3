//! The laws of the definitions.
//!
//! Each function has an empty body: it does nothing, and its clause is the law.

ghost use Rattle.std.specs.Prelude.{◌≡◌, ◌≢◌, ℕ, [], Bool, IsTrue};
ghost use Rattle.std.specs.declared.cmp.Ordering.{Ordering};
ghost use Rattle.dz_algebra.specs.Domain.{Operations, DomainLaws};
ghost use Rattle.dz_algebra.specs.Order.{IsOrder};
ghost use Rattle.dz_algebra.specs.Polynomial.{Polynomial, IsPolynomial, PolynomialIn};
ghost use Rattle.dz_algebra.specs.Derivation.{Rate};
ghost use Rattle.dz_algebra.specs.Symbols.{Symbols};
ghost use Rattle.dz_algebra.specs.Value.{value};
ghost use Rattle.dz_algebra.specs.Examples.{DerivationExamples, OperationExamples};
ghost use Rattle.dz_algebra.specs.Laws.{
  MonomialLaws,
  CoefficientLaws,
  ClosureLaws,
  RingLaws,
  DerivationLaws,
  DerivationsCommute,
  PowerLaws,
  LeaderLaws,
  SymbolLaws,
  NormLaws,
  OperationLaws,
  ValueLaws,
  HaveDualDerivations,
};

/// The order of monomials is total, looks at the greatest symbol at which two monomials differ, and
/// is kept by multiplying.
#[tactic(auto, using(crate::proofs::LawProofs::monomial_laws))]
pub fn monomials_are_ordered<S>()
    ensures { (cmp : S → S → Ordering) → IsOrder cmp → MonomialLaws cmp }
{}

/// A polynomial is the finite map of its coefficients, and contributions make the polynomial
/// whose coefficients are their sums.
#[tactic(auto, using(crate::proofs::LawProofs::coefficient_laws))]
pub fn polynomials_are_maps<S>()
    ensures { (cmp : S → S → Ordering) → IsOrder cmp → CoefficientLaws cmp }
{}

/// Sums, differences, negatives and products of polynomials are polynomials.
#[tactic(auto, using(crate::proofs::LawProofs::closure_laws))]
pub fn operations_make_polynomials<S>()
    ensures { (cmp : S → S → Ordering) → IsOrder cmp → ClosureLaws cmp }
{}

/// Polynomials are a commutative ring.
#[tactic(auto, using(crate::proofs::LawProofs::ring_laws))]
pub fn polynomials_are_a_ring<S>()
    ensures { (cmp : S → S → Ordering) → IsOrder cmp → RingLaws cmp }
{}

/// A derivation is additive and obeys Leibniz' rule.
#[tactic(auto, using(crate::proofs::LawProofs::derivation_laws))]
pub fn derivation_obeys_leibniz<S>()
    ensures { (cmp : S → S → Ordering) (rate : S → Rate S) → IsOrder cmp → DerivationLaws cmp rate }
{}

/// Two derivations commute, if they do at each symbol.
#[tactic(auto, using(crate::proofs::LawProofs::commute_laws))]
pub fn derivations_commute<S>()
    ensures { (cmp : S → S → Ordering) → IsOrder cmp → DerivationsCommute cmp }
{}

/// The coefficient of a power of a symbol is a polynomial with the coefficients at that power.
#[tactic(auto, using(crate::proofs::LawProofs::power_laws))]
pub fn coefficients_of_powers<S>()
    ensures { (cmp : S → S → Ordering) → IsOrder cmp → (s : S) → PowerLaws cmp s }
{}

/// The leader of a polynomial is its greatest derivative.
#[tactic(auto, using(crate::proofs::LawProofs::leader_laws))]
pub fn leader_is_greatest<S>()
    ensures { (g : Symbols S) → IsOrder g.cmp → LeaderLaws g }
{}

/// The operations bring in no symbols.
#[tactic(auto, using(crate::proofs::LawProofs::symbol_laws))]
pub fn operations_keep_symbols<S>()
    ensures { (cmp : S → S → Ordering) (test : S → Bool) → SymbolLaws cmp test }
{}

/// The norm of a polynomial is one of its multiples, and the same for all of them.
#[tactic(auto, using(crate::proofs::LawProofs::norm_laws))]
pub fn norm_is_unique<S>()
    ensures { (cmp : S → S → Ordering) → NormLaws cmp }
{}

/// An operation that is not refused answers the polynomial that its contributions make.
#[tactic(auto, using(crate::proofs::LawProofs::operation_laws))]
pub fn operations_answer_polynomials<S>()
    ensures { (g : Symbols S) → IsOrder g.cmp → OperationLaws g }
{}

/// Derivatives, parts and norms of worked examples are as they were computed by hand.
#[tactic(auto, using(crate::proofs::ExampleProofs::derivation_examples))]
pub fn worked_derivations()
    ensures { DerivationExamples }
{}

/// Contributions, supports and answers of worked operations are as they were computed by hand.
#[tactic(auto, using(crate::proofs::ExampleProofs::operation_examples))]
pub fn worked_operations()
    ensures { OperationExamples }
{}

/// The value of a sum is the sum of the values, and so for products and derivatives.
#[tactic(auto, using(crate::proofs::LawProofs::value_laws))]
pub fn values_keep_operations<S, E>()
    ensures { (cmp : S → S → Ordering) → IsOrder cmp → (o : Operations E) → DomainLaws o
        → (at : S → E) → ((s : S) → IsTrue (o.is_value (at s))) → ValueLaws cmp o at }
{}

/// A polynomial in independents alone that is not zero has no value zero.
#[tactic(auto, using(crate::proofs::LawProofs::nonzero_laws))]
pub fn nonzero_never_vanishes<S, E>()
    ensures { (cmp : S → S → Ordering) → IsOrder cmp → (o : Operations E) → DomainLaws o
        → (at : S → E) → ((s : S) → IsTrue (o.is_value (at s)))
        → (test : S → Bool) (place : S → ℕ) → HaveDualDerivations cmp o at test place
        → (p : Polynomial S) → IsPolynomial cmp p → PolynomialIn (λ s. IsTrue (test s)) p
        → p ≢ []
        → value o.arithmetic at p ≢ o.zero }
{}
