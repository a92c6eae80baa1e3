//! The law of leaders of derivatives.
//!
//! The function has an empty body: it does nothing, and its clause is the law.

ghost use Rattle.std.specs.Prelude.{◌≤◌};
ghost use Rattle.dz_algebra.specs.Parts.{separant};
ghost use Rattle.dz_algebra.specs.Polynomial.{Polynomial};
ghost use Rattle.dz_diff.specs.Laws.{IsLinearIn, IsProperDerivative};
ghost use Rattle.dz_rank.specs.Rankings.{RankingValue, ranking_cmp};
ghost use Rattle.dz_rank.specs.Symbols.{derivative_by};
ghost use Rattle.dz_rank.specs.declared.symbols.Operator.{Operator};
ghost use Rattle.dz_rank.specs.declared.symbols.Symbol.{Symbol};

/// The derivative of a polynomial by a proper operator has that derivative of the leader as its
/// leader. It has degree 1 there, and its initial is the separant.
pub fn proper_derivatives_are_linear()
    ensures { (r : RankingValue) (t : Operator) (q p : Polynomial Symbol) (l : Symbol)
        → r.signature.independents ≤ 4 → IsProperDerivative r t q l p
        → IsLinearIn r (derivative_by t l) (separant (ranking_cmp r) l q) p }
{}
