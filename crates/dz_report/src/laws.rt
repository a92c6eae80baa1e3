//! The laws of reports.
//!
//! The function has an empty body: it does nothing, and its clause is the law.

ghost use Rattle.std.specs.Prelude.{ℕ, List};
ghost use Rattle.dz_algebra.specs.Polynomial.{Polynomial};
ghost use Rattle.dz_rank.specs.declared.symbols.Symbol.{Symbol};
ghost use Rattle.dz_diff.specs.Operations.{Setting};
ghost use Rattle.dz_diff.specs.State.{State};
ghost use Rattle.dz_syntax.specs.Names.{Declared};
ghost use Rattle.dz_report.specs.Laws.{VanishingLaws};

/// `vanishing yes` is told of a question exactly where the full free runs on it by all chains end
/// at zero.
pub fn vanishing_is_told()
    ensures { (g : Setting) (names : Declared) (budget : ℕ) (chains : List State)
        (f : Polynomial Symbol) → VanishingLaws g names budget chains f }
{}
