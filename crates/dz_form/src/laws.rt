//! Laws of canonical texts. They are for contracts alone: the calls do nothing when they run.

ghost use Rattle.std.specs.Prelude.{◌≡◌, ◌≤◌, sum};
ghost use Rattle.dz_algebra.specs.Polynomial.{Polynomial};
ghost use Rattle.dz_monomials.specs.Keeping.{IsKeepable};
ghost use Rattle.dz_rank.specs.Rankings.{RankingValue};
ghost use Rattle.dz_rank.specs.declared.symbols.Operator.{Operator};
ghost use Rattle.dz_rank.specs.declared.symbols.Symbol.{Symbol};
ghost use Rattle.dz_rank.specs.Symbols.{BelongsTo, IsOperatorOf, total_order};
ghost use Rattle.dz_syntax.specs.Names.{Declared, IsDeclared, signature_of};
ghost use Rattle.dz_syntax.specs.Items.{IsItem};
ghost use Rattle.dz_form.specs.Texts.{IsWritable, operator_text, polynomial_text, symbol_text};
ghost use Rattle.dz_form.specs.Steps.{polynomial_steps};

/// The canonical text of a polynomial is an item, whose steps are those of the polynomial.
pub fn text_is_item()
    ensures { (names : Declared) (p : Polynomial Symbol) → IsDeclared names → IsWritable names p
        → IsItem names (polynomial_text names p) (polynomial_steps p) }
{}

/// Two polynomials that have one text are one polynomial.
pub fn one_polynomial()
    ensures { (names : Declared) (r : RankingValue) (p q : Polynomial Symbol) → IsDeclared names
        → signature_of names ≡ r.signature → IsKeepable r p → IsKeepable r q
        → polynomial_text names p ≡ polynomial_text names q → p ≡ q }
{}

/// Two symbols that have one text are one symbol.
pub fn one_symbol()
    ensures { (names : Declared) (s t : Symbol) → IsDeclared names
        → BelongsTo (signature_of names) s → BelongsTo (signature_of names) t
        → total_order s ≤ 60 → total_order t ≤ 60
        → symbol_text names s ≡ symbol_text names t → s ≡ t }
{}

/// Two operators that have one text are one operator.
pub fn one_operator()
    ensures { (names : Declared) (o p : Operator) → IsDeclared names
        → IsOperatorOf names.independents o → IsOperatorOf names.independents p
        → sum o.counts ≤ 60 → sum p.counts ≤ 60
        → operator_text names o ≡ operator_text names p → o ≡ p }
{}
