//! Derivation operators and symbols.

ghost use Rattle.std.specs.Prelude.{◌≡◌};
ghost use Rattle.dz_rank.specs.declared.symbols.Symbol.TheVariants.{Independent};

/// A derivation operator: how often each derivation is taken, the first independent's first.
///
/// Under a signature with n independents the exponents from position n on are zero.
#[derive(Clone, Copy, Debug, PartialEq, Eq, Hash)]
pub struct Operator {
    pub counts: [u8; 4],
}

/// An independent, or a derivative: a dependent with an operator. Numbers count from 0.
#[derive(Clone, Copy, Debug, PartialEq, Eq, Hash)]
pub enum Symbol {
    Independent(u8),
    Derivative { dependent: u8, operator: Operator },
}

/// The first independent, so that symbols can be kept in small vectors.
impl Default for Symbol {
    fn default() -> Symbol
        ensures { result ≡ Independent 0 }
    {
        Symbol::Independent(0)
    }
}
