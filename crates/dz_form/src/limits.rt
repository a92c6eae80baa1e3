//! The words of limits.

ghost use Rattle.std.specs.Prelude.{◌≡◌};
ghost use Rattle.dz_form.specs.Limits.{limit_word};

use dz_poly::Limit;

/// The word of a limit.
pub fn limit_word(limit: Limit) -> &'static [u8]
    ensures { result.now ≡ limit_word limit }
{
    match limit {
        Limit::Order => b"order",
        Limit::Exponent => b"exponent",
        Limit::Symbols => b"symbols",
        Limit::Terms => b"terms",
        Limit::Polynomials => b"polynomials",
        Limit::Node => b"node",
        Limit::Splits => b"splits",
    }
}
