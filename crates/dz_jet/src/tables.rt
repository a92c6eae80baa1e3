//! Values of symbols in lists, found by binary search.

ghost use Rattle.std.specs.Prelude.{◌≡◌};
ghost use Rattle.dz_monomials.specs.Ranked.{symbols_under};
ghost use Rattle.dz_jet.specs.Jets.{given_to, value_in};
ghost use Rattle.dz_jet.specs.Tables.{AreSorted, HaveOneValue, IsTable};

use dz_int::Frac;
use dz_rank::{Ranking, Symbol};

/// The value that a sorted list gives a symbol.
pub(crate) fn find_value(ranking: &Ranking, values: &[(Symbol, Frac)], s: Symbol) -> Option<Frac>
    requires sorted { AreSorted ranking.now values.now }
    requires single { HaveOneValue values.now }
    ensures { result ≡ given_to (symbols_under ranking.now) values.now s }
{
    match values.binary_search_by(|p| ranking.compare(p.0, s)) {
        Ok(i) => Some(values[i].1),
        Err(_) => None,
    }
}

/// The value that a table gives a symbol: the independents stand first, in declared order.
fn find_in_table(ranking: &Ranking, values: &[(Symbol, Frac)], s: Symbol) -> Option<Frac>
    requires { IsTable ranking.now values.now }
    ensures { result ≡ given_to (symbols_under ranking.now) values.now s }
{
    let independents = ranking.signature().independents;
    match s {
        Symbol::Independent(i) if i < independents => Some(values[i as usize].1),
        Symbol::Independent(_) => None,
        derivative => find_value(ranking, &values[independents as usize..], derivative),
    }
}

/// The value that a table gives a symbol, zero where it gives none.
pub(crate) fn value_of(ranking: &Ranking, values: &[(Symbol, Frac)], s: Symbol) -> Frac
    requires { IsTable ranking.now values.now }
    ensures { result ≡ value_in (symbols_under ranking.now) values.now s }
{
    match find_in_table(ranking, values, s) {
        Some(value) => value,
        None => Frac::new(0, 1),
    }
}
