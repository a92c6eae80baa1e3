//! One reduction (Ritt), on entries.

ghost use Rattle.std.specs.Prelude.{◌≡◌, ◌≤◌, ◌<◌, Ok, IfOk, IfErr};
ghost use Rattle.dz_algebra.specs.Parts.{degree};
ghost use Rattle.dz_rank.specs.Rankings.{ranking_cmp};
ghost use Rattle.dz_terms.specs.Entries.{IsEntry};
ghost use Rattle.dz_monomials.specs.Ranked.{symbols_under};
ghost use Rattle.dz_monomials.specs.Stops.{IsStop};
ghost use Rattle.dz_step.specs.Reductions.{IsReductionEntry, reduction_in};
ghost use Rattle.dz_step.specs.Step.{reduction_by};

use dz_rank::{Ranking, Symbol};
use dz_terms::{Entry, PolyStop, Sign, common_content, part_entry, product, quotient_by, sum};
use std::alloc::Global;

/// What a reduction makes: the factor times what is reduced is the rest, and the shift times what
/// it is reduced by.
#[derive(Drop)]
pub struct Reduction {
    pub factor: Entry,
    pub shift: Entry,
    pub rest: Entry,
}

/// The reduction of `f`, of degree d in `v`, by a polynomial `q` of degree `e` in `v` with the
/// initial `m`. The factor is m/k, the shift is `(c/k)*v^(d-e)`, and the rest is what the shift
/// times q leaves of the factor times f, where c is the coefficient of `v^d` in `f` and k the
/// greatest common divisor of the coefficients of m and c.
pub(crate) fn reduced(
    alloc: Global,
    ranking: &Ranking,
    f: &Entry,
    q: &Entry,
    m: Entry,
    v: Symbol,
    e: u16,
) -> Result<Reduction, PolyStop>
    requires f { IsEntry ranking.now f.now }
    requires q { IsEntry ranking.now q.now }
    requires m { IsEntry ranking.now m }
    requires occurs { 0 < degree (ranking_cmp ranking.now) v f.now.terms }
    requires enough { e ≤ degree (ranking_cmp ranking.now) v f.now.terms }
    ensures ok { IfOk result (λ x.
        reduction_by (symbols_under ranking.now) f.now.terms q.now.terms m.terms v
        (degree (ranking_cmp ranking.now) v f.now.terms) e ≡ Ok (reduction_in x)) }
    ensures entries { IfOk result (λ x. IsReductionEntry ranking.now x) }
    ensures refused { IfErr result (λ stop. IsStop stop
        (reduction_by (symbols_under ranking.now) f.now.terms q.now.terms m.terms v
        (degree (ranking_cmp ranking.now) v f.now.terms) e)) }
{
    let d = f.degree(ranking, v);
    let top = part_entry(alloc, ranking, f, v, d, d - e)?;
    let k = common_content(&m, &top);
    let factor = quotient_by(m, k);
    let shift = quotient_by(top, k);
    let left = product(alloc, ranking, &factor, f)?;
    let right = product(alloc, ranking, &shift, q)?;
    let rest = sum(alloc, ranking, &left, Sign::Minus, &right)?;
    Ok(Reduction {
        factor,
        shift,
        rest,
    })
}
