//! Derivation operators on the terms of polynomials.

ghost use Rattle.std.specs.Prelude.{◌<◌, Ok};
ghost use Rattle.dz_terms.specs.Answers.{Answers};
ghost use Rattle.dz_terms.specs.Entries.{IsEntry};
ghost use Rattle.dz_monomials.specs.Ranked.{symbols_under};
ghost use Rattle.dz_diff.specs.Operations.{iterated_answer, operator_answer, setting_of};

use dz_rank::{Operator, Ranking};
use dz_terms::{Entry, PolyStop, copied, derivative};
use std::alloc::Global;

#[tactic(auto, using(dz_terms::proofs::Answered::answered, dz_terms::proofs::Answered::stopped))]
/// The derivative by the independent with a number, taken so often.
fn iterated(
    alloc: Global,
    ranking: &Ranking,
    entry: Entry,
    i: u8,
    times: u8,
) -> Result<Entry, PolyStop>
    requires entry { IsEntry ranking.now entry }
    requires within { i < ranking.now.signature.independents }
    ensures { Answers ranking.now result
        (iterated_answer (symbols_under ranking.now) i times entry.terms) }
{
    let mut entry = entry;
    for _time in 0..times {
        entry = derivative(alloc, ranking, &entry, i)?;
    }
    Ok(entry)
}

#[tactic(auto, using(dz_terms::proofs::Answered::answered, dz_terms::proofs::Answered::stopped))]
/// The derivative by an operator, the first independent's derivations first; the polynomial itself
/// where it takes none.
pub fn applied(
    alloc: Global,
    ranking: &Ranking,
    entry: &Entry,
    operator: Operator,
) -> Result<Entry, PolyStop>
    requires { IsEntry ranking.now entry.now }
    ensures { Answers ranking.now result
        (operator_answer (setting_of ranking.now) operator entry.now.terms) }
{
    let independents = ranking.signature().independents;
    let mut answer = copied(alloc, entry)?;
    for i in 0..independents {
        answer = iterated(alloc, ranking, answer, i, operator.counts[i as usize])?;
    }
    Ok(answer)
}
