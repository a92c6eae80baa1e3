// The system that is made from a seed.
ghost use Rattle.std.specs.Prelude.{◌≡◌, ◌≤◌, ◌+◌, All, IfOk, length, map};
ghost use Rattle.dz_diff.specs.States.{MeanAll};
ghost use Rattle.dz_poly.specs.Books.{IsKept};
ghost use Rattle.dz_rank.specs.Rankings.{ranking_cmp};
ghost use Rattle.dz_sample.specs.Equations.{IsEquationOf, equation_polynomial};
ghost use Rattle.dz_sample.specs.Ranking.{sample_ranking};
ghost use Rattle.dz_sample.specs.System.{sampled_system};
ghost use Rattle.dz_move.specs.Systems.{IsSystemIn, system_in};

use crate::equations::{SampleEquation, sample_equations};
use crate::polynomials::equation_poly;
use dz_move::System;
use dz_poly::{Book, Poly, PolyStop};
use std::alloc::{AllocError, Global};

/// The polynomials of equations.
fn equation_polys(
    alloc: Global,
    book: &mut Book,
    equations: &[SampleEquation],
) -> Result<Vec<Poly>, AllocError>
    requires { All (λ e. IsEquationOf book.old.ranking.signature e) equations.now }
    ensures means { IfOk result (λ ps. MeanAll book.new ps.items
        (map (equation_polynomial (ranking_cmp book.old.ranking)) equations.now)) }
    ensures kept { IsKept book.old book.new }
{
    let mut polys = Vec::new(alloc);
    'equations: for equation in equations {
        match equation_poly(book, *equation) {
            Ok(p) => polys.push(p)?,
            Err(PolyStop::Memory) => return Err(AllocError),
            Err(_) => unreachable!(),
        }
    }
    Ok(polys)
}

/// The system that a seed and a size make. The book keeps what it had, and want of memory alone
/// refuses a system.
pub fn sample_system(
    alloc: Global,
    book: &mut Book,
    seed: u32,
    size: u32,
) -> Result<System, AllocError>
    requires ranking { book.old.ranking ≡ sample_ranking }
    requires few { size ≤ 200 }
    ensures value { IfOk result (λ s. system_in book.new s ≡ sampled_system seed size) }
    ensures count { IfOk result (λ s. length s.equations ≡ 16 + size) }
    ensures system { IfOk result (λ s. IsSystemIn book.new s) }
    ensures kept { IsKept book.old book.new }
{
    let equations = sample_equations(alloc, seed, size)?;
    let polys = equation_polys(alloc, book, &equations)?;
    match System::new(book, polys, Vec::new(alloc)) {
        Ok(system) => Ok(system),
        Err(_) => unreachable!(),
    }
}
