//! Worked examples.

ghost use Rattle.std.specs.Prelude.{◌≡◌, IfOk};
ghost use Rattle.dz_rank.specs.Rankings.{block_values, dependents_of};

use crate::rankings::{Block, Kind, RankFault, Ranking, Signature};
use crate::symbols::{Operator, Symbol};
use std::alloc::{AllocError, Global};
use std::cmp::Ordering;

/// One block.
fn block(alloc: Global, kind: Kind, dependents: &[u8]) -> Result<Vec<Block>, AllocError>
    ensures { IfOk result (λ blocks. dependents_of (block_values blocks.items) ≡ dependents.now) }
{
    let mut named = Vec::new(alloc);
    named.extend_from_slice(dependents)?;
    let mut blocks = Vec::new(alloc);
    blocks.push(Block {
        kind,
        dependents: named,
    })?;
    Ok(blocks)
}

/// A derivative by three independents.
fn derivative(dependent: u8, x: u8, y: u8, z: u8) -> Symbol {
    Symbol::Derivative {
        dependent,
        operator: Operator {
            counts: [x, y, z, 0],
        },
    }
}

#[test]
fn worked_rankings(rt: HostRuntime) -> Result<(), RankFault> {
    let alloc = rt.alloc();
    let signature = Signature {
        independents: 3,
        dependents: 2,
    };
    for (kind, greater, less) in [
        (Kind::GrlexA, derivative(1, 1, 0, 0), derivative(0, 0, 1, 0)),
        (Kind::GrlexB, derivative(0, 0, 1, 0), derivative(1, 1, 0, 0)),
        (Kind::LexA, derivative(1, 1, 0, 0), derivative(0, 0, 2, 0)),
        (Kind::GrlexA, derivative(0, 0, 2, 0), derivative(1, 1, 0, 0)),
        (Kind::GrlexA, derivative(0, 1, 0, 1), derivative(0, 0, 2, 0)),
        (
            Kind::DegrevA,
            derivative(0, 0, 2, 0),
            derivative(0, 1, 0, 1),
        ),
    ] {
        let blocks = block(alloc, kind, &[0, 1]).map_err(|_| RankFault::Memory)?;
        let ranking = Ranking::new(alloc, signature, &blocks)?;
        assert!(rt; ranking.compare(greater, less) == Ordering::Greater);
    }
    let twice = block(alloc, Kind::GrlexA, &[0, 0]).map_err(|_| RankFault::Memory)?;
    let missing = block(alloc, Kind::GrlexA, &[1]).map_err(|_| RankFault::Memory)?;
    let good = block(alloc, Kind::GrlexA, &[1, 0]).map_err(|_| RankFault::Memory)?;
    assert!(rt;
        matches!(
            Ranking::new(alloc, signature, &twice),
            Err(RankFault::Twice(0))
        )
    );
    assert!(rt;
        matches!(
            Ranking::new(alloc, signature, &missing),
            Err(RankFault::Missing(0))
        )
    );
    assert!(rt; matches!(Ranking::new(alloc, signature, &good), Ok(_)));
    Ok(())
}
