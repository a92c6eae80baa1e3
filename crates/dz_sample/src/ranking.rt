// The ranking of the systems that are made from seeds.
ghost use Rattle.std.specs.Prelude.{◌≡◌, IfOk};
ghost use Rattle.dz_sample.specs.Ranking.{sample_ranking};

use dz_rank::{Block, Kind, RankFault, Ranking, Signature};
use std::alloc::{AllocError, Global};

/// The ranking of a sample: two independents, and eight dependents in one block of the kind
/// `grlexA`, the first of which is the greatest.
pub fn sample_ranking(alloc: Global) -> Result<Ranking, AllocError>
    ensures { IfOk result (λ ranking. ranking ≡ sample_ranking) }
{
    let signature = Signature {
        independents: 2,
        dependents: 8,
    };
    let blocks = [Block {
        kind: Kind::GrlexA,
        dependents: vec![in alloc; 0, 1, 2, 3, 4, 5, 6, 7]?,
    }];
    match Ranking::new(alloc, signature, &blocks) {
        Ok(ranking) => Ok(ranking),
        Err(RankFault::Memory) => Err(AllocError),
        Err(RankFault::Twice(_)) => unreachable!(),
        Err(RankFault::Missing(_)) => unreachable!(),
    }
}
