//! What certified trees, closed states and runs to zero mean at points.
//!
//! Each function has an empty body: it does nothing, and its clause is the law.

ghost use Rattle.dz_algebra.specs.Domain.{Operations, DomainLaws};
ghost use Rattle.dz_rank.specs.Rankings.{RankingValue};
ghost use Rattle.dz_domain.specs.Point.{Coordinates, FitsSignature, IsPoint};
ghost use Rattle.dz_zeros.specs.Laws.{ZeroSets};

/// In every differential domain, at every point that fits the signature: the point solves a system
/// exactly when it solves the state at some chain or open end of a certified tree for it; it solves
/// no closed state; a polynomial with a free run to zero by a state has value zero where the point
/// solves the state, and so has one with such a run by each chain of a complete certified tree,
/// where the point solves its system.
#[tactic(auto, using(crate::proofs::ZeroSetLaws::zero_sets))]
pub fn trees_keep_solutions<E>()
    ensures { (r : RankingValue) (o : Operations E) → DomainLaws o → (c : Coordinates E) → IsPoint o c
        → FitsSignature r.signature c → ZeroSets r o c }
{}
