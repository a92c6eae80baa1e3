//! Fractions at the ends of their range.

use crate::fractions::Frac;
use crate::majorants::Majorant;

/// The greatest numerator and denominator, a prime.
const MOST: i128 = i128::MAX;

/// The numerator and the denominator of an answer.
fn parts(answer: Option<Frac>) -> Option<(i128, i128)> {
    match answer {
        Some(fraction) => Some((fraction.numerator(), fraction.denominator())),
        None => None,
    }
}

/// The quotient; `None` for a zero divisor too.
fn quotient(a: Frac, b: Frac) -> Option<Frac> {
    if b.numerator() == 0 { None } else { a.div(b) }
}

#[test]
fn ends_of_the_range(rt: HostRuntime) {
    let (one, half) = (Frac::new(1, 1), Frac::new(-2, 4));
    let (most, least) = (Frac::new(MOST, 1), Frac::new(-MOST, 1));
    let (smallest, two) = (Frac::new(1, MOST), Frac::new(6, 3));
    for (answer, expected) in [
        (most.add(Frac::new(0, 7)), Some((MOST, 1))),
        (least.add(Frac::new(0, 1)), Some((-MOST, 1))),
        (most.add(one), None),
        (most.add(least), None),
        (smallest.add(smallest), Some((2, MOST))),
        (smallest.add(half), None),
        (one.add(half), Some((1, 2))),
        (half.add(half), Some((-1, 1))),
        (most.mul(smallest), Some((1, 1))),
        (least.mul(smallest), Some((-1, 1))),
        (least.mul(one.negative()), Some((MOST, 1))),
        (most.mul(two), None),
        (smallest.mul(half), None),
        (quotient(most, two), Some((MOST, 2))),
        (quotient(one, least), Some((-1, MOST))),
        (quotient(two, smallest), None),
    ] {
        assert!(rt; parts(answer) == expected);
    }
    let mut majorant = Majorant::new();
    assert!(rt; majorant.add_product(-MOST, 1));
    assert!(rt; !majorant.add_product(1, -1));
    assert!(rt; majorant.value() == MOST as u128);
}
