//! Fractions in lowest terms.

ghost use Rattle.std.specs.Prelude.{◌≤◌};
ghost use Rattle.std.specs.Int.{IsGcd};
ghost use Rattle.report.specs.Report.{IsInLowestTerms};

// The terms of target / capacity without their common divisors.
pub fn lowest_terms(target: u16, capacity: u16) -> (u16, u16)
    requires { 1 ≤ capacity }
    ensures { IsInLowestTerms target capacity result.0 result.1 }
{
    let divisor = common_divisor(target, capacity);
    (target / divisor, capacity / divisor)
}

// The greatest common divisor, by Euclid's algorithm.
fn common_divisor(first: u16, second: u16) -> u16
    requires { 1 ≤ second }
    ensures divisor { IsGcd first second result }
    ensures some { 1 ≤ result }
{
    let mut greater = first;
    let mut lesser = second;
    while lesser != 0 {
        let rest = greater % lesser;
        greater = lesser;
        lesser = rest;
    }
    greater
}
