//! The command `check`.

ghost use Rattle.std.specs.Prelude.{◌≡◌, ◌≤◌, [], Err, IfErr, IfOk, string_bytes};
ghost use Rattle.checker.specs.declared.fault.CheckFault.TheVariants.{Read};
ghost use Rattle.checker.specs.declared.fault.Wanted.TheVariants.{Either};
ghost use Rattle.port_io.specs.Faults.{Rose};
ghost use Rattle.stretch_bench.specs.Check.{IsAcceptedLine, accepted_line};
ghost use Rattle.stretch_bench.specs.Form.{IsRead};
ghost use Rattle.stretch_bench.specs.Pieces.{IsDueWith, IsStop};
ghost use Rattle.stretch_bench.specs.declared.status.Status.TheVariants.{Done};

use crate::due::Due;
use crate::lines::text_of_line;
use crate::status::Status;
use checker::{Accepted, CheckFault, check};
use port_io::Source;
use std::alloc::{AllocError, Global};
use strategy_text::Text;

/// The line of the legal strategy that is read, whose nodes are not kept.
pub(crate) fn checked<S: Source>(alloc: Global, source: &mut S) -> Result<Due, CheckFault>
    ensures count { S.faults source.old ≤ S.faults source.new }
    ensures line { IfOk result (IsDueWith Done (λ text.
        IsRead Either (S.left source.old) (S.left source.new) (λ strategy. IsAcceptedLine strategy text))) }
    ensures fault { IfErr result (IsStop Either (S.left source.old) (S.left source.new)) }
    ensures read { result ≡ Err Read → Rose (S.faults source.old) (S.faults source.new) }
{
    let accepted = check(alloc, source)?;
    let line = line_of_accepted(alloc, &accepted)?;
    Ok(Due::of_lines(Status::Done, line))
}

// The line for a legal strategy.
fn line_of_accepted(alloc: Global, accepted: &Accepted) -> Result<Text, AllocError>
    ensures { IfOk result (λ text. text ≡ accepted_line accepted.now) }
{
    let line = accepted_words(alloc, accepted)?;
    text_of_line(alloc, line.as_str())
}

fn accepted_words(alloc: Global, accepted: &Accepted) -> Result<String, AllocError>
    ensures { IfOk result (λ line. string_bytes line ≡ accepted_line accepted.now) }
{
    let side = accepted.side.word();
    let bins = accepted.game.m();
    let capacity = accepted.game.g();
    let target = accepted.game.t();
    let nodes = accepted.nodes;
    format!(in alloc; "accepted {side} {bins} {capacity} {target} nodes {nodes}\n")
}

#[cfg(test)]
mod tests {
    use crate::tests::{
        ACCEPTED, FINISHING, LEGAL, OF_ALGORITHM, OF_ALGORITHM_IN_FORMAT_2, OF_FORMAT_2, Run,
        WITH_BIG, WITH_BURSTS, is_due,
    };

    const CHECKS: [Run; 7] = [
        ("check", LEGAL, 0, ACCEPTED),
        ("check", OF_FORMAT_2, 0, ACCEPTED),
        (
            "check",
            OF_ALGORITHM,
            0,
            "accepted algorithm 2 2 3 nodes 5\n",
        ),
        (
            "check",
            OF_ALGORITHM_IN_FORMAT_2,
            0,
            "accepted algorithm 2 2 3 nodes 5\n",
        ),
        ("check", WITH_BIG, 0, "accepted algorithm 2 2 3 nodes 6\n"),
        ("check", FINISHING, 0, "accepted algorithm 2 3 5 nodes 1\n"),
        (
            "check",
            WITH_BURSTS,
            0,
            "accepted adversary 2 3 4 nodes 4\n",
        ),
    ];

    #[test]
    fn strategies_of_both_sides_and_formats_are_accepted(rt: HostRuntime) {
        for row in &CHECKS {
            assert!(rt; is_due(rt.alloc(), row).unwrap_or(false), "{}", row.1);
        }
    }
}
