//! The command `report`.

ghost use Rattle.std.specs.Prelude.{◌≡◌, IfOk, string_bytes};
ghost use Rattle.strategies.specs.AnyNode.{IsLegal};
ghost use Rattle.stretch_bench.specs.Pieces.{IsDueWith};
ghost use Rattle.stretch_bench.specs.Report.{IsSummaryOf, report_line, report_words};
ghost use Rattle.stretch_bench.specs.declared.status.Status.TheVariants.{Done};

use crate::due::Due;
use crate::lines::text_of_line;
use crate::status::Status;
use report::{Report, summarise};
use std::alloc::{AllocError, Global};
use strategy_text::{Strategy, Text};

/// The line of what a legal strategy shows.
pub(crate) fn reported(alloc: Global, strategy: Strategy) -> Result<Due, AllocError>
    requires legal { IsLegal strategy }
    ensures line { IfOk result (IsDueWith Done (IsSummaryOf strategy)) }
{
    let report = summarise(alloc, &strategy)?;
    let line = line_of_report(alloc, &report)?;
    Ok(Due::of_lines(Status::Done, line))
}

// The line of what a strategy shows.
fn line_of_report(alloc: Global, report: &Report) -> Result<Text, AllocError>
    ensures { IfOk result (λ text. text ≡ report_line report.now) }
{
    let shown = game_words(alloc, report)?;
    let depth = report.depth;
    let top = report.top;
    let bottom = report.bottom;
    let measured = format!(in alloc; " depth {depth} target {top}/{bottom}")?;
    let mut text = text_of_line(alloc, shown.as_str())?;
    text.push_all(measured.as_bytes())?;
    text.push(b'\n')?;
    Ok(text)
}

// The words of a report that tell the strategy.
fn game_words(alloc: Global, report: &Report) -> Result<String, AllocError>
    ensures { IfOk result (λ line. string_bytes line ≡ report_words report.now) }
{
    let side = report.side.word();
    let bins = report.game.m();
    let capacity = report.game.g();
    let target = report.game.t();
    let nodes = report.nodes;
    format!(in alloc; "report {side} {bins} {capacity} {target} nodes {nodes}")
}

#[cfg(test)]
mod tests {
    use crate::tests::{
        FINISHING, FINISHING_LARGEST, LEGAL, OF_ALGORITHM, Run, WITH_BURSTS, WITH_COPIES, is_due,
    };

    const REPORTS: [Run; 6] = [
        (
            "report",
            FINISHING_LARGEST,
            0,
            "report algorithm 8 120 240 nodes 1 depth 0 target 2/1\n",
        ),
        (
            "report",
            WITH_BURSTS,
            0,
            "report adversary 2 3 4 nodes 4 depth 4 target 4/3\n",
        ),
        (
            "report",
            LEGAL,
            0,
            "report adversary 2 3 4 nodes 5 depth 4 target 4/3\n",
        ),
        (
            "report",
            OF_ALGORITHM,
            0,
            "report algorithm 2 2 3 nodes 5 depth 2 target 3/2\n",
        ),
        (
            "report",
            FINISHING,
            0,
            "report algorithm 2 3 5 nodes 1 depth 0 target 5/3\n",
        ),
        (
            "report",
            WITH_COPIES,
            0,
            "report adversary 2 3 4 nodes 7 depth 4 target 4/3\n",
        ),
    ];

    #[test]
    fn strategies_are_reported(rt: HostRuntime) {
        for row in &REPORTS {
            assert!(rt; is_due(rt.alloc(), row).unwrap_or(false), "{}", row.1);
        }
    }
}
