//! The command `drill`.

ghost use Rattle.std.specs.Prelude.{◌≡◌, ◌≤◌, ℕ, IfOk, MatchOption};
ghost use Rattle.checker.specs.FirstFault.{IsLegalText};
ghost use Rattle.checker.specs.declared.fault.Wanted.TheVariants.{Either};
ghost use Rattle.stretch_bench.specs.Call.{Players};
ghost use Rattle.stretch_bench.specs.Commands.{Spells, spelling_of};
ghost use Rattle.stretch_bench.specs.Drill.{drill_line, drilled};
ghost use Rattle.stretch_bench.specs.Pieces.{IsDueWith};
ghost use Rattle.stretch_bench.specs.declared.command.Command.TheVariants.{Drill};
ghost use Rattle.stretch_bench.specs.declared.status.Status.TheVariants.{Done};

use crate::due::Due;
use crate::lines::text_of_line;
use crate::number::number_of;
use crate::status::Status;
use checker::{CheckFault, check};
use minimise::minimise;
use port_io::CalmSource;
use report::{MOST_COPIES, drill_strategy};
use std::alloc::{AllocError, Global};
use strategy_text::{Text, text_of};

/// The two numbers of the words `drill NUMBER COPIES`.
pub(crate) fn drill_of(words: &[String]) -> Option<(u64, u32)>
    ensures { (players : Players) → MatchOption result
        ((number copies : ℕ) → Spells players (spelling_of words.now) (Drill number copies) → ⊥)
        (λ pair. Spells players (spelling_of words.now) (Drill pair.0 pair.1)) }
{
    let [first, number, copies] = words else {
        return None;
    };
    if first.as_str() != "drill" {
        return None;
    }
    let Some(number) = number_of(number.as_str(), 0, u64::MAX) else {
        return None;
    };
    let Some(copies) = number_of(copies.as_str(), 1, u64::from(MOST_COPIES)) else {
        return None;
    };
    Some((number, copies as u32))
}

/// The line of a drill: its strategy is made, spelled, checked as bytes, and minimised.
pub(crate) fn drilled(alloc: Global, number: u64, copies: u32) -> Result<Due, AllocError>
    requires low { 1 ≤ copies }
    requires high { copies ≤ MOST_COPIES }
    ensures line { IfOk result (IsDueWith Done (λ text. text ≡ drilled number copies)) }
{
    let strategy = drill_strategy(alloc, number, copies)?;
    let text = text_of(alloc, &strategy)?;
    let bytes = text.len();
    see_accepted(alloc, text)?;
    let made = minimise(alloc, &strategy)?;
    let nodes = strategy.nodes.len();
    let line = line_of_drill(alloc, number, copies, nodes, bytes, made.nodes.len())?;
    Ok(Due::of_lines(Status::Done, line))
}

// Checks the text of a legal strategy, which can fail for memory alone.
fn see_accepted(alloc: Global, text: Text) -> Result<(), AllocError>
    requires { IsLegalText Either text }
{
    match check(alloc, &mut CalmSource::new(text.as_slice())) {
        Ok(_) => Ok(()),
        Err(CheckFault::Memory) => Err(AllocError),
        Err(CheckFault::Read) => unreachable!(),
        Err(CheckFault::Rejected { .. }) => unreachable!(),
    }
}

// The line of a drill: its numbers, and how many nodes and bytes its strategy has, and nodes the canonical form.
fn line_of_drill(
    alloc: Global,
    number: u64,
    copies: u32,
    nodes: usize,
    bytes: usize,
    minimised: usize,
) -> Result<Text, AllocError>
    ensures { IfOk result (λ text. text ≡ drill_line number copies nodes bytes minimised) }
{
    let line = format!(in alloc;
        "drill {number} {copies} nodes {nodes} bytes {bytes} accepted minimised {minimised}\n"
    )?;
    text_of_line(alloc, line.as_str())
}

#[cfg(test)]
mod tests {
    use crate::tests::{Unread, is_due_unread};

    const DRILLS: [Unread; 2] = [
        (
            "drill 7 1",
            0,
            "drill 7 1 nodes 5 bytes 326 accepted minimised 5\n",
        ),
        (
            "drill 7 2",
            0,
            "drill 7 2 nodes 9 bytes 556 accepted minimised 5\n",
        ),
    ];

    #[test]
    fn drills_are_made_without_input(rt: HostRuntime) {
        for row in &DRILLS {
            assert!(rt;
                is_due_unread(rt.alloc(), row).unwrap_or(false),
                "{}",
                row.0
            );
        }
    }
}
