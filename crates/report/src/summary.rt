//! What a strategy shows, in numbers.

ghost use Rattle.std.specs.Prelude.{IfOk};
ghost use Rattle.strategies.specs.AnyNode.{IsLegal};
ghost use Rattle.report.specs.Report.{IsReportOf};

use crate::depth::depth_of;
use crate::lowest::lowest_terms;
use items::Game;
use std::alloc::{AllocError, Global};
use strategy_text::{Side, Strategy};

/// What a legal strategy shows.
#[derive(Clone, Copy)]
pub struct Report {
    /// The game.
    pub game: Game,
    /// Whose strategy it is.
    pub side: Side,
    /// How many nodes there are.
    pub nodes: u32,
    /// The greatest number of items on a walk from the root to where the strategy ends.
    pub depth: u16,
    /// The target over the capacity in lowest terms: the numerator.
    pub top: u16,
    /// The denominator.
    pub bottom: u16,
}

/// The report of a legal strategy. The depth is computed once a node, in the order of their numbers; it takes two
/// bytes a node.
///
/// # Errors
///
/// Where memory runs out.
pub fn summarise(alloc: Global, strategy: &Strategy) -> Result<Report, AllocError>
    requires legal { IsLegal strategy.now }
    ensures exact { IfOk result (λ report. IsReportOf strategy.now report) }
{
    let depth = depth_of(alloc, &strategy.nodes)?;
    let (top, bottom) = lowest_terms(strategy.game.t(), strategy.game.g());
    Ok(Report {
        game: strategy.game,
        side: strategy.nodes.side(),
        nodes: strategy.nodes.len() as u32,
        depth,
        top,
        bottom,
    })
}
