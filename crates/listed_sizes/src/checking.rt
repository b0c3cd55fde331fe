//! Checking the text of a strategy with listed sizes.

ghost use Rattle.std.specs.Prelude.{◌≡◌, ◌≤◌, [], Err, IfErr, IfOk};
ghost use Rattle.checker.specs.Accepted.{IsFaultUnder};
ghost use Rattle.checker.specs.declared.fault.CheckFault.TheVariants.{Read};
ghost use Rattle.checker.specs.declared.fault.Heading.TheVariants.{Listed};
ghost use Rattle.items.specs.Multiset.{AreSizes};
ghost use Rattle.listed_sizes.specs.Accepted.{AcceptsListed};
ghost use Rattle.listed_sizes.specs.Laws.{ListedForcesEvery};
ghost use Rattle.online_play.specs.Algorithm.{ForcesEvery};
ghost use Rattle.port_io.specs.Faults.{Rose};
ghost use Rattle.strategy_text.specs.declared.node.Side.TheVariants.{Adversary};

use checker::CheckFault;
use items::{Game, Nums, Sizes};
use port_io::Source;
use std::alloc::{AllocError, Global};
use strategy_text::Side;

/// A legal strategy with listed sizes that was read: its game, the sizes, its side, and how many nodes it has.
#[derive(Drop)]
pub struct ListedAccepted {
    /// The game.
    pub game: Game,
    /// The sizes that items may have, ascending.
    pub sizes: Nums,
    /// Whose strategy it is.
    pub side: Side,
    /// How many nodes it has.
    pub nodes: u32,
}

/// Reads the text of a strategy with listed sizes, of either side, to its end, and judges each node as soon as its line
/// is whole, as [`checker::check_listed`] does, at the same cost.
///
/// # Errors
///
/// The first fault of the bytes read, at the least line that has one; a failed read; or memory that was refused.
pub fn check_listed<S: Source>(alloc: Global, source: &mut S) -> Result<ListedAccepted, CheckFault>
    ensures count { S.faults source.old ≤ S.faults source.new }
    ensures accepted { IfOk result (λ accepted. AcceptsListed accepted (S.left source.old) (S.left source.new)) }
    ensures forced { IfOk result (λ accepted. accepted.side ≡ Adversary
        → ListedForcesEvery accepted.game accepted.sizes) }
    ensures whole { IfOk result (λ accepted. accepted.side ≡ Adversary → ForcesEvery accepted.game) }
    ensures read { result ≡ Err Read → Rose (S.faults source.old) (S.faults source.new) }
    ensures fault { IfErr result (λ fault. IsFaultUnder Listed [] fault (S.left source.old) (S.left source.new)) }
{
    let accepted = checker::check_listed(alloc, source)?;
    let sizes = list_of(alloc, &accepted.sizes)?;
    Ok(ListedAccepted {
        game: accepted.game,
        sizes,
        side: accepted.side,
        nodes: accepted.nodes,
    })
}

// The sizes as a list.
fn list_of(alloc: Global, sizes: &Sizes) -> Result<Nums, AllocError>
    requires { AreSizes 120 sizes.now }
    ensures { IfOk result (λ list. list ≡ sizes.now) }
{
    let mut list = Nums::new(alloc);
    let mut last = 0u16;
    while let Some(size) = sizes.least_above(last) {
        list.push(size)?;
        last = size;
    }
    Ok(list)
}
