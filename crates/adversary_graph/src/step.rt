//! What a step of the adversary sends, and where it asks for a packing.

ghost use Rattle.std.specs.Prelude.{◌≡◌, ◌↔◌, IsTrue, All, replicate};
ghost use Rattle.std.specs.Option.{option_copied};
ghost use Rattle.adversary_graph.specs.Nodes.{sent_size, sent_items, packing_of};
ghost use Rattle.adversary_graph.specs.Rules.{IsOver, IsPackingAsked};

use packing_witness::Packing;
use strategy_text::{Format, Placement, Step, Then};

// The size that a step sends, once or in a burst.
pub fn sent_size(step: &Step) -> u16
    ensures { result ≡ sent_size step.now }
{
    match step {
        Step::Send { size, .. } => *size,
        Step::Burst { size, .. } => *size,
    }
}

// How many items a step sends.
pub fn sent_number(step: &Step) -> u16
    ensures { sent_items step.now ≡ replicate result (sent_size step.now) }
{
    match step {
        Step::Send { .. } => 1,
        Step::Burst { count, .. } => *count,
    }
}

/// The packing that a step shows, if it shows one. Takes no memory.
pub fn packing_of(step: &Step) -> Option<&Packing>
    ensures { option_copied result ≡ packing_of step.now }
{
    match step {
        Step::Send {
            pack: Some(pack),
            ..
        } => Some(pack),
        Step::Send { pack: None, .. } => None,
        Step::Burst { pack, .. } => Some(pack),
    }
}

// Whether a packing is asked for.
pub fn is_packing_asked(format: Format, step: &Step) -> bool
    ensures { IsTrue result ↔ IsPackingAsked format step.now }
{
    match format {
        Format::One => true,
        Format::Two => is_last_of_play(step),
    }
}

// Whether the play ends after the step, whatever bin is answered.
fn is_last_of_play(step: &Step) -> bool
    ensures { IsTrue result ↔ IsPackingAsked Format.Two step.now }
{
    match step {
        Step::Send { placements, .. } => are_over(placements.as_slice()),
        Step::Burst { .. } => true,
    }
}

// Whether all placements are over.
fn are_over(placements: &[Placement]) -> bool
    ensures { IsTrue result ↔ All (λ placement. IsOver placement.next) placements.now }
{
    placements.iter().all(is_over)
}

fn is_over(placement: &Placement) -> bool
    ensures { IsTrue result ↔ IsOver placement.now.next }
{
    match placement.next {
        Then::Over => true,
        Then::To(_) => false,
    }
}
