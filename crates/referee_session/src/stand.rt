//! Where a play stands.

ghost use Rattle.std.specs.Prelude.{◌≡◌, ◌<◌, ◌≤◌, ◌+◌};
ghost use Rattle.adversary_graph.specs.Nodes.{sent_items, sent_size};
ghost use Rattle.adversary_graph.specs.Play.{next_at};
ghost use Rattle.referee_session.specs.Talk.{stand_after, stand_at};

use strategy_text::{Placement, Step, Then};

/// Where a play stands.
#[derive(Clone, Copy)]
pub(crate) enum Stand {
    /// An item waits for its bin.
    Waits {
        /// The number of the node that sends it.
        number: u32,
        /// How many items of this node have their bins.
        done: u16,
    },
    /// The play has ended.
    Ended {
        /// The number of the node that sent the last item.
        number: u32,
    },
}

// The size that a step sends, once or in a burst.
pub(crate) fn sent_size(step: &Step) -> u16
    ensures { result ≡ sent_size step.now }
{
    match step {
        Step::Send { size, .. } => *size,
        Step::Burst { size, .. } => *size,
    }
}

// Where a play stands after one more item of a node, of which so many had their bins before, went to a bin of this
// load.
pub(crate) fn stand_after(number: u32, done: u16, load: u16, step: &Step) -> Stand
    requires { done < 65535 }
    ensures { result ≡ stand_after number done load step.now }
{
    match step {
        Step::Send { placements, .. } => stand_at(number, next_at(load, placements.as_slice())),
        Step::Burst { count, .. } => {
            if done + 1 < *count {
                return Stand::Waits {
                    number,
                    done: done + 1,
                };
            }
            Stand::Ended { number }
        }
    }
}

// What follows at a load: what the first placement of this load says.
fn next_at(load: u16, placements: &[Placement]) -> Option<Then>
    ensures { result ≡ next_at load placements.now }
{
    for placement in placements {
        if placement.load == load {
            return Some(placement.next);
        }
    }
    None
}

// Where a play stands after the item of the node of this number went to a bin at which this follows.
fn stand_at(number: u32, next: Option<Then>) -> Stand
    ensures { result ≡ stand_at number next }
{
    match next {
        Some(Then::To(child)) => Stand::Waits {
            number: child,
            done: 0,
        },
        Some(Then::Over) => Stand::Ended { number },
        None => Stand::Ended { number },
    }
}
