//! References of placements, renamed.

ghost use Rattle.std.specs.Prelude.{◌≡◌, ◌<◌, IfSome, length, slice_index};
ghost use Rattle.adversary_graph.specs.Play.{child_of};
ghost use Rattle.adversary_graph.specs.Renamed.{renamed_then};

use strategy_text::Then;

/// What follows, with the number that stands in the list at the place of the child in place of the child's. Takes no
/// memory.
pub fn renumber_next(numbers: &[u32], next: Then) -> Then
    requires known { IfSome (child_of next) (λ child. child < length numbers.now) }
    ensures value { result ≡ renamed_then (slice_index numbers.now) next }
{
    match next {
        Then::Over => Then::Over,
        Then::To(child) => Then::To(numbers[child as usize]),
    }
}
