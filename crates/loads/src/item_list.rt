//! Items as lists, which are judged as they stand.

ghost use Rattle.std.specs.Prelude.{◌≡◌, ◌↔◌, ◌+◌, ◌<◌, ◌≤◌, IsTrue, sum};
ghost use Rattle.items.specs.Multiset.{IsMultiset, IsSize, put_ascending};
ghost use Rattle.loads.specs.Position.{AreItemsOf};

use crate::sorted_loads::Loads;
use items::{Items, MOST_SIZE, MOST_VOLUME, Sizes};

/// Whether a list is one of items of these loads: ascending, each one of the sizes, and with the sum of the loads.
/// Takes no memory; the cost is linear in the list.
pub fn are_items_of(sizes: &Sizes, loads: &Loads, items: &[u16]) -> bool
    ensures exact { IsTrue result ↔ AreItemsOf sizes.now loads.now items.now }
{
    let mut left = total_of(loads);
    let mut low = 0;
    for item in items {
        if *item < low || left < *item || !sizes.contains(*item) {
            return false;
        }
        left -= *item;
        low = *item;
    }
    left == 0
}

// The sum of the loads.
fn total_of(loads: &Loads) -> u16
    ensures { result ≡ sum loads.now }
{
    total(loads.as_slice())
}

fn total(numbers: &[u16]) -> u16
    requires { sum numbers.now < 65536 }
    ensures { result ≡ sum numbers.now }
{
    numbers.iter().sum()
}

// The multiset of a list with one more item, of size `s`.
pub(crate) fn items_with(list: &[u16], s: u16) -> Items
    requires items { IsMultiset MOST_SIZE list.now }
    requires size { IsSize MOST_SIZE s }
    requires fits { sum list.now + s ≤ MOST_VOLUME }
    ensures { result ≡ put_ascending s list.now }
{
    let mut items = items_of_list(list);
    items.put(s);
    items
}

fn items_of_list(list: &[u16]) -> Items
    requires { IsMultiset MOST_SIZE list.now }
    ensures { result ≡ list.now }
{
    let mut items = Items::empty();
    for size in list {
        items.put(*size);
    }
    items
}
