//! Which sizes a pass of the search allows.

ghost use Rattle.std.specs.Prelude.{◌≤◌, ◌+◌, ◌↔◌, IsTrue};
ghost use Rattle.items.specs.Multiset.{largest_of};

use items::Items;

/// Whether this pass allows an item of size `s` after these items: exactly where the size and the pass together
/// are at least the largest item. Passes are numbered from 0; the pass of the capacity less 1 allows every size.
pub fn allows(pass: u16, items: &Items, s: u16) -> bool
    requires pass { pass ≤ 120 }
    requires size { s ≤ 120 }
    ensures exact { IsTrue result ↔ (largest_of items.now ≤ s + pass) }
{
    items.largest() <= s + pass
}
