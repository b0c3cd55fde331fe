//! Laws on packable lists and their packings, as contracts of functions that do nothing.

ghost use Rattle.packing_witness.specs.Laws.{SublistsArePackable, PartsArePackable, OrderDoesNotMatter};
ghost use Rattle.packing_witness.specs.Laws.{SmallerItemsFit, TotalsFit, ItemsFit, BigItemsNeedABinEach};
ghost use Rattle.packing_witness.specs.Laws.{PackingsAreAssignments, SizesUpToTheRoomMayCome};
ghost use Rattle.packing_witness.specs.Laws.{NothingIsTakenOut, TakenOutLeavesAPacking, PackingsScale};

/// A packable list stays packable when some of its items are left out, in whatever order the others stand.
pub fn sublists_are_packable()
    ensures sublists { SublistsArePackable }
    ensures parts { PartsArePackable }
{}

/// Whether a list is packable does not depend on its order.
pub fn packable_in_any_order()
    ensures order { OrderDoesNotMatter }
{}

/// A packable list stays packable when one of its items is replaced by a smaller one.
pub fn smaller_items_fit()
    ensures smaller { SmallerItemsFit }
{}

/// A packable list has a total of at most that of the bins, and each of its items is a size from 1 to the
/// capacity.
pub fn packable_lists_fit()
    ensures totals { TotalsFit }
    ensures items { ItemsFit }
{}

/// A packable list has at most as many items above half the capacity as there are bins.
pub fn big_items_need_a_bin_each()
    ensures big { BigItemsNeedABinEach }
{}

/// A list of items has a packing exactly where it has an assignment.
pub fn packings_are_assignments()
    ensures bridge { PackingsAreAssignments }
{}

/// The sizes that may come next are those from 1 to the room.
pub fn sizes_up_to_the_room_may_come()
    ensures sizes { SizesUpToTheRoomMayCome }
{}

/// What is taken out of a packing leaves a packing of the other items; nothing is taken out exactly where
/// no bin has the item.
pub fn taken_out_leaves_a_packing()
    ensures nothing { NothingIsTakenOut }
    ensures packing { TakenOutLeavesAPacking }
{}

/// A packing times a factor is a packing of the items times it, in bins of the capacity times it.
pub fn packings_scale()
    ensures scaled { PackingsScale }
{}
