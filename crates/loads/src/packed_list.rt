//! Lists of packed positions, of which most lie in slots of one size.

ghost use Rattle.std.specs.Prelude.{◌≡◌, ℕ, List, ◌++◌, ◌∷◌, ◌<◌, ◌≤◌, [], All, drop, take, length, slice_get, OnOk};
ghost use Rattle.std.specs.Prelude.{OnErr, vec_capacity, vec_len};
ghost use Rattle.items.specs.Multiset.{IsMultiset};
ghost use Rattle.loads.specs.Loads.{AreLoads};
ghost use Rattle.loads.specs.Packed.{ArePositionBytes, position_in};
ghost use Rattle.loads.specs.Position.{position};
ghost use Rattle.loads.specs.Slots.{IsKept, IsWithin, bytes_in, positions_in};

use crate::bytes::{pack, position_of, put_position, stand_for_after};
use crate::earlier::EarlierPositions;
use crate::position::Position;
use crate::sorted_loads::Loads;
use items::{Items, MOST_SIZE};
use std::alloc::{AllocError, Global};
use std::marker::Model;
use std::mem::size_of;

// The most bytes of a position that lie in its slot.
const SHORT: usize = 22;

// Where the bytes of a position lie: a short one's in the slot, so that one access to memory finds them.
#[derive(Clone, Copy, Debug)]
enum Slot {
    // The first bytes, so many of them.
    Short { count: u8, bytes: [u8; 22] },
    // Those between two places in the bytes of the long ones.
    Long { start: usize, end: usize },
}

/// A list of positions that grows at its end, seen by clauses as the list of the positions. Each takes 24 bytes, and
/// one of more than 21 loads and items takes a byte for each of them and one more besides; there are two allocations
/// in all.
#[derive(Debug, Drop)]
pub struct PackedPositions {
    slots: Vec<Slot>,
    // The bytes of the long ones.
    bytes: Vec<u8>,
}

impl Model for PackedPositions {
    ghost use Rattle.std.specs.Prelude.{List, All};
    ghost use Rattle.loads.specs.declared.position.Position.{Position};
    ghost use Rattle.loads.specs.Slots.{IsKept, positions_in};

    ghost Value = { List Position };

    ghost view = { λ a. positions_in a.bytes.items a.slots.items };

    ghost invariant = { λ a. All (IsKept a.bytes.items) a.slots.items };
}

impl PackedPositions {
    /// The empty list. Takes no memory.
    pub fn new(alloc: Global) -> PackedPositions
        ensures empty { result ≡ [] }
    {
        PackedPositions {
            slots: Vec::new(alloc),
            bytes: Vec::new(alloc),
        }
    }

    /// How many positions there are.
    pub fn len(&self) -> usize
        ensures value { result ≡ length self.now }
    {
        self.slots.len()
    }

    /// The position of this number, counted from 0; None exactly where there is none. Takes no memory.
    pub fn get(&self, i: usize) -> Option<Position>
        ensures value { result ≡ slice_get self.now i }
    {
        let slots = self.slots.as_slice();
        if i >= slots.len() {
            return None;
        }
        Some(position_of(
            *self.bytes.allocator(),
            bytes_in(self.bytes.as_slice(), &slots[i]),
        ))
    }

    /// Puts the position of these loads and items at the end. Where memory is refused, the list stays as it was.
    pub fn push(&mut self, loads: &Loads, items: &Items) -> Result<(), AllocError>
        ensures ok { OnOk result (self.new ≡ self.old ++ position loads.now items.now ∷ []) }
        ensures err { OnErr result (self.new ≡ self.old) }
    {
        let packed = pack(*self.bytes.allocator(), loads, items)?;
        self.slots.reserve(1)?;
        let start = self.bytes.len();
        self.bytes.extend_from_slice(packed.as_slice())?;
        keep_last(&mut self.slots, &mut self.bytes, start);
        Ok(())
    }

    /// Puts the position of these loads and items, each given as a list, at the end. Where memory is refused, the list
    /// stays as it was.
    pub fn push_lists(&mut self, loads: &[u16], items: &[u16]) -> Result<(), AllocError>
        requires loads { AreLoads loads.now }
        requires items { IsMultiset MOST_SIZE items.now }
        ensures ok { OnOk result (self.new ≡ self.old ++ position loads.now items.now ∷ []) }
        ensures err { OnErr result (self.new ≡ self.old) }
    {
        self.slots.reserve(1)?;
        self.bytes.reserve(1 + loads.len() + items.len())?;
        let start = self.bytes.len();
        put_position(&mut self.bytes, loads, items);
        keep_last(&mut self.slots, &mut self.bytes, start);
        Ok(())
    }
}

impl EarlierPositions for PackedPositions {
    ghost positions = { λ a. a };

    fn is_after(&self, i: usize, loads: &Loads, items: &[u16], load: u16, s: u16) -> bool {
        let slots = self.slots.as_slice();
        if i >= slots.len() {
            return false;
        }
        stand_for_after(
            bytes_in(self.bytes.as_slice(), &slots[i]),
            loads,
            items,
            load,
            s,
        )
    }
}

// The bytes of the position that is kept in a slot.
fn bytes_in<'a>(bytes: &'a [u8], slot: &'a Slot) -> &'a [u8]
    requires { IsKept bytes.now slot.now }
    ensures { result.now ≡ bytes_in bytes.now slot.now }
{
    match slot {
        Slot::Short { count, bytes } => &bytes[..usize::from(*count)],
        Slot::Long { start, end } => &bytes[*start..*end],
    }
}

// Keeps the position whose bytes are the last ones, from this place on, in a slot at the end of slots that have room
// for one more.
fn keep_last(slots: &mut Vec<Slot>, bytes: &mut Vec<u8>, start: usize)
    requires room { vec_len slots.old < vec_capacity slots.old }
    requires within { start ≤ length bytes.old.items }
    requires kept { All (IsKept (take start bytes.old.items)) slots.old.items }
    requires legal { ArePositionBytes (drop start bytes.old.items) }
    ensures kept { All (IsKept bytes.new.items) slots.new.items }
    ensures put { positions_in bytes.new.items slots.new.items
        ≡ positions_in (take start bytes.old.items) slots.old.items ++ position_in (drop start bytes.old.items) ∷ [] }
{
    let slot = slot_of_last(bytes, start);
    slots.push_reserved(slot);
}

// The slot of a position whose bytes are the last ones, from this place on. They are taken away where the slot holds
// them.
fn slot_of_last(bytes: &mut Vec<u8>, start: usize) -> Slot
    requires { start ≤ length bytes.old.items }
    ensures kept { bytes_in bytes.new.items result ≡ drop start bytes.old.items }
    ensures others { take start bytes.new.items ≡ take start bytes.old.items }
    ensures within { IsWithin (length bytes.new.items) result }
{
    let end = bytes.len();
    if end - start > SHORT {
        return Slot::Long { start, end };
    }
    let slot = short_slot(&bytes.as_slice()[start..]);
    bytes.truncate(start);
    slot
}

// A slot that holds some bytes.
fn short_slot(piece: &[u8]) -> Slot
    requires { length piece.now ≤ 22 }
    ensures holds { (others : List ℕ) → bytes_in others result ≡ piece.now }
    ensures within { (total : ℕ) → IsWithin total result }
{
    let mut bytes = [0; SHORT];
    bytes[..piece.len()].copy_from_slice(piece);
    Slot::Short {
        count: piece.len() as u8,
        bytes,
    }
}

// Slots are kept by the million.
const _: () = prove!(size_of::<Slot>() <= 24);
