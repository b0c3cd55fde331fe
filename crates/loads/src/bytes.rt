//! Positions in bytes: the number of the loads, the loads, and the items in ascending order.

ghost use Rattle.std.specs.Prelude.{◌≡◌, ◌↔◌, ◌+◌, ◌<◌, ◌≤◌, ◌++◌, ◌*◌, All, Contains, IsTrue, IfOk, OnOk};
ghost use Rattle.std.specs.Prelude.{length, replicate, vec_capacity, vec_len};
ghost use Rattle.items.specs.Multiset.{IsMultiset, put_ascending};
ghost use Rattle.loads.specs.After.{after};
ghost use Rattle.loads.specs.Descending.{IsDescending, put_descending, take_out};
ghost use Rattle.loads.specs.Loads.{AreLoads};
ghost use Rattle.loads.specs.Position.{position};
ghost use Rattle.loads.specs.Packed.{ArePositionBytes, IsPlaceOf, IsPlaceOfGrown, bytes_of, position_in};

use crate::bins::first_place;
use crate::position::Position;
use crate::sorted_loads::Loads;
use items::laws::items_are_a_multiset;
use items::{Items, MOST_SIZE};
use smallvec::SmallVec;
use std::alloc::{AllocError, Global};

/// The bytes of one position; most are at most 24, and lie inline.
pub(crate) type Bytes = SmallVec<u8, 24>;

/// The bytes of the position of these loads and items.
pub(crate) fn pack(alloc: Global, loads: &Loads, items: &Items) -> Result<Bytes, AllocError>
    ensures value { IfOk result (λ bytes. position_in bytes.items ≡ position loads.now items.now) }
    ensures legal { IfOk result (λ bytes. ArePositionBytes bytes.items) }
{
    items_are_a_multiset(items);
    let loads = loads.as_slice();
    let mut bytes = SmallVec::new(alloc);
    bytes.push(loads.len() as u8)?;
    push_loads(&mut bytes, loads)?;
    push_items(&mut bytes, items)?;
    Ok(bytes)
}

// Puts loads at the end.
fn push_loads(bytes: &mut Bytes, loads: &[u16]) -> Result<(), AllocError>
    requires { AreLoads loads.now }
    ensures { OnOk result (bytes.new.items ≡ bytes.old.items ++ loads.now) }
{
    for load in loads {
        bytes.push(*load as u8)?;
    }
    Ok(())
}

// Puts items at the end, in ascending order.
fn push_items(bytes: &mut Bytes, items: &Items) -> Result<(), AllocError>
    ensures { OnOk result (bytes.new.items ≡ bytes.old.items ++ items.now) }
{
    for i in 0..items.largest() {
        push_times(bytes, i as u8 + 1, items.count_of(i + 1))?;
    }
    Ok(())
}

// Puts a size at the end, `n` times.
fn push_times(bytes: &mut Bytes, size: u8, n: u16) -> Result<(), AllocError>
    ensures { OnOk result (bytes.new.items ≡ bytes.old.items ++ replicate n size) }
{
    for _i in 0..n {
        bytes.push(size)?;
    }
    Ok(())
}

/// The loads and the items of a position's bytes.
pub(crate) fn parts(bytes: &[u8]) -> (&[u8], &[u8])
    requires { ArePositionBytes bytes.now }
    ensures loads { result.0.now ≡ (position_in bytes.now).loads }
    ensures items { result.1.now ≡ (position_in bytes.now).items }
{
    let [bins, rest @ ..] = bytes else {
        return (bytes, bytes);
    };
    rest.split_at(usize::from(*bins))
}

/// The items of these sizes.
pub(crate) fn items_of(sizes: &[u8]) -> Items
    requires { IsMultiset MOST_SIZE sizes.now }
    ensures { result ≡ sizes.now }
{
    let mut items = Items::empty();
    for size in sizes {
        items.put(u16::from(*size));
    }
    items
}

/// The position of these bytes.
pub(crate) fn position_of(alloc: Global, bytes: &[u8]) -> Position
    requires { ArePositionBytes bytes.now }
    ensures { result ≡ position_in bytes.now }
{
    let (load_bytes, sizes) = parts(bytes);
    Position {
        loads: Loads::from_bytes(alloc, load_bytes),
        items: items_of(sizes),
    }
}

// Whether the bytes are these numbers.
fn are_same(bytes: &[u8], numbers: &[u16]) -> bool
    ensures { IsTrue result ↔ (bytes.now ≡ numbers.now) }
{
    if bytes.len() != numbers.len() {
        return false;
    }
    for (i, byte) in bytes.iter().enumerate() {
        if u16::from(*byte) != numbers[i] {
            return false;
        }
    }
    true
}

/// Puts the bytes of the position of these loads and items at the end of bytes that have room for them.
pub(crate) fn put_position(bytes: &mut Vec<u8>, loads: &[u16], items: &[u16])
    requires loads { AreLoads loads.now }
    requires items { IsMultiset MOST_SIZE items.now }
    requires room { vec_len bytes.old + (1 + length loads.now + length items.now) ≤ vec_capacity bytes.old }
    ensures { bytes.new.items ≡ bytes.old.items ++ bytes_of (position loads.now items.now) }
{
    bytes.push_reserved(loads.len() as u8);
    put_numbers(bytes, loads);
    put_numbers(bytes, items);
}

// Puts numbers of a byte each at the end of bytes that have room for them.
fn put_numbers(bytes: &mut Vec<u8>, numbers: &[u16])
    requires small { All (λ n. n < 256) numbers.now }
    requires room { vec_len bytes.old + length numbers.now ≤ vec_capacity bytes.old }
    ensures items { bytes.new.items ≡ bytes.old.items ++ numbers.now }
    ensures len { vec_len bytes.new ≡ vec_len bytes.old + length numbers.now }
    ensures capacity { vec_capacity bytes.new ≡ vec_capacity bytes.old }
{
    for number in numbers {
        bytes.push_reserved(*number as u8);
    }
}

/// Whether the bytes are those of the position after an item of size `s` went to a bin of this load.
pub(crate) fn stand_for_after(bytes: &[u8], loads: &Loads, items: &[u16], load: u16, s: u16) -> bool
    requires bytes { ArePositionBytes bytes.now }
    requires member { Contains loads.now load }
    requires below { load + s < 2 * MOST_SIZE }
    ensures { IsTrue result ↔ (position_in bytes.now ≡ after (position loads.now items.now) load s) }
{
    let (load_bytes, sizes) = parts(bytes);
    are_put(sizes, items, s) && are_moved(load_bytes, loads.as_slice(), load, load + s)
}

// Whether the bytes are these descending loads when one of them has grown.
fn are_moved(bytes: &[u8], loads: &[u16], load: u16, grown: u16) -> bool
    requires descending { IsDescending loads.now }
    requires member { Contains loads.now load }
    requires grown { load ≤ grown }
    ensures exact { IsTrue result ↔ (bytes.now ≡ put_descending grown (take_out load loads.now)) }
{
    if bytes.len() != loads.len() {
        return false;
    }
    let at = place_at_most(loads, load, grown);
    if u16::from(bytes[at]) != grown {
        return false;
    }
    if !are_same(&bytes[..at], &loads[..at]) {
        return false;
    }
    are_without(&bytes[at + 1..], &loads[at..], load)
}

/// The first place of at most the grown load; the load itself is there.
pub(crate) fn place_at_most(loads: &[u16], load: u16, grown: u16) -> usize
    requires member { Contains loads.now load }
    requires grown { load ≤ grown }
    ensures { IsPlaceOfGrown grown loads.now result }
{
    for (i, held) in loads.iter().enumerate() {
        if *held <= grown {
            return i;
        }
    }
    unreachable!()
}

// Whether the bytes are the numbers when the first such number is taken out.
fn are_without(bytes: &[u8], numbers: &[u16], number: u16) -> bool
    ensures exact { IsTrue result ↔ (bytes.now ≡ take_out number numbers.now) }
{
    let Some(out) = first_place(numbers, number) else {
        return are_same(bytes, numbers);
    };
    if bytes.len() < out {
        return false;
    }
    if !are_same(&bytes[..out], &numbers[..out]) {
        return false;
    }
    are_same(&bytes[out..], &numbers[out + 1..])
}

// Whether the bytes are these items with one more of size `s` at its place.
fn are_put(bytes: &[u8], items: &[u16], s: u16) -> bool
    ensures exact { IsTrue result ↔ (bytes.now ≡ put_ascending s items.now) }
{
    if bytes.len() != items.len() + 1 {
        return false;
    }
    let at = place_of(items, s);
    if u16::from(bytes[at]) != s || !are_same(&bytes[..at], &items[..at]) {
        return false;
    }
    are_same(&bytes[at + 1..], &items[at..])
}

// The place at which a number is put into an ascending list.
fn place_of(items: &[u16], s: u16) -> usize
    ensures { IsPlaceOf s items.now result }
{
    for (i, held) in items.iter().enumerate() {
        if s <= *held {
            return i;
        }
    }
    items.len()
}
