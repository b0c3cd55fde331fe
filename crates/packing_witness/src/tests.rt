ghost use Rattle.std.specs.Prelude.{◌*◌, ◌≤◌, ◌↔◌, IsTrue, All};
ghost use Rattle.packing_witness.specs.Edits.{CanScale};

use crate::Packing;
use items::{Game, Items, Nums};
use std::alloc::{AllocError, Global};

// Puts a digit into the bin that is open, or closes it at a slash.
fn put(made: &mut Packing, bin: &mut Nums, byte: u8) -> Result<(), AllocError> {
    if byte == b'/' {
        made.push_bin(bin.copy()?)?;
        *bin = Nums::new(bin.allocator());
        return Ok(());
    }
    bin.push(u16::from(byte.saturating_sub(b'0')))
}

// The bins that a text spells, a digit for each item.
fn packing(alloc: Global, text: &[u8]) -> Result<Packing, AllocError> {
    let mut made = Packing::new(alloc);
    let mut bin = Nums::new(alloc);
    for byte in text {
        put(&mut made, &mut bin, *byte)?;
    }
    Ok(made)
}

fn are_same(bins: &[Nums], others: &[Nums]) -> bool {
    if bins.len() != others.len() {
        return false;
    }
    for (i, bin) in bins.iter().enumerate() {
        if others[i].as_slice() != bin.as_slice() {
            return false;
        }
    }
    true
}

fn is(alloc: Global, found: &Packing, text: &[u8]) -> Result<bool, AllocError> {
    Ok(are_same(found.bins(), packing(alloc, text)?.bins()))
}

// Whether these bins of 3 are a packing of 1 1 2.
fn holds(alloc: Global, bins: &[u8]) -> Option<bool> {
    let game = Game::new(2, 3, 4).ok()?;
    let items = Items::from_slice(&game, &[1, 1, 2])?;
    Some(packing(alloc, bins).ok()?.holds(&game, &items))
}

// Whether these bins of 3 are a packing of 2 and two items of size 1.
fn holds_list(alloc: Global, bins: &[u8]) -> Option<bool> {
    let game = Game::new(2, 3, 4).ok()?;
    Some(packing(alloc, bins).ok()?.holds_list(&game, &[2], 1, 2))
}

#[test]
fn a_packing_has_each_item_once_in_a_bin_of_at_most_the_capacity(rt: HostRuntime) {
    let cases: [(&[u8], bool); 7] = [
        (b"12/1/", true),
        (b"2/111/", false),
        (b"112//", false),
        (b"2/1/", false),
        (b"12/10/", false),
        (b"12/1//", false),
        (b"", false),
    ];
    for (bins, want) in cases {
        assert!(rt; holds(rt.alloc(), bins) == Some(want));
        assert!(rt; holds_list(rt.alloc(), bins) == Some(want));
    }
}

// Whether these bins without an item are others; no others stand for None.
fn leaves(alloc: Global, bins: &[u8], item: u16, others: &[u8]) -> Result<bool, AllocError> {
    match packing(alloc, bins)?.without(item)? {
        Some(rest) => is(alloc, &rest, others),
        None => Ok(others.is_empty()),
    }
}

#[test]
fn the_first_such_number_of_the_first_bin_that_has_one_is_taken_out(rt: HostRuntime) {
    let cases: [(&[u8], u16, &[u8]); 3] = [
        (b"12/1/", 2, b"1/1/"),
        (b"12/1/", 3, b""),
        (b"7/2325/2/3/", 2, b"7/325/2/3/"),
    ];
    for (bins, item, others) in cases {
        assert!(rt; leaves(rt.alloc(), bins, item, others) == Ok(true));
    }
}

// Whether these bins up to one, which is lent and gets one more item, are others.
fn grows_to(alloc: Global, bins: &[u8], k: usize, others: &[u8]) -> Result<bool, AllocError> {
    let mut made = packing(alloc, bins)?;
    if made.bins().len() < k {
        return Ok(others.is_empty());
    }
    let mut bin = made.lend_bin(k);
    bin.push(9)?;
    let count = made.put_bin(k, bin)?;
    made.truncate(count);
    is(alloc, &made, others)
}

#[test]
fn a_bin_that_is_lent_is_put_back_after_those_before_it(rt: HostRuntime) {
    let cases: [(&[u8], usize, &[u8]); 4] = [
        (b"12/1/3/", 1, b"12/19/"),
        (b"12/1/3/", 3, b"12/1/3/9/"),
        (b"", 0, b"9/"),
        (b"12/", 2, b""),
    ];
    for (bins, k, others) in cases {
        assert!(rt; grows_to(rt.alloc(), bins, k, others) == Ok(true));
    }
}

// Whether each number times a factor is at most 65,535.
fn can_scale(packing: &Packing, factor: u16) -> bool
    ensures { IsTrue result → CanScale factor packing.now }
{
    let bins = packing.bins();
    bins.iter().all(|bin| can_scale_bin(bin, factor))
}

fn can_scale_bin(bin: &Nums, factor: u16) -> bool
    ensures { IsTrue result ↔ All (λ size. size * factor ≤ 65535) bin.now }
{
    let sizes = bin.as_slice();
    sizes
        .iter()
        .all(|size| u32::from(*size) * u32::from(factor) <= 65535)
}

// Whether the double of these bins is others.
fn doubles_to(alloc: Global, bins: &[u8], others: &[u8]) -> Result<bool, AllocError> {
    let copy = packing(alloc, bins)?.copy()?;
    if !can_scale(&copy, 2) {
        return Ok(false);
    }
    is(alloc, &copy.scaled(2)?, others)
}

#[test]
fn each_number_of_each_bin_is_scaled(rt: HostRuntime) {
    assert!(rt; doubles_to(rt.alloc(), b"12/1//", b"24/2//") == Ok(true));
}
