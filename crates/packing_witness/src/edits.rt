//! Lists of numbers made from a bin.

ghost use Rattle.std.specs.Prelude.{◌≡◌, ◌*◌, ◌≤◌, ◌++◌, map, IfOk, OnOk, All};
ghost use Rattle.packing_witness.specs.Edits.{first_out};

use items::{MOST_NUMBER, Nums};
use std::alloc::AllocError;

/// The bin when its first such number is taken out; None exactly where it has none.
pub fn first_out(bin: &Nums, item: u16) -> Result<Option<Nums>, AllocError>
    ensures exact { IfOk result (λ found. found ≡ first_out item bin.now) }
{
    let sizes = bin.as_slice();
    for (i, size) in sizes.iter().enumerate() {
        if *size == item {
            let mut rest = Nums::from_slice(bin.allocator(), &sizes[..i])?;
            push_all(&mut rest, &sizes[i + 1..])?;
            return Ok(Some(rest));
        }
    }
    Ok(None)
}

/// Each number of a bin times a factor.
pub fn times(bin: &Nums, c: u16) -> Result<Nums, AllocError>
    requires { All (λ size. size * c ≤ MOST_NUMBER) bin.now }
    ensures exact { IfOk result (λ made. made ≡ map (λ size. size * c) bin.now) }
{
    let mut made = Nums::new(bin.allocator());
    for size in bin.as_slice() {
        made.push(*size * c)?;
    }
    Ok(made)
}

// Puts numbers at the end.
fn push_all(list: &mut Nums, numbers: &[u16]) -> Result<(), AllocError>
    ensures ok { OnOk result (list.new ≡ list.old ++ numbers.now) }
{
    for number in numbers {
        list.push(*number)?;
    }
    Ok(())
}
