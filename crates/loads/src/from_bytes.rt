//! Loads that were kept in bytes.

ghost use Rattle.std.specs.Prelude.{◌≡◌};
ghost use Rattle.loads.specs.Loads.{AreLoads};

use crate::sorted_loads::Loads;
use std::alloc::Global;

/// The loads of which each lies in a byte, in descending order. Takes no memory.
pub fn loads_from_bytes(alloc: Global, bytes: &[u8]) -> Loads
    requires { AreLoads bytes.now }
    ensures { result ≡ bytes.now }
{
    Loads::from_bytes(alloc, bytes)
}
