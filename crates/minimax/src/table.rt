//! What a search asks its table and puts there.

ghost use Rattle.std.specs.Prelude.{◌≡◌, ◌↔◌, ◌<◌, ℕ, IfOk, IsTrue, OnOk, Some, None, length};
ghost use Rattle.loads.specs.Position.{are_equal};
ghost use Rattle.transposition.specs.Bounded.{IsBoundedMap, Puts, SameEntries, bounded};
ghost use Rattle.transposition.specs.Memo.{verdict_of};
ghost use Rattle.transposition.specs.declared.verdict.Verdict.TheVariants.{Algorithm};
ghost use Rattle.minimax.specs.declared.finish_nodes.TheConstants.{FINISHES};
ghost use Rattle.minimax.specs.State.{IsTold, PutsOnly};

use crate::finish_nodes::FINISHES;
use std::alloc::AllocError;
use transposition::{Key, Memo, Verdict};

/// What the table tells of a position in a pass.
#[derive(Clone, Copy)]
pub(crate) enum Told {
    /// A verdict that holds in this pass.
    Settled(Verdict),
    /// The adversary has no win in the earlier pass of this number, which says nothing of this one.
    Earlier(u16),
    /// Nothing.
    Unknown,
}

/// What the table tells of a position in this pass.
pub(crate) fn known<M: Memo>(memo: &mut M, key: &Key, pass: u16) -> Told
    ensures told { IsTold pass (verdict_of (M.entries memo.old) key.now) result }
    ensures same { SameEntries are_equal (M.entries memo.old) (M.entries memo.new) }
    ensures capacity { M.room memo.new ≡ M.room memo.old }
{
    match memo.get(key) {
        Some(verdict) => told_by(verdict, pass),
        None => Told::Unknown,
    }
}

// What a verdict of the table tells.
fn told_by(verdict: Verdict, pass: u16) -> Told
    ensures { IsTold pass (Some verdict) result }
{
    match verdict {
        Verdict::Held(held) if held != pass => Told::Earlier(held),
        _ => Told::Settled(verdict),
    }
}

/// Puts a verdict at a position.
pub(crate) fn remember<M: Memo>(memo: &mut M, key: Key, verdict: Verdict) -> Result<(), AllocError>
    ensures valid { IsBoundedMap are_equal (bounded (M.entries memo.old) (M.room memo.old)) }
    ensures put { OnOk result (
        (verdict_of (M.entries memo.old) key ≡ None → length (M.entries memo.old) < M.room memo.old)
        → (more : ℕ) × Puts are_equal (M.entries memo.old) (M.entries memo.new) key verdict more) }
    ensures only { OnOk result (PutsOnly (M.entries memo.old) (M.entries memo.new) key verdict) }
    ensures capacity { M.room memo.new ≡ M.room memo.old }
{
    let _len = memo.len();
    memo.put(key, verdict)
}

/// Puts that a position finishes, where the table is below its capacity, and tells whether the position had no entry:
/// it is told from the loads alone, and drops no other entry.
pub(crate) fn remember_finish<M: Memo>(memo: &mut M, key: Key) -> Result<bool, AllocError>
    ensures valid { IsBoundedMap are_equal (bounded (M.entries memo.old) (M.room memo.old)) }
    ensures is_new { IfOk result (λ is_new. IsTrue is_new ↔ (verdict_of (M.entries memo.old) key ≡ None)) }
    ensures put { OnOk result (length (M.entries memo.old) < M.room memo.old
        → (more : ℕ) × Puts are_equal (M.entries memo.old) (M.entries memo.new) key (Algorithm FINISHES) more) }
    ensures only { OnOk result (PutsOnly (M.entries memo.old) (M.entries memo.new) key (Algorithm FINISHES)) }
    ensures same { OnOk result (verdict_of (M.entries memo.old) key ≡ Some (Algorithm FINISHES)
        → SameEntries are_equal (M.entries memo.old) (M.entries memo.new)) }
    ensures capacity { M.room memo.new ≡ M.room memo.old }
{
    if memo.len() < memo.capacity() {
        memo.insert(key, Verdict::Algorithm(FINISHES))
    } else {
        Ok(memo.get(&key).is_none())
    }
}
