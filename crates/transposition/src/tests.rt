ghost use Rattle.std.specs.Prelude.{◌≤◌};

use crate::clock_table::ClockTable;
use crate::key::Key;
use crate::memo::{ClockMemo, LruMemo, Memo};
use crate::verdict::Verdict;
use items::{Game, Items};
use loads::Loads;
use std::alloc::{AllocError, Global};
use std::ops::Range;
use std::test::Fail;

// What is done with a memo: a verdict of this number is put at the position with one item of this size, or it is what
// a look-up finds there, 0 being nothing.
type Step = (bool, u16, u16);

const PUT: bool = true;

const GET: bool = false;

// The keys are of both forms.
const ONE_ENTRY: &[Step] = &[
    (PUT, 1, 5),
    (PUT, 33, 6),
    (GET, 1, 0),
    (GET, 33, 6),
    (PUT, 33, 7),
    (GET, 33, 7),
];

const TWO_ENTRIES: &[Step] = &[
    (PUT, 1, 5),
    (PUT, 2, 5),
    (GET, 1, 5),
    (PUT, 3, 5),
    (GET, 1, 5),
    (GET, 2, 0),
    (GET, 3, 5),
];

const THREE_ENTRIES: &[Step] = &[
    (PUT, 1, 5),
    (PUT, 2, 5),
    (PUT, 3, 5),
    (GET, 1, 5),
    (GET, 3, 5),
    (PUT, 4, 5),
    (GET, 2, 0),
    (GET, 1, 5),
    (GET, 3, 5),
    (GET, 4, 5),
    (PUT, 5, 5),
    (GET, 5, 5),
];

fn key_of(alloc: Global, loads: &Loads, size: u16) -> Result<Key, AllocError> {
    let mut items = Items::empty();
    if size >= 1 && size <= 120 {
        items.put(size);
    }
    Key::of(alloc, loads, &items)
}

// The number of a verdict, 0 being none.
fn number_of(verdict: Option<Verdict>) -> u16 {
    match verdict {
        Some(Verdict::Held(number)) => number,
        _ => 0,
    }
}

// Whether a step comes to what it should.
fn does<M: Memo>(
    alloc: Global,
    memo: &mut M,
    loads: &Loads,
    step: Step,
) -> Result<bool, AllocError> {
    let (put, size, number) = step;
    let key = key_of(alloc, loads, size)?;
    if put {
        memo.put(key, Verdict::Held(number))?;
        return Ok(true);
    }
    Ok(number_of(memo.get(&key)) == number)
}

// Whether all steps do.
fn does_all<M: Memo>(
    alloc: Global,
    memo: &mut M,
    loads: &Loads,
    steps: &[Step],
) -> Result<bool, AllocError> {
    for step in steps {
        if !does(alloc, memo, loads, *step)? {
            return Ok(false);
        }
    }
    Ok(true)
}

// Whether the steps fill a new memo of this capacity, and come to what they should.
fn lru(alloc: Global, loads: &Loads, capacity: usize, steps: &[Step]) -> Result<bool, AllocError>
    requires { 1 ≤ capacity }
{
    let mut memo = LruMemo::new(alloc, capacity)?;
    let right = does_all(alloc, &mut memo, loads, steps)?;
    Ok(right & (Memo::len(&memo) == capacity) & (Memo::capacity(&memo) == capacity))
}

fn clock(alloc: Global, loads: &Loads, capacity: usize, steps: &[Step]) -> Result<bool, AllocError>
    requires { 1 ≤ capacity }
{
    let mut memo = ClockMemo::new(alloc, capacity)?;
    let right = does_all(alloc, &mut memo, loads, steps)?;
    Ok(right & (Memo::len(&memo) == capacity) & (Memo::capacity(&memo) == capacity))
}

#[test]
fn a_memo_of_one_entry_keeps_the_last(rt: HostRuntime) -> Result<(), Fail> {
    let loads = Loads::zero(rt.alloc(), &Game::new(2, 120, 240)?);
    assert!(rt; lru(rt.alloc(), &loads, 1, ONE_ENTRY)?);
    assert!(rt; clock(rt.alloc(), &loads, 1, ONE_ENTRY)?);
    Ok(())
}

#[test]
fn an_entry_that_was_not_used_of_late_goes(rt: HostRuntime) -> Result<(), Fail> {
    let loads = Loads::zero(rt.alloc(), &Game::new(2, 120, 240)?);
    assert!(rt;
        lru(rt.alloc(), &loads, 2, TWO_ENTRIES)?,
        "the least recently used"
    );
    assert!(rt;
        clock(rt.alloc(), &loads, 3, THREE_ENTRIES)?,
        "where the hand stops"
    );
    Ok(())
}

// Items of both forms: without items, with small counters, with a size above 32, with a total of 255 and above.
const LISTS: &[&[u16]] = &[
    &[],
    &[1, 1, 2],
    &[32],
    &[33],
    &[1; 255],
    &[32, 32, 32, 32, 32, 32, 32, 32],
];

// Whether a key tells the loads and the items that it was made of, as its copy does.
fn tells(alloc: Global, loads: &Loads, items: &Items) -> Result<bool, AllocError> {
    let key = Key::of(alloc, loads, items)?;
    let copy = key.copy()?;
    Ok((key == copy) & tells_parts(&key, loads, items) & tells_whole(&copy, loads, items))
}

fn tells_parts(key: &Key, loads: &Loads, items: &Items) -> bool {
    key.loads().same(loads) & key.items().same(items)
}

fn tells_whole(key: &Key, loads: &Loads, items: &Items) -> bool {
    let position = key.position();
    position.loads.same(loads) & position.items.same(items)
}

#[test]
fn keys_of_both_forms_tell_their_positions(rt: HostRuntime) -> Result<(), Fail> {
    let game = Game::new(8, 120, 240)?;
    let loads = Loads::from_slice(rt.alloc(), &game, &[239, 120, 120, 7, 1, 0, 0, 0]).ok_or("no")?;
    for list in LISTS {
        let items = Items::from_slice(&game, list).ok_or("no items")?;
        assert!(rt; tells(rt.alloc(), &loads, &items)?);
    }
    Ok(())
}

// Puts twice each key at the key.
fn fill(table: &mut ClockTable<u32, u32>, keys: Range<u32>) -> Result<(), AllocError> {
    for key in keys {
        table.insert(key, key.wrapping_mul(2))?;
    }
    Ok(())
}

// How many of the keys have the value that is twice the key.
fn found(table: &mut ClockTable<u32, u32>, keys: Range<u32>) -> usize {
    let mut count = 0usize;
    for key in keys {
        if table.get(&key) == Some(key.wrapping_mul(2)) {
            count = count.wrapping_add(1);
        }
    }
    count
}

#[test]
fn a_table_grows_to_its_capacity_and_stays_there(rt: HostRuntime) -> Result<(), Fail> {
    let mut table: ClockTable<u32, u32> = ClockTable::new(rt.alloc(), 1000)?;
    fill(&mut table, 0..1000)?;
    assert_eq!(rt; found(&mut table, 0..1000), 1000);
    fill(&mut table, 1000..3000)?;
    assert_eq!(rt; (found(&mut table, 0..3000), table.len()), (1000, 1000));
    Ok(())
}
