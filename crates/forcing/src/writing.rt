//! The strategy that a search found, written node by node.

ghost use Rattle.std.specs.Prelude.{◌≡◌, ◌≤◌};
ghost use Rattle.node_pool.specs.Pools.{terms_in};
ghost use Rattle.strategy_text.specs.declared.node.Format.TheVariants.{Two};

use crate::book::Book;
use crate::look::{Burst, Offline};
use crate::search::{Search, Stand, Visited};
use items::{Game, Items, MOST_SIZE, MOST_VOLUME, Nums};
use loads::{Loads, Position};
use pass_game::PackedLoads;
use reachable_loads::pack;
use std::alloc::{AllocError, Global};
use strategy_text::{Placement, Placements, Step, Then};

/// What is written, and the sizes that lead to where it stands.
#[derive(Drop)]
pub(crate) struct Writing {
    pub(crate) alloc: Global,
    pub(crate) book: Book,
    pub(crate) path: Vec<u16>,
}

/// Writes the node of a position from which the adversary wins, after those to which it leads, and gives its number.
/// None where a hint was wrong, or no visit may be made any more.
#[cycle(writing)]
pub(crate) fn write<O: Offline>(
    search: &mut Search<O>,
    writing: &mut Writing,
    left: usize,
    loads: PackedLoads,
    largest: u16,
) -> Result<Option<u32>, AllocError>
    requires format { writing.old.book.nodes.format ≡ Two }
    ensures terms { terms_in writing.new.book.nodes ≡ terms_in writing.old.book.nodes }
{
    if left == 0 {
        return Ok(None);
    }
    let alloc = writing.alloc;
    let Some(position) = position_of(alloc, &search.game, loads, writing.path.as_slice())? else {
        return Ok(None);
    };
    if let Some(number) = writing.book.number_of(alloc, &position)? {
        return Ok(Some(number));
    }
    match sent_at(search, writing.path.len(), left, loads, largest) {
        None => Ok(None),
        Some(burst) if burst.count > 0 => put_burst(search, writing, &position, burst),
        Some(single) => {
            let size = single.size;
            let Some(placements) = write_children(search, writing, left, loads, largest, size)?
            else {
                return Ok(None);
            };
            put_send(search, writing, &position, size, placements)
        }
    }
}

// Writes the nodes to which an item leads, and gives what follows at each load. None where one of them is not written.
#[cycle(writing)]
fn write_children<O: Offline>(
    search: &mut Search<O>,
    writing: &mut Writing,
    left: usize,
    loads: PackedLoads,
    largest: u16,
    size: u16,
) -> Result<Option<Placements>, AllocError>
    requires some { 1 ≤ left }
    requires format { writing.old.book.nodes.format ≡ Two }
    ensures terms { terms_in writing.new.book.nodes ≡ terms_in writing.old.book.nodes }
{
    let bins = usize::from(search.game.m());
    let depth = writing.path.len();
    let mut placements = Placements::new(writing.alloc);
    for place in (0..bins).rev() {
        let load = loads.at(place);
        if place + 1 < bins && loads.at(place + 1) == load {
            continue;
        }
        let grown = load.saturating_add(size);
        if grown >= search.game.t() {
            placements.push(Placement {
                load,
                next: Then::Over,
            })?;
            continue;
        }
        search.offline.add(depth, size);
        writing.path.push(size)?;
        let child = write(
            search,
            writing,
            left - 1,
            loads.grown(bins, place, grown),
            largest.max(size),
        )?;
        let _sent = writing.path.pop();
        let Some(number) = child else {
            return Ok(None);
        };
        placements.push(Placement {
            load,
            next: Then::To(number),
        })?;
    }
    Ok(Some(placements))
}

// What the adversary sends at a position: a burst, or an item of a size, which has the count 0. None where neither is
// found again.
fn sent_at<O: Offline>(
    search: &mut Search<O>,
    depth: usize,
    left: usize,
    loads: PackedLoads,
    largest: u16,
) -> Option<Burst> {
    let least = search.least_size(largest);
    let look = search.offline.look(depth, least);
    if let Some(burst) = search.offline.burst(loads) {
        return Some(burst);
    }
    let stand = Stand {
        depth,
        loads,
        largest,
        look,
        key: search.key_of(loads, largest, &look),
    };
    let found = match search.known(stand.key) {
        Visited::Wins(size) => Visited::Wins(size),
        _ => search.visit(left, &stand),
    };
    match found {
        Visited::Wins(size) => Some(Burst { size, count: 0 }),
        _ => None,
    }
}

// Puts the node that sends an item, or a burst of it alone where the play ends with it.
fn put_send<O: Offline>(
    search: &Search<O>,
    writing: &mut Writing,
    position: &Position,
    size: u16,
    placements: Placements,
) -> Result<Option<u32>, AllocError>
    requires format { writing.old.book.nodes.format ≡ Two }
    ensures terms { terms_in writing.new.book.nodes ≡ terms_in writing.old.book.nodes }
{
    let is_last = placements
        .as_slice()
        .iter()
        .all(|placement| placement.next == Then::Over);
    if is_last {
        return put_burst(search, writing, position, Burst { size, count: 1 });
    }
    let step = Step::Send {
        size,
        pack: None,
        placements,
    };
    writing.book.put(writing.alloc, position, step)
}

// Puts the node that sends a burst, with a packing; None where there is none.
fn put_burst<O: Offline>(
    search: &Search<O>,
    writing: &mut Writing,
    position: &Position,
    burst: Burst,
) -> Result<Option<u32>, AllocError>
    requires format { writing.old.book.nodes.format ≡ Two }
    ensures terms { terms_in writing.new.book.nodes ≡ terms_in writing.old.book.nodes }
{
    let Burst { size, count } = burst;
    let mut items = position.items.copy();
    put_times(&mut items, size, count);
    let Some(pack) = pack(writing.alloc, &search.game, &items)? else {
        return Ok(None);
    };
    let step = Step::Burst { count, size, pack };
    writing.book.put(writing.alloc, position, step)
}

// The position of some loads and of the items of a path; None where they are not of the game.
fn position_of(
    alloc: Global,
    game: &Game,
    loads: PackedLoads,
    path: &[u16],
) -> Result<Option<Position>, AllocError> {
    let mut list = Nums::new(alloc);
    for place in (0..usize::from(game.m())).rev() {
        list.push(loads.at(place))?;
    }
    let Some(loads) = Loads::from_slice(alloc, game, list.as_slice()) else {
        return Ok(None);
    };
    let mut items = Items::empty();
    for size in path {
        put_times(&mut items, *size, 1);
    }
    Ok(Some(Position { loads, items }))
}

// Puts so many items of a size in, as far as it is a size and the limit on their total allows.
fn put_times(items: &mut Items, size: u16, count: u16) {
    if size == 0 || size > MOST_SIZE {
        return;
    }
    for _item in 0..count {
        if items.volume() <= MOST_VOLUME - size {
            items.put(size);
        }
    }
}
