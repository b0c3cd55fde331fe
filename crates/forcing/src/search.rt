//! The search of one pass, in which no size is sent that is smaller than the greatest item so far by more than the pass.

ghost use Rattle.std.specs.Prelude.{◌≤◌};

use crate::look::{Look, Offline};
use crate::mixing::mix;
use crate::replies::Replies;
use crate::table::{Known, Table};
use items::Game;
use pass_game::{PackedLoads, PassTable};

/// A search, between its visits.
#[derive(Drop)]
pub(crate) struct Search<O: Offline> {
    pub(crate) game: Game,
    /// How much smaller a size may be than the greatest item so far.
    pub(crate) pass: u16,
    pub(crate) offline: O,
    pub(crate) table: Table,
    /// The relaxed game of the pass, where its table is not too large.
    pub(crate) relaxed: Option<PassTable>,
    /// How many visits may still be made.
    pub(crate) spare: u32,
}

/// A position of a search: the depth at which its items are held, its loads, its greatest item, and what may come.
#[derive(Clone, Copy)]
pub(crate) struct Stand {
    pub(crate) depth: usize,
    pub(crate) loads: PackedLoads,
    pub(crate) largest: u16,
    pub(crate) look: Look,
    pub(crate) key: u64,
}

/// What a visit comes to.
#[derive(Clone, Copy, PartialEq, Eq)]
pub(crate) enum Visited {
    /// The adversary wins, and sends this size.
    Wins(u16),
    /// The adversary does not win in this pass.
    Holds,
    /// The budget is spent.
    Spent,
}

// What sending a size comes to.
#[derive(Clone, Copy, PartialEq, Eq)]
enum Sent {
    Wins,
    Holds,
    Spent,
}

impl<O: Offline> Search<O> {
    /// The least size that may be sent where this is the greatest item so far.
    pub(crate) fn least_size(&self, largest: u16) -> u16
        ensures { 1 ≤ result }
    {
        largest.saturating_sub(self.pass).max(1)
    }

    /// A key that is the same for positions which play alike: free space that takes as many items of the greatest size
    /// that may come, and no more of the least, counts as that of those items alone.
    pub(crate) fn key_of(&self, loads: PackedLoads, largest: u16, look: &Look) -> u64 {
        let least = self.least_size(largest);
        let room = look.room.max(1);
        let mut spaces = 0u64;
        for place in 0..usize::from(self.game.m()) {
            let space = (self.game.t() - 1).saturating_sub(loads.at(place));
            let count = space / room;
            let held = if u32::from(space) < (u32::from(count) + 1) * u32::from(least) {
                count.saturating_mul(room)
            } else {
                space
            };
            spaces = (spaces << 8) | u64::from(held);
        }
        let of_items = spaces
            .wrapping_mul(0x94D0_49BB_1331_11EB)
            .wrapping_add(look.profile);
        let of_largest = u64::from(largest)
            .wrapping_add(1)
            .wrapping_mul(0xA076_1D64_78BD_642F);
        let of_both = (look.profile >> 7).wrapping_mul(0xD6E8_FEB8_6659_FD93);
        mix(of_items).wrapping_add(mix(spaces ^ of_largest ^ of_both))
    }

    // Whether the algorithm wins the relaxed game.
    fn holds(&self, loads: PackedLoads, big: u16, room: u16, largest: u16) -> bool {
        match &self.relaxed {
            Some(relaxed) => relaxed.holds(loads, big, room, largest),
            None => false,
        }
    }

    // Whether the algorithm wins the relaxed game from some of these loads.
    fn some_holds(&self, replies: &Replies, big: u16, room: u16, largest: u16) -> bool {
        for place in 0..replies.len() {
            if self.holds(replies.loads(place), big, room, largest) {
                return true;
            }
        }
        false
    }

    // The loads after an item, below the target, from that on the fullest bin on.
    fn replies(&self, loads: PackedLoads, size: u16) -> Replies {
        let bins = usize::from(self.game.m());
        let mut replies = Replies::none();
        for place in (0..bins).rev() {
            let load = loads.at(place);
            let is_repeated = place + 1 < bins && loads.at(place + 1) == load;
            let grown = load.saturating_add(size);
            if !is_repeated && grown < self.game.t() {
                replies.push(loads.grown(bins, place, grown), 0);
            }
        }
        replies
    }

    // Those of some loads after which neither a burst nor the table tells that the adversary wins; None where the table
    // tells that it does not win from one of them.
    fn open(&self, replies: &Replies, largest: u16, look: &Look) -> Option<Replies> {
        let mut keyed = Replies::none();
        for place in 0..replies.len() {
            let loads = replies.loads(place);
            if self.offline.burst(loads).is_none() {
                keyed.push(loads, self.key_of(loads, largest, look));
            }
        }
        let mut open = Replies::none();
        for place in 0..keyed.len() {
            match self.known(keyed.key(place)) {
                Visited::Wins(_) => {}
                Visited::Holds => return None,
                Visited::Spent => open.push(keyed.loads(place), keyed.key(place)),
            }
        }
        Some(open)
    }

    /// What the table tells of a key in this pass; Spent where it tells nothing.
    pub(crate) fn known(&self, key: u64) -> Visited {
        match self.table.get(key) {
            Known::Wins(size) => Visited::Wins(size),
            Known::HoldsIn(pass) if pass >= self.pass => Visited::Holds,
            _ => Visited::Spent,
        }
    }

    /// Visits a position, from which at most so many items may still come.
    #[cycle(visiting)]
    pub(crate) fn visit(&mut self, left: usize, stand: &Stand) -> Visited {
        if left == 0 {
            return Visited::Holds;
        }
        let before = self.spare;
        if before == 0 {
            return Visited::Spent;
        }
        self.spare = before - 1;
        let least = self.least_size(stand.largest);
        for size in (least..stand.look.room.saturating_add(1)).rev() {
            match self.send(left, stand, size) {
                Sent::Wins => {
                    let taken = before.saturating_sub(self.spare);
                    self.table.put(stand.key, Known::Wins(size), taken);
                    return Visited::Wins(size);
                }
                Sent::Holds => {}
                Sent::Spent => return Visited::Spent,
            }
        }
        let taken = before.saturating_sub(self.spare);
        self.table.put(stand.key, Known::HoldsIn(self.pass), taken);
        Visited::Holds
    }

    // Sends a size at a position: whether the adversary wins from all loads to which it leads.
    #[cycle(visiting)]
    fn send(&mut self, left: usize, stand: &Stand, size: u16) -> Sent
        requires { 1 ≤ left }
    {
        let largest = stand.largest.max(size);
        let replies = self.replies(stand.loads, size);
        let large = u16::from(u32::from(size) * 2 > u32::from(self.game.g()));
        let most = if size > stand.look.pair {
            stand.look.pair
        } else {
            stand.look.room
        };
        let spare = (self.game.m() * self.game.g())
            .saturating_sub(stand.loads.volume())
            .saturating_sub(size);
        let big = stand.look.big.saturating_sub(large);
        if self.some_holds(&replies, big, most.min(spare), largest) {
            return Sent::Holds;
        }
        let least = self.least_size(largest);
        self.offline.add(stand.depth, size);
        let depth = stand.depth.saturating_add(1);
        let look = self.offline.look(depth, least);
        if replies.len() > 0 && look.room < least {
            return Sent::Holds;
        }
        if self.some_holds(&replies, look.big, look.room, largest) {
            return Sent::Holds;
        }
        let Some(open) = self.open(&replies, largest, &look) else {
            return Sent::Holds;
        };
        for place in 0..open.len() {
            let next = Stand {
                depth,
                loads: open.loads(place),
                largest,
                look,
                key: open.key(place),
            };
            let found = if place == 0 {
                Visited::Spent
            } else {
                self.known(next.key)
            };
            let found = match found {
                Visited::Spent => self.visit(left - 1, &next),
                known => known,
            };
            match found {
                Visited::Wins(_) => {}
                Visited::Holds => return Sent::Holds,
                Visited::Spent => return Sent::Spent,
            }
        }
        Sent::Wins
    }
}
