//! Items and their bins in fixed storage.

ghost use Rattle.std.specs.Prelude.{◌≡◌, ◌<◌, ◌≤◌, ◌++◌, ◌∷◌, [], length};
ghost use Rattle.referee_session.specs.Told.{told};

use std::marker::Model;

/// The most items of a play: a packable list has at most as many items as bins times the capacity.
pub(crate) const MOST_ITEMS: usize = 960;

/// Items and the bin of each, at most 960. No call on them takes memory.
#[derive(Drop)]
pub(crate) struct Told {
    items: [u16; 960],
    bins: [u8; 960],
    count: usize,
}

impl Model for Told {
    ghost use Rattle.std.specs.Prelude.{◌≤◌, take};
    ghost use Rattle.referee_session.specs.Told.{ToldItems, told};

    ghost Value = { ToldItems };

    ghost view = { λ t. told (take t.count t.items) (take t.count t.bins) };

    ghost invariant = { λ t. t.count ≤ 960 };
}

impl Told {
    /// No items.
    pub(crate) fn new() -> Told
        ensures { result ≡ told [] [] }
    {
        Told {
            items: [0; MOST_ITEMS],
            bins: [0; MOST_ITEMS],
            count: 0,
        }
    }

    /// The items in the order in which they came.
    pub(crate) fn items(&self) -> &[u16]
        ensures { result.now ≡ self.now.items }
    {
        &self.items[..self.count]
    }

    /// The bins of the items.
    pub(crate) fn bins(&self) -> &[u8]
        ensures value { result.now ≡ self.now.bins }
        ensures few { length self.now.bins ≤ 960 }
    {
        &self.bins[..self.count]
    }

    /// Puts an item and its bin at the end.
    pub(crate) fn push(&mut self, size: u16, bin: u8)
        requires { length self.old.bins < 960 }
        ensures { self.new ≡ told (self.old.items ++ size ∷ []) (self.old.bins ++ bin ∷ []) }
    {
        self.items[self.count] = size;
        self.bins[self.count] = bin;
        self.count += 1;
    }
}
