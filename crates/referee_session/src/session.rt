//! A session.

ghost use Rattle.std.specs.Prelude.{◌≡◌, ◌↔◌, ◌<◌, ◌≤◌, ◌+◌, ◌++◌, ◌∷◌, [], IfOk};
ghost use Rattle.std.specs.Prelude.{IfSome, IsNone, IsSome, Some, None, length};
ghost use Rattle.items.specs.Packable.{IsPacking};
ghost use Rattle.adversary_graph.specs.Pools.{IsRoot};
ghost use Rattle.referee_session.specs.Session.{HasEnded, due_of, packing_of, state_of, talk_of};
ghost use Rattle.referee_session.specs.Talk.{loads_of};
ghost use Rattle.referee_session.specs.Turns.{IsLegal};

use crate::stand::{Stand, sent_size, stand_after};
use crate::told::Told;
use adversary_graph::{AdvPool, packing_for};
use items::Game;
use loads::Actual;
use packing_witness::Packing;
use std::alloc::AllocError;
use std::marker::Model;

/// A play of a pool's nodes against answers that come one by one. It tells the item that is due, and goes on when the
/// bin of that item is answered. The items and the answers stand in fixed storage, so no call but
/// [`Session::end_packing`] takes memory.
#[derive(Drop)]
pub struct Session {
    pool: AdvPool,
    root: u32,
    stand: Stand,
    told: Told,
    loads: Actual,
}

impl Model for Session {
    ghost use Rattle.std.specs.Prelude.{◌≡◌, ◌<◌, All};
    ghost use Rattle.online_play.specs.Algorithm.{loads_by_bin};
    ghost use Rattle.adversary_graph.specs.Pools.{IsRoot};
    ghost use Rattle.referee_session.specs.Session.{SessionState, state_of, talk_in};
    ghost use Rattle.referee_session.specs.Talk.{talk_to};

    ghost Value = { SessionState };

    ghost view = { λ s. state_of s.pool s.root s.told.bins };

    ghost invariant = { λ s. IsRoot s.pool.nodes s.root × All (λ bin. bin < s.pool.game.bins) s.told.bins
        × (talk_in s.pool s.root s.told.bins ≡ talk_to s.told.items s.told.bins s.stand)
        × (s.loads ≡ loads_by_bin s.pool.game s.told.items s.told.bins) };
}

impl Session {
    /// A session that plays a pool's nodes from the one of this number on, before the first answer. Takes no memory.
    pub fn begin(pool: AdvPool, root: u32) -> Session
        requires root { IsRoot pool.nodes root }
        ensures begun { result ≡ state_of pool root [] }
    {
        let loads = Actual::zero(&pool.game());
        Session {
            pool,
            root,
            stand: Stand::Waits {
                number: root,
                done: 0,
            },
            told: Told::new(),
            loads,
        }
    }

    /// The size of the item that waits for its bin; None exactly where the play has ended. Takes no memory.
    pub fn due(&self) -> Option<u16>
        ensures due { result ≡ due_of self.now }
        ensures exact { IsNone result ↔ HasEnded self.now }
        ensures few { IsSome result → length self.now.answers < 960 }
    {
        let _count = self.pool.len();
        match self.stand {
            Stand::Waits { number, .. } => Some(sent_size(&self.pool.node(number).step)),
            Stand::Ended { .. } => None,
        }
    }

    /// Puts the item that is due into the bin of this number, the bins being numbered from 0. Takes no memory.
    pub fn answer(&mut self, bin: u8)
        requires within { bin < self.old.pool.game.bins }
        requires due { IsSome (due_of self.old) }
        ensures answered { self.new ≡ state_of self.old.pool self.old.root (self.old.answers ++ bin ∷ []) }
    {
        let _count = self.pool.len();
        let Stand::Waits { number, done } = self.stand else {
            unreachable!()
        };
        let step = &self.pool.node(number).step;
        let load = self.loads.as_slice()[usize::from(bin)];
        let size = sent_size(step);
        self.stand = stand_after(number, done, load, step);
        self.loads.put(bin, size);
        self.told.push(size, bin);
    }

    /// The bins that were answered, in the order of their items. Takes no memory.
    pub fn answers(&self) -> &[u8]
        ensures value { result.now ≡ self.now.answers }
        ensures few { length result.now ≤ 960 }
    {
        self.told.bins()
    }

    /// The loads by bin number. Takes no memory.
    pub fn loads(&self) -> &[u16]
        ensures value { result.now ≡ loads_of self.now.pool.game (talk_of self.now) }
        ensures of_bins { length result.now ≡ self.now.pool.game.bins }
    {
        self.loads.as_slice()
    }

    /// How the items of the play fit into the bins, once it has ended: the end packing of the last node without what
    /// that has beyond the items. None exactly where an item is due.
    ///
    /// # Errors
    ///
    /// Where memory is refused.
    pub fn end_packing(&self) -> Result<Option<Packing>, AllocError>
        ensures value { IfOk result (λ made. made ≡ packing_of self.now) }
        ensures exact { IfOk result (λ made. IsNone made ↔ IsSome (due_of self.now)) }
        ensures holds { IfOk result (λ made. IfSome made (λ packing.
            IsPacking self.now.pool.game packing (talk_of self.now).items)) }
    {
        let _count = self.pool.len();
        match self.stand {
            Stand::Waits { .. } => Ok(None),
            Stand::Ended { number } => {
                let packing = packing_for(self.pool.nodes(), number, self.told.items())?;
                Ok(Some(packing))
            }
        }
    }

    /// The game. Takes no memory.
    pub fn game(&self) -> Game
        ensures value { result ≡ self.now.pool.game }
    {
        self.pool.game()
    }

    // Sees that the session is legal.
    pub(crate) fn see_legal(&self)
        ensures { IsLegal self.now }
    {
        let _count = self.pool.len();
        let _bins = self.told.bins();
    }

    /// The pool, for another session. Takes no memory.
    pub fn into_pool(self) -> AdvPool
        ensures same { result ≡ self.pool }
    {
        self.pool
    }
}
