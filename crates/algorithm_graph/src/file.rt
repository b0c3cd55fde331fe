//! A strategy of the algorithm as a player.

ghost use Rattle.std.specs.Prelude.{◌≡◌, ◌≢◌, ◌↔◌, [], IsTrue};
ghost use Rattle.items.specs.Multiset.{sizes_of};
ghost use Rattle.items.specs.Packable.{Packable};
ghost use Rattle.online_play.specs.Algorithm.{KeepsBelow};
ghost use Rattle.algorithm_graph.specs.Files.{is_same_game, file_answer};
ghost use Rattle.algorithm_graph.specs.Legal.{IsLegal};
ghost use Rattle.algorithm_graph.specs.Pools.{IsRoot, pool_of};
ghost use Rattle.node_pool.specs.Pools.{nodes_up_to};

use crate::pool::{AlgJudged, AlgPool};
use crate::replay::replay;
use items::Game;
use online_play::Online;
use std::marker::Model;

/// The nodes of a pool up to a root, as a player: to the game of the pool it answers the replies of the strategy that
/// they are, which keep every load below the target; to any other game it answers bin 0. Clauses see these nodes.
#[derive(Drop)]
pub struct FileAlgorithm {
    nodes: AlgJudged,
    root: u32,
}

impl Model for FileAlgorithm {
    ghost use Rattle.std.specs.Prelude.{◌≡◌};
    ghost use Rattle.items.specs.Multiset.{sizes_of};
    ghost use Rattle.node_pool.specs.Pools.{nodes_up_to};
    ghost use Rattle.algorithm_graph.specs.Pools.{Pool, IsRoot, pool_of};

    ghost Value = { Pool };

    ghost view = { λ a. pool_of a.nodes.format a.nodes.game (nodes_up_to a.root a.nodes.nodes) };

    ghost invariant = { λ a. IsRoot a.nodes.nodes a.root × (a.nodes.sizes ≡ sizes_of a.nodes.game) };
}

impl FileAlgorithm {
    /// The player of the nodes up to this root, which has the empty position; the pool is of the whole game. The
    /// positions are dropped. Takes no memory.
    pub fn new(pool: AlgPool, root: u32) -> FileAlgorithm
        requires root { IsRoot pool.nodes root }
        requires whole_game { pool.sizes ≡ sizes_of pool.game }
        ensures value { result ≡ pool_of pool.format pool.game (nodes_up_to root pool.nodes) }
        ensures legal { IsLegal result.format result.game (sizes_of result.game) result.nodes }
        ensures below { KeepsBelow result.game (file_answer result result.game) }
    {
        FileAlgorithm::of_nodes(pool.into_nodes(), root)
    }

    /// As [`FileAlgorithm::new`], of nodes without their positions. Takes no memory.
    pub fn of_nodes(nodes: AlgJudged, root: u32) -> FileAlgorithm
        requires root { IsRoot nodes.nodes root }
        requires whole_game { nodes.sizes ≡ sizes_of nodes.game }
        ensures value { result ≡ pool_of nodes.format nodes.game (nodes_up_to root nodes.nodes) }
        ensures legal { IsLegal result.format result.game (sizes_of result.game) result.nodes }
        ensures below { KeepsBelow result.game (file_answer result result.game) }
    {
        let _count = nodes.len();
        FileAlgorithm { nodes, root }
    }

    /// The game that the strategy is for. Takes no memory.
    pub fn game(&self) -> Game
        ensures value { result ≡ self.now.game }
    {
        self.nodes.game()
    }

    // The nodes are a legal strategy.
    pub(crate) fn see_legal(&self)
        ensures legal { let file = self.now in IsLegal file.format file.game (sizes_of file.game) file.nodes }
    {
        let _count = self.nodes.len();
    }
}

impl Online for FileAlgorithm {
    ghost use Rattle.algorithm_graph.specs.Files.{file_answer};
    ghost use Rattle.algorithm_graph.specs.RepliesAnswer.{file_answers_as_algorithm};

    ghost answer = { file_answer };

    ghost is_algorithm = { file_answers_as_algorithm };

    fn place(&self, game: &Game, history: &[u16]) -> u8 {
        if !is_same_game(game, &self.nodes.game()) {
            return 0;
        }
        replay(&self.nodes, self.root, game, history)
    }
}

// Whether two games have the same numbers.
fn is_same_game(one: &Game, other: &Game) -> bool
    ensures { result ≡ is_same_game one.now other.now }
{
    one.m() == other.m() && (one.g() == other.g() && one.t() == other.t())
}
