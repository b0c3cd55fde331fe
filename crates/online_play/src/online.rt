//! What an online algorithm is to this program, and the loads that one gives.

ghost use Rattle.std.specs.Prelude.{◌≡◌, ◌≢◌, []};
ghost use Rattle.items.specs.Packable.{Packable};
ghost use Rattle.online_play.specs.Algorithm.{run};

use items::Game;
use loads::Actual;

/// A deterministic online algorithm. Its answer is a function of the value, the game and the history, so
/// asking twice gives the same bin.
pub trait Online: Drop {
    ghost use Rattle.std.specs.Prelude.{ℕ, List};
    ghost use Rattle.items.specs.Game.{GameNumbers, IsGame};
    ghost use Rattle.online_play.specs.Algorithm.{IsAlgorithm};

    // The bin that a value answers, by the game and the history.
    ghost answer: { Self → GameNumbers → List ℕ → ℕ };

    // What a value answers is an algorithm of each game. This stands above `place`, so that a boxed player keeps it.
    ghost is_algorithm: { (player : Self) (game : GameNumbers) → IsGame game → IsAlgorithm game (answer player game) };

    /// The bin, below m, for the last item of a history, which is not empty and is packable. Takes no memory.
    fn place(&self, game: &Game, history: &[u16]) -> u8
        requires some { history.now ≢ [] }
        requires packable { Packable game.now history.now }
        ensures value { result ≡ answer self.now game.now history.now };
}

// A boxed player answers what the player inside does.
impl Online for Box<dyn Online> {
    ghost answer = { λ b. (Online-box b).answer b.value };

    ghost is_algorithm = { λ b. (Online-box b).is_algorithm b.value };

    fn place(&self, game: &Game, history: &[u16]) -> u8 {
        (**self).place(game, history)
    }
}

/// The loads by bin number after a player placed each item of a packable history: its run. Asks the player
/// once for each item, and takes no memory besides.
pub fn loads_after<O: Online>(game: &Game, player: &O, history: &[u16]) -> Actual
    requires packable { Packable game.now history.now }
    ensures run { result ≡ run game.now (O.answer player.now game.now) history.now }
{
    let mut actual = Actual::zero(game);
    for i in 0..history.len() {
        let bin = player.place(game, &history[..i + 1]);
        actual.put(bin, history[i]);
    }
    actual
}
