ghost use Rattle.std.specs.Prelude.{◌≡◌, ◌≢◌, []};
ghost use Rattle.items.specs.Packable.{Packable};

use super::*;
use items::{Game, Sequence};
use packing_witness::Packing;
use std::test::Fail;

// The answers of first fit, best fit and least loaded.
fn answers(game: &Game, history: &[u16]) -> (u8, u8, u8)
    requires some { history.now ≢ [] }
    requires packable { Packable game.now history.now }
{
    (
        FirstFit.place(game, history),
        BestFit.place(game, history),
        LeastLoaded.place(game, history),
    )
}

#[test]
fn the_named_players_follow_their_rules(rt: HostRuntime) -> Result<(), Fail> {
    let game = Game::new(2, 6, 8)?;
    assert_eq!(rt; answers(&game, &[3]), (0, 0, 0));
    assert_eq!(rt; answers(&game, &[3, 2]), (0, 0, 1));
    assert_eq!(rt; answers(&game, &[3, 5]), (1, 1, 1));
    assert_eq!(rt; answers(&game, &[3, 5, 1]), (0, 1, 0));
    assert_eq!(rt; answers(&game, &[4, 4, 1]), (0, 0, 0));
    assert_eq!(rt; answers(&game, &[3, 2, 1]), (0, 0, 1));
    Ok(())
}

#[test]
fn an_item_that_fits_nowhere_goes_to_bin_0(rt: HostRuntime) -> Result<(), Fail> {
    let game = Game::new(2, 3, 4)?;
    assert_eq!(rt; answers(&game, &[1, 1, 2, 2]), (0, 0, 1));
    Ok(())
}

// Answers by the length of the history: an even one goes to bin 0, an odd one to bin 1.
#[derive(Clone, Copy)]
struct ByParity;

impl Online for ByParity {
    ghost use Rattle.std.specs.Prelude.{◌%◌, length};
    ghost use Rattle.std.proofs.Math.Nat.{le_trans, mod-lt};
    ghost use Rattle.std.proofs.Math.Dec.{lit≤};

    ghost answer = { λ player game items. length items % 2 };

    ghost is_algorithm = { λ player game legal items some packable.
        le_trans (mod-lt (length items) (lit≤ tt)) legal.bins.low };

    fn place(&self, _game: &Game, history: &[u16]) -> u8 {
        (history.len() % 2) as u8
    }
}

#[test]
fn loads_follow_the_answers(rt: HostRuntime) -> Result<(), Fail> {
    let game = Game::new(2, 3, 4)?;
    assert_eq!(rt;
        loads_after(&game, &ByParity, &[]).as_slice(),
        [0, 0].as_slice()
    );
    assert_eq!(rt;
        loads_after(&game, &ByParity, &[1, 1, 2]).as_slice(),
        [1, 3].as_slice()
    );
    Ok(())
}

#[test]
fn a_boxed_player_plays_as_it_is(rt: HostRuntime) -> Result<(), Fail> {
    let game = Game::new(2, 3, 4)?;
    let player = Player {
        name: Name::new(rt.alloc(), "first-fit")?,
        player: Box::new(rt.alloc(), FirstFit)?,
    };
    assert_eq!(rt; player.name.as_str(), "first-fit");
    assert_eq!(rt;
        loads_after(&game, &player.player, &[1, 1, 2]).as_slice(),
        [2, 2].as_slice()
    );
    Ok(())
}
