//! Games with listed sizes that are small enough to be worked out by hand.

ghost use Rattle.std.specs.Prelude.{◌≤◌};

use crate::{
    ListedAnswer, ListedCheckFault, ListedFault, ListedGame, ListedWhy, check_listed, listed_text,
    solve_listed,
};
use items::Game;
use port_io::CalmSource;
use std::alloc::{AllocError, Global};
use std::test::Fail;
use strategy_text::Side;
use transposition::ClockMemo;

// A legal strategy of the algorithm for items of size 3.
const OF_THREES: &str = "listed 1\ngame 2 3 4\nsizes 3\nside algorithm\nnodes 2\n\
    0 loads 3 0 items 3 finish\n1 loads 0 0 items - reply 3 on 0 to 0\nend\n";

// The same with the size 2, to which its last node has no reply.
const WITH_TWO: &str = "listed 1\ngame 2 3 4\nsizes 2 3\nside algorithm\nnodes 2\n\
    0 loads 3 0 items 3 finish\n1 loads 0 0 items - reply 3 on 0 to 0\nend\n";

// A legal strategy of the adversary that sends items of the sizes 1, 2 and 3.
const OF_ALL: &str = "listed 1\ngame 2 3 4\nsizes 1 2 3\nside adversary\nnodes 5\n\
    0 loads 2 2 items 1 1 2 send 2 pack 1 2 / 1 2 on 2 over\n\
    1 loads 2 0 items 1 1 send 2 pack 1 2 / 1 on 2 over on 0 to 0\n\
    2 loads 1 1 items 1 1 send 3 pack 3 / 1 1 on 1 over\n\
    3 loads 1 0 items 1 send 1 pack 1 1 / - on 1 to 1 on 0 to 2\n\
    4 loads 0 0 items - send 1 pack 1 / - on 0 to 3\nend\n";

// The same without the size 3, which its node 2 sends.
const WITHOUT_THREE: &str = "listed 1\ngame 2 3 4\nsizes 1 2\nside adversary\nnodes 5\n\
    0 loads 2 2 items 1 1 2 send 2 pack 1 2 / 1 2 on 2 over\n\
    1 loads 2 0 items 1 1 send 2 pack 1 2 / 1 on 2 over on 0 to 0\n\
    2 loads 1 1 items 1 1 send 3 pack 3 / 1 1 on 1 over\n";

// What is told of a text.
fn told(alloc: Global, text: &str) -> Result<String, AllocError> {
    let mut source = CalmSource::new(text.as_bytes());
    match check_listed(alloc, &mut source) {
        Ok(accepted) => {
            let side = match accepted.side {
                Side::Adversary => "adversary",
                Side::Algorithm => "algorithm",
            };
            let sizes = accepted.sizes.len();
            let nodes = accepted.nodes;
            format!(in alloc; "{side} sizes {sizes} nodes {nodes}")
        }
        Err(ListedCheckFault::Rejected { line, why }) => {
            let rule = match why {
                ListedWhy::Sizes => "sizes",
                ListedWhy::Syntax => "syntax",
                ListedWhy::Rule(_) => "rule",
            };
            format!(in alloc; "line {line} {rule}")
        }
        Err(ListedCheckFault::Read) => format!(in alloc; "read"),
        Err(ListedCheckFault::Memory) => Err(AllocError),
    }
}

#[test]
fn a_text_is_judged_by_its_list(rt: HostRuntime) -> Result<(), Fail> {
    let alloc = rt.alloc();
    let rows = [
        (OF_THREES, "algorithm sizes 1 nodes 2"),
        (WITH_TWO, "line 7 rule"),
        (OF_ALL, "adversary sizes 3 nodes 5"),
        (WITHOUT_THREE, "line 8 rule"),
        ("listed 1\ngame 2 3 4\nsizes 2 1\n", "line 3 sizes"),
        ("listed 1\ngame 2 3 4\nsizes 2 4\n", "line 3 sizes"),
        ("listed 1\ngame 2 3 3\nsizes 2 1\n", "line 2 rule"),
        ("listed 1\ngame 2 3 4\nsizes\n", "line 3 syntax"),
        ("stretch 1\ngame 2 3 4\nsizes 1\n", "line 1 syntax"),
    ];
    for (text, due) in rows {
        assert_eq!(rt; told(alloc, text)?.as_str(), due);
    }
    Ok(())
}

#[test]
fn a_list_that_is_none_of_sizes_is_refused(rt: HostRuntime) -> Result<(), Fail> {
    let alloc = rt.alloc();
    let game = Game::new(2, 3, 4)?;
    assert!(rt; matches!(ListedGame::new(alloc, &game, &[]), Err(ListedFault::Sizes)));
    assert!(rt;
        matches!(
            ListedGame::new(alloc, &game, &[3, 1]),
            Err(ListedFault::Sizes)
        )
    );
    assert!(rt;
        matches!(
            ListedGame::new(alloc, &game, &[2, 2]),
            Err(ListedFault::Sizes)
        )
    );
    assert!(rt;
        matches!(
            ListedGame::new(alloc, &game, &[0, 2]),
            Err(ListedFault::Sizes)
        )
    );
    assert!(rt;
        matches!(
            ListedGame::new(alloc, &game, &[1, 4]),
            Err(ListedFault::Sizes)
        )
    );
    assert!(rt; ListedGame::new(alloc, &game, &[1, 3]).is_ok());
    Ok(())
}

// The text that a search finds, or how many visits it made.
fn searched(alloc: Global, sizes: &[u16], budget: u32) -> Result<String, Fail>
    requires some { 1 ≤ budget }
    requires most { budget ≤ 1000000 }
{
    let game = Game::new(2, 3, 4)?;
    let listed = ListedGame::new(alloc, &game, sizes)?;
    let mut memo = ClockMemo::new(alloc, 1)?;
    match solve_listed(alloc, &listed, budget, &mut memo)? {
        ListedAnswer::Found(strategy) => {
            let text = listed_text(alloc, &strategy)?;
            let text = std::str::from_utf8(text.as_slice()).unwrap_or("");
            Ok(format!(in alloc; "{text}")?)
        }
        ListedAnswer::Undecided { visits, .. } => Ok(format!(in alloc; "visits {visits}")?),
    }
}

#[test]
fn a_search_ends_where_it_was_worked_out_to(rt: HostRuntime) -> Result<(), Fail> {
    let alloc = rt.alloc();
    assert_eq!(rt; searched(alloc, &[3], 1)?.as_str(), "visits 1");
    assert_eq!(rt; searched(alloc, &[3], 2)?.as_str(), OF_THREES);
    let found = searched(alloc, &[1, 2, 3], 100000)?;
    let told = told(alloc, found.as_str())?;
    assert!(rt; told.as_str().starts_with("adversary sizes 3"));
    Ok(())
}
