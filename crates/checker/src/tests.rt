//! Checks and loads at concrete sources.

use crate::{CheckFault, Wanted, Why, check, load, load_from};
use port_io::{CalmSource, LineReader, MemSource, Source};
use std::alloc::{AllocError, Global};
use std::test::Fail;
use strategy_text::{Nodes, Rule, Side};

// A legal strategy of the adversary, and the same with a placement that is not said to be over.
const LEGAL: &str = "stretch 1\ngame 2 3 4\nside adversary\nnodes 5\n\
    0 loads 2 2 items 1 1 2 send 2 pack 1 2 / 1 2 on 2 over\n\
    1 loads 2 0 items 1 1 send 2 pack 1 2 / 1 on 2 over on 0 to 0\n\
    2 loads 1 1 items 1 1 send 3 pack 3 / 1 1 on 1 over\n\
    3 loads 1 0 items 1 send 1 pack 1 1 / - on 1 to 1 on 0 to 2\n\
    4 loads 0 0 items - send 1 pack 1 / - on 0 to 3\nend\n";

const OVER_NOT_SAID: &str = "stretch 1\ngame 2 3 4\nside adversary\nnodes 5\n\
    0 loads 2 2 items 1 1 2 send 2 pack 1 2 / 1 2 on 2 to 0\n\
    1 loads 2 0 items 1 1 send 2 pack 1 2 / 1 on 2 over on 0 to 0\n";

// A legal strategy of the algorithm in format 2, which keeps no bin for big items at its one node.
const OF_ALGORITHM: &str =
    "stretch 2\ngame 2 3 5\nside algorithm\nnodes 1\n0 loads 0 0 items - finish\nend\n";

// That strategy before a line that is no part of it, and with less than its last line.
const FOLLOWED: &str =
    "stretch 2\ngame 2 3 5\nside algorithm\nnodes 1\n0 loads 0 0 items - finish\nend\n7\n";

const WITHOUT_END: &str =
    "stretch 2\ngame 2 3 5\nside algorithm\nnodes 1\n0 loads 0 0 items - finish\n";

const UNFINISHED: &str =
    "stretch 2\ngame 2 3 5\nside algorithm\nnodes 1\n0 loads 0 0 items - finish\nend";

// A text, whether it is to be the whole input, and the line at which it is refused, or 0.
const ENDS: [(&str, bool, u64); 6] = [
    (OF_ALGORITHM, true, 0),
    (FOLLOWED, false, 0),
    (FOLLOWED, true, 7),
    (WITHOUT_END, false, 6),
    (UNFINISHED, false, 6),
    (UNFINISHED, true, 6),
];

fn refused_line(alloc: Global, text: &str, whole: bool) -> Result<u64, AllocError> {
    let mut source = CalmSource::new(text.as_bytes());
    let loaded = if whole {
        load(alloc, &mut source, Wanted::Either)
    } else {
        let mut lines = LineReader::new(alloc)?;
        load_from(alloc, &mut lines, &mut source, Wanted::Either)
    };
    match loaded {
        Err(CheckFault::Rejected { line, .. }) => Ok(line),
        Err(_) => Ok(1),
        Ok(_) => Ok(0),
    }
}

#[test]
fn a_text_ends_with_its_last_line(rt: HostRuntime) {
    for row in &ENDS {
        assert!(rt;
            refused_line(rt.alloc(), row.0, row.1).is_ok_and(|line| line == row.2),
            "{}",
            row.0
        );
    }
}

// A source of single bytes shows that no byte after the last line is asked for.
#[test]
fn what_follows_a_text_is_left(rt: HostRuntime) -> Result<(), Fail> {
    let mut source = MemSource::new(rt.alloc(), FOLLOWED.as_bytes(), 1, &[])?;
    let mut lines = LineReader::new(rt.alloc())?;
    let loaded = load_from(rt.alloc(), &mut lines, &mut source, Wanted::Either)?;
    assert!(rt; matches!(&loaded.nodes, Nodes::Algorithm(nodes) if nodes.len() == 1));
    let mut byte = [0u8; 1];
    assert_eq!(rt; source.read(&mut byte).ok(), Some(1));
    assert_eq!(rt; byte[0], b'7');
    Ok(())
}

#[test]
fn a_strategy_of_a_wanted_side_is_loaded(rt: HostRuntime) -> Result<(), Fail> {
    let alloc = rt.alloc();
    let mut source = CalmSource::new(OF_ALGORITHM.as_bytes());
    let loaded = load(alloc, &mut source, Wanted::Only(Side::Algorithm))?;
    assert!(rt; matches!(&loaded.nodes, Nodes::Algorithm(nodes) if nodes.len() == 1));
    let mut source = CalmSource::new(OF_ALGORITHM.as_bytes());
    let fault = load(alloc, &mut source, Wanted::Only(Side::Adversary)).err();
    assert!(rt;
        matches!(
            fault,
            Some(CheckFault::Rejected {
                line: 3,
                why: Why::Rule(Rule::Side)
            })
        )
    );
    Ok(())
}

#[test]
fn a_legal_text_is_accepted_with_its_game(rt: HostRuntime) -> Result<(), Fail> {
    let accepted = check(rt.alloc(), &mut CalmSource::new(LEGAL.as_bytes()))?;
    assert_eq!(rt; accepted.game.t(), 4);
    assert_eq!(rt; accepted.side, Side::Adversary);
    assert_eq!(rt; accepted.nodes, 5);
    Ok(())
}

// The fault of line 5 is whole at byte 100. A read that would fail is not made, and the rest is left.
#[test]
fn no_read_is_made_after_a_faulty_line(rt: HostRuntime) -> Result<(), Fail> {
    let mut source = MemSource::new(rt.alloc(), OVER_NOT_SAID.as_bytes(), 1, &[101])?;
    let fault = check(rt.alloc(), &mut source).err().expect(&rt, "a fault");
    let expected = matches!(
        &fault,
        CheckFault::Rejected {
            line: 5,
            why: Why::Rule(Rule::Over)
        }
    );
    assert!(rt; expected);
    let mut byte = [0u8; 1];
    assert!(rt;
        source.read(&mut byte).is_err(),
        "the next read is the 101st"
    );
    assert_eq!(rt; source.read(&mut byte).ok(), Some(1));
    assert_eq!(rt; byte[0], b'1');
    Ok(())
}
