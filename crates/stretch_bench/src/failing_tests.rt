//! Reads and writes that fail, each of them in turn.

use crate::tests::{ACCEPTED, LEGAL, Run, WITH_COPIES, ends_so};
use std::alloc::{AllocError, Global};

// A strategy, the bytes of a read and the reads that fail, the number with which a check ends, and what it writes.
type Reads = (&'static str, usize, &'static [u64], u8, &'static str);

// The first strategy with a wrong end of line 5.
const WRONG_IN_LINE_5: &str = "\
stretch 1
game 2 3 4
side adversary
nodes 5
0 loads 2 2 items 1 1 2 send 2 pack 1 2 / 1 2 on 2 to 0
1 loads 2 0 items 1 1 send 2 pack 1 2 / 1 on 2 over on 0 to 0
2 loads 1 1 items 1 1 send 3 pack 3 / 1 1 on 1 over
3 loads 1 0 items 1 send 1 pack 1 1 / - on 1 to 1 on 0 to 2
4 loads 0 0 items - send 1 pack 1 / - on 0 to 3
end
";

// The first strategy with numbers that are no game.
const OF_NO_GAME: &str = "\
stretch 1
game 9 3 4
side adversary
nodes 5
0 loads 2 2 items 1 1 2 send 2 pack 1 2 / 1 2 on 2 over
1 loads 2 0 items 1 1 send 2 pack 1 2 / 1 on 2 over on 0 to 0
2 loads 1 1 items 1 1 send 3 pack 3 / 1 1 on 1 over
3 loads 1 0 items 1 send 1 pack 1 1 / - on 1 to 1 on 0 to 2
4 loads 0 0 items - send 1 pack 1 / - on 0 to 3
end
";

// After the line of a fault nothing is read: of reads of one byte the last one of that line may not fail, the next may.
const READS: [Reads; 11] = [
    (LEGAL, 1, &[], 0, ACCEPTED),
    (LEGAL, 7, &[], 0, ACCEPTED),
    (LEGAL, 4_096, &[], 0, ACCEPTED),
    (LEGAL, 4_096, &[1], 4, ""),
    (LEGAL, 4_096, &[2], 4, ""),
    (LEGAL, 100, &[3], 4, ""),
    (LEGAL, 1, &[328], 0, ACCEPTED),
    (WRONG_IN_LINE_5, 1, &[100], 4, ""),
    (WRONG_IN_LINE_5, 1, &[101], 1, "rejected line 5 rule over\n"),
    (OF_NO_GAME, 1, &[21], 4, ""),
    (OF_NO_GAME, 1, &[22], 1, "rejected line 2 rule game\n"),
];

fn is_read(alloc: Global, row: &Reads) -> Result<bool, AllocError> {
    let reads = (row.1, row.2);
    ends_so(
        alloc,
        "check",
        row.0.as_bytes(),
        reads,
        (100, 100, &[]),
        (row.3, row.4.as_bytes()),
    )
}

#[test]
fn a_failing_read_writes_nothing_but_a_fault_before_it(rt: HostRuntime) {
    for row in &READS {
        assert!(rt; is_read(rt.alloc(), row).unwrap_or(false), "by {}", row.1);
    }
}

// The room of a sink, the bytes of a write and the writes that fail, the number with which a check ends, and what it
// writes.
type Writes = (usize, usize, &'static [u64], u8, &'static str);

const WRITES: [Writes; 5] = [
    (100, 1, &[], 0, ACCEPTED),
    (100, 7, &[], 0, ACCEPTED),
    (33, 7, &[], 0, ACCEPTED),
    (100, 1, &[34], 0, ACCEPTED),
    (100, 100, &[1], 5, ""),
];

fn is_written(alloc: Global, row: &Writes) -> Result<bool, AllocError> {
    let writes = (row.0, row.1, row.2);
    ends_so(
        alloc,
        "check",
        LEGAL.as_bytes(),
        (64, &[]),
        writes,
        (row.3, row.4.as_bytes()),
    )
}

#[test]
fn a_failing_write_leaves_a_prefix_of_the_line(rt: HostRuntime) {
    for row in &WRITES {
        assert!(rt;
            is_written(rt.alloc(), row).unwrap_or(false),
            "room {}",
            row.0
        );
    }
}

// Whether each read of one byte ends the check where it fails, also the one that would see the end of the input.
fn each_read_may_fail(alloc: Global) -> Result<bool, AllocError> {
    for read in 1..328u64 {
        let reads = (1, &[read][..]);
        if !ends_so(
            alloc,
            "check",
            LEGAL.as_bytes(),
            reads,
            (100, 100, &[]),
            (4, b""),
        )? {
            return Ok(false);
        }
    }
    Ok(true)
}

#[test]
fn each_failing_read_is_told_and_nothing_written(rt: HostRuntime) {
    assert!(rt; each_read_may_fail(rt.alloc()).unwrap_or(false));
}

// Whether a run leaves this much in a sink with no more room, and in one that takes a byte at a time and then fails.
fn is_left(alloc: Global, row: &Run, front: &[u8]) -> Result<bool, AllocError> {
    let input = row.1.as_bytes();
    let due = (row.2, front);
    let full = (front.len(), 7, &[][..]);
    if !ends_so(alloc, row.0, input, (64, &[]), full, due)? {
        return Ok(false);
    }
    let failing = (1_000, 1, &[front.len() as u64 + 1][..]);
    ends_so(alloc, row.0, input, (64, &[]), failing, due)
}

// Whether a run may be stopped after each byte of what it is to write.
fn is_stopped_anywhere(alloc: Global, row: &Run) -> Result<bool, AllocError> {
    let due = row.3.as_bytes();
    for length in 0..due.len() {
        if !is_left(alloc, row, &due[..length])? {
            return Ok(false);
        }
    }
    Ok(true)
}

const STOPPED: [Run; 2] = [
    ("check", LEGAL, 5, ACCEPTED),
    ("minimise", WITH_COPIES, 5, LEGAL),
];

#[test]
fn each_failing_write_and_each_room_leave_a_prefix(rt: HostRuntime) {
    for row in &STOPPED {
        assert!(rt;
            is_stopped_anywhere(rt.alloc(), row).unwrap_or(false),
            "{}",
            row.0
        );
    }
}
