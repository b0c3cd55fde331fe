//! Worked cases of the program, and that memory is found.

use crate::{Status, run_bench};
use online_play::{BestFit, FirstFit, LeastLoaded, Name, Online, Player};
use port_io::{MemSink, MemSource, Sink, Source};
use std::alloc::{AllocError, Global};

// A legal strategy of the adversary for 2 bins, capacity 3 and target 4.
pub(crate) const LEGAL: &str = "\
stretch 1
game 2 3 4
side adversary
nodes 5
0 loads 2 2 items 1 1 2 send 2 pack 1 2 / 1 2 on 2 over
1 loads 2 0 items 1 1 send 2 pack 1 2 / 1 on 2 over on 0 to 0
2 loads 1 1 items 1 1 send 3 pack 3 / 1 1 on 1 over
3 loads 1 0 items 1 send 1 pack 1 1 / - on 1 to 1 on 0 to 2
4 loads 0 0 items - send 1 pack 1 / - on 0 to 3
end
";

// The same on twice the scale.
pub(crate) const LEGAL_TWICE: &str = "\
stretch 1
game 2 6 8
side adversary
nodes 5
0 loads 4 4 items 2 2 4 send 4 pack 2 4 / 2 4 on 4 over
1 loads 4 0 items 2 2 send 4 pack 2 4 / 2 on 4 over on 0 to 0
2 loads 2 2 items 2 2 send 6 pack 6 / 2 2 on 2 over
3 loads 2 0 items 2 send 2 pack 2 2 / - on 2 to 1 on 0 to 2
4 loads 0 0 items - send 2 pack 2 / - on 0 to 3
end
";

// The first one in format 2, with packings only where the play ends.
pub(crate) const OF_FORMAT_2: &str = "\
stretch 2
game 2 3 4
side adversary
nodes 5
0 loads 2 2 items 1 1 2 send 2 pack 1 2 / 1 2 on 2 over
1 loads 2 0 items 1 1 send 2 on 2 over on 0 to 0
2 loads 1 1 items 1 1 send 3 pack 3 / 1 1 on 1 over
3 loads 1 0 items 1 send 1 on 1 to 1 on 0 to 2
4 loads 0 0 items - send 1 on 0 to 3
end
";

// The first one with nodes 0 and 2 twice.
pub(crate) const WITH_COPIES: &str = "\
stretch 1
game 2 3 4
side adversary
nodes 7
0 loads 2 2 items 1 1 2 send 2 pack 1 2 / 1 2 on 2 over
1 loads 2 2 items 1 1 2 send 2 pack 1 2 / 1 2 on 2 over
2 loads 2 0 items 1 1 send 2 pack 1 2 / 1 on 2 over on 0 to 1
3 loads 1 1 items 1 1 send 3 pack 3 / 1 1 on 1 over
4 loads 1 1 items 1 1 send 3 pack 3 / 1 1 on 1 over
5 loads 1 0 items 1 send 1 pack 1 1 / - on 1 to 2 on 0 to 4
6 loads 0 0 items - send 1 pack 1 / - on 0 to 5
end
";

// A strategy of the adversary in format 2, with bursts.
pub(crate) const WITH_BURSTS: &str = "\
stretch 2
game 2 3 4
side adversary
nodes 4
0 loads 2 0 items 1 1 burst 2 2 pack 1 2 / 1 2
1 loads 1 1 items 1 1 burst 1 3 pack 3 / 1 1
2 loads 1 0 items 1 send 1 on 1 to 0 on 0 to 1
3 loads 0 0 items - send 1 on 0 to 2
end
";

// A strategy of the algorithm for 2 bins, capacity 2 and target 3.
pub(crate) const OF_ALGORITHM: &str = "\
stretch 1
game 2 2 3
side algorithm
nodes 5
0 loads 2 0 items 1 1 finish
1 loads 2 1 items 1 2 finish
2 loads 1 0 items 1 reply 1 on 1 to 0 2 on 0 to 1
3 loads 2 0 items 2 finish
4 loads 0 0 items - reply 1 on 0 to 2 2 on 0 to 3
end
";

// The same in format 2.
pub(crate) const OF_ALGORITHM_IN_FORMAT_2: &str = "\
stretch 2
game 2 2 3
side algorithm
nodes 5
0 loads 2 0 items 1 1 finish
1 loads 2 1 items 1 2 finish
2 loads 1 0 items 1 reply 1 on 1 to 0 2 on 0 to 1
3 loads 2 0 items 2 finish
4 loads 0 0 items - reply 1 on 0 to 2 2 on 0 to 3
end
";

// A strategy of the algorithm in format 2.
pub(crate) const WITH_BIG: &str = "\
stretch 2
game 2 2 3
side algorithm
nodes 6
0 loads 2 0 items 1 1 finish
1 loads 2 1 items 1 2 finish
2 loads 1 0 items 1 reply 1 on 1 to 0 2 on 0 to 1
3 loads 2 2 items 2 2 big 0
4 loads 2 0 items 2 reply 1 on 0 to 1 2 on 0 to 3
5 loads 0 0 items - reply 1 on 0 to 2 2 on 0 to 4
end
";

// The same in format 1, with no reply where all is full.
pub(crate) const WITHOUT_BIG: &str = "\
stretch 1
game 2 2 3
side algorithm
nodes 6
0 loads 2 0 items 1 1 finish
1 loads 2 1 items 1 2 finish
2 loads 1 0 items 1 reply 1 on 1 to 0 2 on 0 to 1
3 loads 2 2 items 2 2 reply -
4 loads 2 0 items 2 reply 1 on 0 to 1 2 on 0 to 3
5 loads 0 0 items - reply 1 on 0 to 2 2 on 0 to 4
end
";

// A strategy of one node that finishes.
pub(crate) const FINISHING: &str =
    "stretch 1\ngame 2 3 5\nside algorithm\nnodes 1\n0 loads 0 0 items - finish\nend\n";

// The same for the largest game.
pub(crate) const FINISHING_LARGEST: &str = "\
stretch 1
game 8 120 240
side algorithm
nodes 1
0 loads 0 0 0 0 0 0 0 0 items - finish
end
";

pub(crate) const ACCEPTED: &str = "accepted adversary 2 3 4 nodes 5\n";

// The words of a line.
fn words_of(alloc: Global, line: &str) -> Result<Vec<String>, AllocError> {
    let mut words = Vec::new(alloc);
    for word in line.split_whitespace() {
        words.push(String::from_str(alloc, word)?)?;
    }
    Ok(words)
}

// A player under its name.
fn player(alloc: Global, name: &str, player: Box<dyn Online>) -> Result<Player, AllocError> {
    Ok(Player {
        name: Name::new(alloc, name)?,
        player,
    })
}

// The status of a run of these words against the three named players.
pub(crate) fn run<S: Source, K: Sink>(
    alloc: Global,
    line: &str,
    source: &mut S,
    sink: &mut K,
) -> Result<Status, AllocError> {
    let words = words_of(alloc, line)?;
    let mut players = Vec::new(alloc);
    players.push(player(alloc, "first-fit", Box::new(alloc, FirstFit)?)?)?;
    players.push(player(alloc, "best-fit", Box::new(alloc, BestFit)?)?)?;
    players.push(player(alloc, "least-loaded", Box::new(alloc, LeastLoaded)?)?)?;
    Ok(run_bench(alloc, words.as_slice(), &players, source, sink))
}

// Whether a run of these words ends with a number and has written this. Of the source the bytes of a read and the reads
// that fail are given, of the sink its room, the bytes of a write and the writes that fail.
pub(crate) fn ends_so(
    alloc: Global,
    words: &str,
    input: &[u8],
    reads: (usize, &[u64]),
    writes: (usize, usize, &[u64]),
    due: (u8, &[u8]),
) -> Result<bool, AllocError> {
    let mut source = MemSource::new(alloc, input, reads.0.max(1), reads.1)?;
    let mut sink = MemSink::new(alloc, writes.0, writes.1.max(1), writes.2)?;
    let status = run(alloc, words, &mut source, &mut sink)?;
    if status.code() != due.0 {
        return Ok(false);
    }
    Ok(sink.bytes() == due.1)
}

// The same where each read and write is made.
pub(crate) fn ends_calmly(
    alloc: Global,
    words: &str,
    input: &[u8],
    due: (u8, &str),
) -> Result<bool, AllocError> {
    let due = (due.0, due.1.as_bytes());
    ends_so(alloc, words, input, (64, &[]), (1_000, 100, &[]), due)
}

// The same where the first read fails.
fn ends_unread(alloc: Global, words: &str, due: (u8, &str)) -> Result<bool, AllocError> {
    ends_so(
        alloc,
        words,
        LEGAL.as_bytes(),
        (64, &[1]),
        (1_000, 100, &[]),
        (due.0, due.1.as_bytes()),
    )
}

// Words and an input, and the number with which a run of them ends, and what it writes.
pub(crate) type Run = (&'static str, &'static str, u8, &'static str);

pub(crate) fn is_due(alloc: Global, row: &Run) -> Result<bool, AllocError> {
    ends_calmly(alloc, row.0, row.1.as_bytes(), (row.2, row.3))
}

// Words for which nothing is read, the number with which a run of them ends, and what it writes.
pub(crate) type Unread = (&'static str, u8, &'static str);

pub(crate) fn is_due_unread(alloc: Global, row: &Unread) -> Result<bool, AllocError> {
    ends_unread(alloc, row.0, (row.1, row.2))
}

// A line without the packing that it may have: what stands before it, and after.
fn without_packing(line: &str) -> (&str, &str) {
    match line.split_once(" pack ") {
        Some((before, pack)) => match pack.split_once(" on ") {
            Some((_, after)) => (before, after),
            None => (before, ""),
        },
        None => (line, ""),
    }
}

// Whether the lines of a text begin with these, but for packings.
fn begins_but_for_packings(text: &str, front: &str) -> bool {
    for (line, due) in text.lines().zip(front.lines()) {
        if without_packing(line) != without_packing(due) {
            return false;
        }
    }
    true
}

// Words and an input, the first lines of the strategy that a run of them writes, but for their packings, and how the
// line of a check of it begins.
pub(crate) type Found = (&'static str, &'static str, &'static str, &'static str);

// The number with which a run of these words ends, and what it writes.
fn outcome(alloc: Global, words: &str, input: &[u8]) -> Result<(u8, MemSink), AllocError> {
    let mut source = MemSource::new(alloc, input, 4_096, &[])?;
    let mut sink = MemSink::new(alloc, 100_000, 4_096, &[])?;
    let status = run(alloc, words, &mut source, &mut sink)?;
    Ok((status.code(), sink))
}

pub(crate) fn is_found(alloc: Global, row: &Found) -> Result<bool, AllocError> {
    let (code, found) = outcome(alloc, row.0, row.1.as_bytes())?;
    let (_, checked) = outcome(alloc, "check", found.bytes())?;
    let text = std::str::from_utf8(found.bytes()).unwrap_or("");
    if code != 0 || !begins_but_for_packings(text, row.2) {
        return Ok(false);
    }
    Ok(checked.bytes().starts_with(row.3.as_bytes()))
}

// Whether a run of these words ends with a number, and what it writes begins so. A read would fail.
pub(crate) fn is_begun(alloc: Global, row: &Unread) -> Result<bool, AllocError> {
    let mut source = MemSource::new(alloc, LEGAL.as_bytes(), 64, &[1])?;
    let mut sink = MemSink::new(alloc, 1_000, 100, &[])?;
    let status = run(alloc, row.0, &mut source, &mut sink)?;
    if status.code() != row.1 {
        return Ok(false);
    }
    Ok(sink.bytes().starts_with(row.2.as_bytes()))
}

const NO_COMMANDS: [&str; 37] = [
    "",
    "check now",
    "play",
    "play first-fit x",
    "play first",
    "answer 0",
    "answer x",
    "answer 1 65536",
    "answer +1",
    "answer 1 -",
    "minimise now",
    "drill 7 0",
    "drill 7 200001",
    "drill 18446744073709551616 1",
    "search 2 3 4 budget=0 table=1",
    "search 2 3 4 budget=1 table=4000001",
    "search 2 3 4 table=1 budget=1",
    "search 9 3 4 budget=1 table=1",
    "Check",
    "checks",
    "play nobody",
    "answer 01",
    "search 2 3 3 budget=1 table=1",
    "search 2 121 130 budget=1 table=1",
    "session now",
    "sessions",
    "scale 0",
    "scale 121",
    "scale 02",
    "scale",
    "weaken 0",
    "weaken 241",
    "weaken 7 now",
    "value 9 3 budget=1 table=1",
    "value 2 121 budget=1 table=1",
    "value 2 3 table=1 budget=1",
    "value 2 3 4 budget=1 table=1",
];

fn is_usage(alloc: Global, words: &str) -> Result<bool, AllocError> {
    ends_unread(alloc, words, (2, "usage\n"))
}

#[test]
fn other_words_give_usage_and_read_nothing(rt: HostRuntime) {
    for words in &NO_COMMANDS {
        assert!(rt; is_usage(rt.alloc(), words).unwrap_or(false), "{words}");
    }
}

#[test]
fn refused_memory_has_its_number(rt: HostRuntime) {
    assert_eq!(rt; Status::OutOfMemory.code(), 6);
}
