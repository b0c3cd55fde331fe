//! The first fault of an input is written, also of one that is cut.

use crate::tests::{
    FINISHING, LEGAL, OF_ALGORITHM, Run, WITH_BIG, WITH_BURSTS, ends_calmly, is_due,
};
use std::alloc::{AllocError, Global};

// The strategy of the adversary with lines that end in a carriage return and a line feed.
const WITH_RETURNS: &str = "\
stretch 1\r
game 2 3 4\r
side adversary\r
nodes 5\r
0 loads 2 2 items 1 1 2 send 2 pack 1 2 / 1 2 on 2 over\r
1 loads 2 0 items 1 1 send 2 pack 1 2 / 1 on 2 over on 0 to 0\r
2 loads 1 1 items 1 1 send 3 pack 3 / 1 1 on 1 over\r
3 loads 1 0 items 1 send 1 pack 1 1 / - on 1 to 1 on 0 to 2\r
4 loads 0 0 items - send 1 pack 1 / - on 0 to 3\r
end\r
";

// The text with another in place of the first one that stands in it.
fn edited(alloc: Global, text: &str, from: &str, to: &str) -> Result<String, AllocError> {
    let mut edited = String::new(alloc);
    match text.split_once(from) {
        Some((before, after)) => {
            edited.push_str(before)?;
            edited.push_str(to)?;
            edited.push_str(after)?;
        }
        None => edited.push_str("not found")?,
    }
    Ok(edited)
}

// A strategy, a text in it and what is written there, and the line that a check then writes.
type Fault = (&'static str, &'static str, &'static str, &'static str);

fn is_rejected(alloc: Global, row: &Fault) -> Result<bool, AllocError> {
    let input = edited(alloc, row.0, row.1, row.2)?;
    ends_calmly(alloc, "check", input.as_bytes(), (1, row.3))
}

const FAULTS: [Fault; 39] = [
    (
        OF_ALGORITHM,
        " 2 on 0 to 1\n",
        "\n",
        "rejected line 7 rule replies\n",
    ),
    (
        OF_ALGORITHM,
        " 2 on 0 to 1\n",
        " 2 on 1 to 1\n",
        "rejected line 7 rule reply\n",
    ),
    (
        OF_ALGORITHM,
        " 1 on 0 to 2 ",
        " 1 on 0 to 3 ",
        "rejected line 9 rule child\n",
    ),
    (
        OF_ALGORITHM,
        "2 1 items 1 2 finish",
        "1 1 items 1 1 finish",
        "rejected line 6 rule finish\n",
    ),
    (
        WITH_BURSTS,
        "burst 2 2 pack 1 2 / 1 2",
        "burst 1 2 pack 1 2 / 1",
        "rejected line 5 rule burst\n",
    ),
    (
        WITH_BURSTS,
        "burst 2 2",
        "burst 2 0",
        "rejected line 5 rule send\n",
    ),
    (
        WITH_BURSTS,
        "1 send 1 on",
        "1 send 1 pack 1 1 / - on",
        "rejected line 7 rule pack\n",
    ),
    (
        WITH_BURSTS,
        "stretch 2",
        "stretch 1",
        "rejected line 5 syntax\n",
    ),
    (
        LEGAL,
        "stretch 1",
        "stretch 2",
        "rejected line 6 rule pack\n",
    ),
    (LEGAL, "stretch 1", "stretch 3", "rejected line 1 syntax\n"),
    (LEGAL, "end\n", "", "rejected line 10 syntax\n"),
    (LEGAL, "end\n", "end", "rejected line 10 syntax\n"),
    (LEGAL, "end\n", "end\nx", "rejected line 11 syntax\n"),
    (
        LEGAL,
        "pack 1 2 / 1 on",
        "pack 2 / 1 1 1 on",
        "rejected line 6 rule pack\n",
    ),
    (
        LEGAL,
        "on 2 over\n1",
        "on 2 to 0\n1",
        "rejected line 5 rule over\n",
    ),
    (
        LEGAL,
        "on 0 to 2",
        "on 0 to 3",
        "rejected line 8 rule child\n",
    ),
    (LEGAL, "nodes 5", "nodes 4", "rejected line 8 rule root\n"),
    (LEGAL, "nodes 5", "nodes 6", "rejected line 10 syntax\n"),
    (
        LEGAL,
        "nodes 5",
        "nodes 4000000000",
        "rejected line 10 syntax\n",
    ),
    (LEGAL, "nodes 5", "nodes 05", "rejected line 4 syntax\n"),
    (LEGAL, "nodes 5", "nodes  5", "rejected line 4 syntax\n"),
    (
        LEGAL,
        "game 2 3 4",
        "game 2 3 3",
        "rejected line 2 rule game\n",
    ),
    (
        LEGAL,
        "game 2 3 4",
        "game 9 3 4",
        "rejected line 2 rule game\n",
    ),
    (WITH_BIG, "big 0", "big 1", "rejected line 8 rule big\n"),
    (WITH_BIG, "big 0", "big 2", "rejected line 8 rule big\n"),
    (
        WITH_BIG,
        "stretch 2",
        "stretch 1",
        "rejected line 8 syntax\n",
    ),
    (
        FINISHING,
        "game 2 3 5",
        "game 2 2 3",
        "rejected line 5 rule finish\n",
    ),
    (LEGAL, "nodes 5", "nodes 0", "rejected line 4 syntax\n"),
    (
        LEGAL,
        "nodes 5",
        "nodes 4000000001",
        "rejected line 4 syntax\n",
    ),
    (LEGAL, "nodes 5", "nodes 1", "rejected line 5 rule root\n"),
    (LEGAL, "nodes 5", "nodes 2", "rejected line 6 rule root\n"),
    (LEGAL, "nodes 5", "nodes 3", "rejected line 7 rule root\n"),
    (
        LEGAL,
        "on 0 to 2",
        "on 0 to 4294967295",
        "rejected line 8 rule child\n",
    ),
    (
        LEGAL,
        "on 0 to 2",
        "on 0 to 4294967296",
        "rejected line 8 syntax\n",
    ),
    (
        LEGAL,
        "items - send 1",
        "items - send 0",
        "rejected line 9 rule send\n",
    ),
    (
        LEGAL,
        "4 loads 0 0",
        "4 loads 65535 0",
        "rejected line 9 rule loads\n",
    ),
    (
        LEGAL,
        "pack 1 / -",
        "pack 1 65535 / -",
        "rejected line 9 rule pack\n",
    ),
    (
        LEGAL,
        "4 loads 0 0",
        "4 loads -",
        "rejected line 9 rule loads\n",
    ),
    (
        LEGAL,
        "4 loads 0 0",
        "4 loads 65536 0",
        "rejected line 9 syntax\n",
    ),
];

#[test]
fn the_first_fault_is_written(rt: HostRuntime) {
    for row in &FAULTS {
        assert!(rt; is_rejected(rt.alloc(), row).unwrap_or(false), "{}", row.2);
    }
}

// A first line of 16,385 bytes.
fn is_too_long(alloc: Global) -> Result<bool, AllocError> {
    let mut long = vec![in alloc; b'x'; 16_385]?;
    long.push(b'\n')?;
    ends_calmly(
        alloc,
        "check",
        long.as_slice(),
        (1, "rejected line 1 syntax\n"),
    )
}

const OTHERS: [Run; 2] = [
    ("check", "", 1, "rejected line 1 syntax\n"),
    ("check", WITH_RETURNS, 1, "rejected line 1 syntax\n"),
];

#[test]
fn inputs_of_another_kind_are_rejected(rt: HostRuntime) {
    for row in &OTHERS {
        assert!(rt; is_due(rt.alloc(), row).unwrap_or(false), "{}", row.1);
    }
    assert!(rt; is_too_long(rt.alloc()).unwrap_or(false));
}

// Whether a check of the input writes a syntax fault of this line.
fn is_of_no_form(alloc: Global, input: &[u8], line: u64) -> Result<bool, AllocError> {
    let due = format!(in alloc; "rejected line {line} syntax\n")?;
    ends_calmly(alloc, "check", input, (1, due.as_str()))
}

// Whether each text that ends before this one does is rejected at the line in which it ends.
fn is_rejected_where_cut(alloc: Global, text: &str) -> Result<bool, AllocError> {
    let bytes = text.as_bytes();
    let mut line = 1u64;
    for length in 0..bytes.len() {
        if !is_of_no_form(alloc, &bytes[..length], line)? {
            return Ok(false);
        }
        if bytes[length] == b'\n' {
            line = line.saturating_add(1);
        }
    }
    Ok(true)
}

#[test]
fn a_text_that_is_cut_is_rejected_where_it_ends(rt: HostRuntime) {
    for text in &[LEGAL, OF_ALGORITHM] {
        assert!(rt;
            is_rejected_where_cut(rt.alloc(), text).unwrap_or(false),
            "{text}"
        );
    }
}
