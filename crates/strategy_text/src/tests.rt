use super::*;
use items::Nums;
use std::alloc::{AllocError, Global};

/// Lines that are node 0 of the adversary in both formats.
const SENDS: [&str; 9] = [
    "0 loads 2 2 items 1 1 2 send 2 pack 1 2 / 1 2 on 2 over",
    "0 loads 2 0 items 1 1 send 2 pack 1 2 / 1 on 2 over on 0 to 0",
    "0 loads 0 0 items - send 1 pack 1 / - on 0 to 3",
    "0 loads - items - send 0 pack - on 0 over",
    "0 loads - items - send 0 pack - / - / - on 0 over",
    "0 loads 65535 items - send 0 pack - on 0 over",
    "0 loads - items - send 65535 pack - on 0 over",
    "0 loads - items - send 0 pack - on 0 to 4294967295",
    "0 loads - items - send 0 pack 65535 10 0 / 7 on 0 over on 0 over",
];

/// Lines that are node 0 of the adversary in format 2 alone.
const SENDS_IN_FORMAT_2: [&str; 5] = [
    "0 loads 1 0 items 1 send 1 on 1 to 0 on 0 to 1",
    "0 loads - items - send 0 on 0 over",
    "0 loads 2 0 items 1 1 burst 2 2 pack 1 2 / 1 2",
    "0 loads - items - burst 0 0 pack -",
    "0 loads - items - burst 65535 65535 pack 1",
];

/// Lines that are no node 0 of the adversary in either format.
const NO_SENDS: [&str; 42] = [
    "4 loads 0 0 items - send 1 pack 1 / - on 0 to 3",
    "00 loads - items - send 0 pack - on 0 over",
    "0 loads 65536 items - send 0 pack - on 0 over",
    "0 loads 1 65536 items - send 0 pack - on 0 over",
    "0 loads - items - send 65536 pack - on 0 over",
    "0 loads - items - send - pack - on 0 over",
    "0 loads - items - send 0 pack - on 65536 over",
    "0 loads - items - send 0 pack - on 0 to 4294967296",
    "0 loads - items - send 0 pack - on 0 to over",
    "0 loads - items - send 0 pack - on 0 to",
    "0 loads - items - send 0 pack - on - over",
    "0 loads 00 items - send 0 pack - on 0 over",
    "0 loads 1 02 items - send 0 pack - on 0 over",
    "0 loads - items - send 0 pack - on 0 to 03",
    "0 loads +1 items - send 0 pack - on 0 over",
    "0 loads - 1 items - send 0 pack - on 0 over",
    "0 loads 1 - items - send 0 pack - on 0 over",
    "0 loads items - send 0 pack - on 0 over",
    "0  loads - items - send 0 pack - on 0 over",
    "0 loads 1  2 items - send 0 pack - on 0 over",
    " 0 loads - items - send 0 pack - on 0 over",
    "0 loads - items - send 0 pack - on 0 over ",
    "0 loads - items - send 0 pack - on 0 over\r",
    "0 loads - items - send 0 pack - on 0 over\n",
    "0 loads - items - send 0 pack -",
    "0 loads - items - send 0 pack on 0 over",
    "0 loads - items - send 0 pack / - on 0 over",
    "0 loads - items - send 0 pack - / on 0 over",
    "0 loads - items - send 0 pack - on 0 over over",
    "0 items - loads - send 0 pack - on 0 over",
    "0 loads - items - finish",
    "0 loads - items - send 0",
    "0 loads - items - burst 1 1",
    "0 loads - items - burst 1 1 pack",
    "0 loads - items - burst 1 pack 1",
    "0 loads - items - burst - 1 pack 1",
    "0 loads - items - burst 65536 1 pack 1",
    "0 loads - items - burst 1 65536 pack 1",
    "0 loads - items - burst 01 1 pack 1",
    "0 loads - items - burst 1 1 pack 1 on 0 over",
    "0 loads - items - burst 1 1 pack 1 ",
    "",
];

/// Lines that are node 0 of the algorithm in both formats.
const REPLIES: [&str; 7] = [
    "0 loads 2 0 items 1 1 finish",
    "0 loads - items - finish",
    "0 loads 1 0 items 1 reply 1 on 1 to 0 2 on 0 to 1",
    "0 loads - items - reply -",
    "0 loads - items - reply 0 on 0 to 0",
    "0 loads 65535 items - reply 65535 on 65535 to 4294967295",
    "0 loads - items - reply 2 on 0 to 1 1 on 0 to 1",
];

/// Lines that are node 0 of the algorithm in format 2 alone.
const REPLIES_IN_FORMAT_2: [&str; 2] = [
    "0 loads 2 2 items 2 2 big 0",
    "0 loads - items - big 65535",
];

/// Lines that are no node 0 of the algorithm in either format.
const NO_REPLIES: [&str; 23] = [
    "1 loads - items - finish",
    "0 loads - items -",
    "0 loads - items - finish finish",
    "0 loads - items - finish ",
    "0 loads - items - Finish",
    "0 loads - items - finish\r",
    "0 loads - items - reply",
    "0 loads - items - reply - 1 on 0 to 0",
    "0 loads - items - reply 1 on 0 to 0 -",
    "0 loads - items - reply 1 on 0 to",
    "0 loads - items - reply 1 on 0",
    "0 loads - items - reply 1 to 0",
    "0 loads - items - reply 1 on 0 over",
    "0 loads - items - reply on 0 to 0",
    "0 loads - items - reply 65536 on 0 to 0",
    "0 loads - items - reply 1 on 65536 to 0",
    "0 loads - items - reply 1 on 0 to 4294967296",
    "0 loads - items - reply 01 on 0 to 0",
    "0 loads - items - reply  1 on 0 to 0",
    "0 loads - items - big",
    "0 loads - items - big -",
    "0 loads - items - big 65536",
    "0 loads - items - big 0 0",
];

/// The node of the adversary that a line spells.
fn adversary(alloc: Global, format: Format, line: &[u8], number: u32) -> Option<AdvNode> {
    parse_adversary(alloc, format, line, number).ok()?
}

/// The node of the algorithm that a line spells.
fn algorithm(alloc: Global, format: Format, line: &[u8], number: u32) -> Option<AlgNode> {
    parse_algorithm(alloc, format, line, number).ok()?
}

/// Whether a line is read as node 0 of a side.
fn is_read(alloc: Global, side: Side, format: Format, line: &[u8]) -> bool {
    match side {
        Side::Adversary => adversary(alloc, format, line, 0).is_some(),
        Side::Algorithm => algorithm(alloc, format, line, 0).is_some(),
    }
}

/// The first of some lines that is read otherwise than as node 0 of a side in these formats.
fn first_other<'a>(
    alloc: Global,
    side: Side,
    lines: &[&'a str],
    in_one: bool,
    in_two: bool,
) -> Option<&'a str> {
    for line in lines {
        if is_read(alloc, side, Format::One, line.as_bytes()) != in_one {
            return Some(line);
        }
        if is_read(alloc, side, Format::Two, line.as_bytes()) != in_two {
            return Some(line);
        }
    }
    None
}

#[test]
fn lines_of_the_adversary_are_read_exactly_where_they_spell_a_node(rt: HostRuntime) {
    let (alloc, side) = (rt.alloc(), Side::Adversary);
    assert_eq!(rt; first_other(alloc, side, &SENDS, true, true), None);
    assert_eq!(rt;
        first_other(alloc, side, &SENDS_IN_FORMAT_2, false, true),
        None
    );
    assert_eq!(rt; first_other(alloc, side, &NO_SENDS, false, false), None);
    assert_eq!(rt; first_other(alloc, side, &REPLIES, false, false), None);
}

#[test]
fn lines_of_the_algorithm_are_read_exactly_where_they_spell_a_node(rt: HostRuntime) {
    let (alloc, side) = (rt.alloc(), Side::Algorithm);
    assert_eq!(rt; first_other(alloc, side, &REPLIES, true, true), None);
    assert_eq!(rt;
        first_other(alloc, side, &REPLIES_IN_FORMAT_2, false, true),
        None
    );
    assert_eq!(rt; first_other(alloc, side, &NO_REPLIES, false, false), None);
    assert_eq!(rt; first_other(alloc, side, &SENDS, false, false), None);
}

/// A node of the adversary whose line has 39 bytes, two for each of so many items and those of the last item.
pub(crate) fn long_line(alloc: Global, ones: usize, last: &[u8]) -> Result<Text, AllocError> {
    let mut line = Text::new(alloc);
    line.push_all(b"0 loads - items")?;
    for _ in 0..ones {
        line.push_all(b" 1")?;
    }
    line.push_all(last)?;
    line.push_all(b" send 1 pack - on 0 over")?;
    Ok(line)
}

/// The length of a long line, and whether it is read.
fn read_long(alloc: Global, ones: usize, last: &[u8]) -> Option<(usize, bool)> {
    let line = long_line(alloc, ones, last).ok()?;
    let read = is_read(alloc, Side::Adversary, Format::One, line.as_slice());
    Some((line.len(), read))
}

#[test]
fn a_line_has_at_most_16384_bytes(rt: HostRuntime) {
    assert!(rt; read_long(rt.alloc(), 8171, b" 10") == Some((16384, true)));
    assert!(rt; read_long(rt.alloc(), 8173, b"") == Some((16385, false)));
    assert!(rt; read_long(rt.alloc(), 8171, b" 100") == Some((16385, false)));
}

fn are_bins(read: &[Nums], bins: &[&[u16]]) -> bool {
    if read.len() != bins.len() {
        return false;
    }
    for (bin, sizes) in read.iter().zip(bins) {
        if bin.as_slice() != *sizes {
            return false;
        }
    }
    true
}

fn sends(step: &Step, sent: u16, bins: &[&[u16]], placed: &[Placement]) -> bool {
    match step {
        Step::Send {
            size,
            pack: Some(pack),
            placements,
        } => *size == sent && are_bins(pack.bins(), bins) && placements.as_slice() == placed,
        _ => false,
    }
}

fn sends_burst(step: &Step, many: u16, sent: u16, bins: &[&[u16]]) -> bool {
    match step {
        Step::Burst { count, size, pack } => {
            *count == many && *size == sent && are_bins(pack.bins(), bins)
        }
        Step::Send { .. } => false,
    }
}

fn replies(act: &Act, given: &[Entry]) -> bool {
    match act {
        Act::Reply(entries) => entries.as_slice() == given,
        _ => false,
    }
}

fn are(loads: &Nums, items: &Nums, of_loads: &[u16], of_items: &[u16]) -> bool {
    loads.as_slice() == of_loads && items.as_slice() == of_items
}

#[test]
fn a_sending_node_has_the_parts_of_its_line(rt: HostRuntime) {
    let line = b"3 loads 1 0 items 1 send 12 pack 10 1 / - / 7 on 1 to 1 on 0 over";
    let node = adversary(rt.alloc(), Format::One, line, 3).expect(&rt, "a node");
    let placed = [
        Placement {
            load: 1,
            next: Then::To(1),
        },
        Placement {
            load: 0,
            next: Then::Over,
        },
    ];
    assert!(rt; are(&node.loads, &node.items, &[1, 0], &[1]));
    assert!(rt; sends(&node.step, 12, &[&[10, 1], &[], &[7]], &placed));
}

#[test]
fn a_burst_has_the_parts_of_its_line(rt: HostRuntime) {
    let line = b"0 loads 2 0 items 1 1 burst 20 3 pack 3 3 / 1 1";
    let node = adversary(rt.alloc(), Format::Two, line, 0).expect(&rt, "a node");
    assert!(rt; sends_burst(&node.step, 20, 3, &[&[3, 3], &[1, 1]]));
}

#[test]
fn a_node_of_the_algorithm_has_the_parts_of_its_line(rt: HostRuntime) {
    let line = b"7 loads 3 1 items 1 1 2 reply 1 on 1 to 4 2 on 3 to 6";
    let node = algorithm(rt.alloc(), Format::One, line, 7).expect(&rt, "a node");
    let given = [
        Entry {
            size: 1,
            load: 1,
            to: 4,
        },
        Entry {
            size: 2,
            load: 3,
            to: 6,
        },
    ];
    assert!(rt; are(&node.loads, &node.items, &[3, 1], &[1, 1, 2]));
    assert!(rt; replies(&node.act, &given));
}

#[test]
fn a_node_that_keeps_bins_has_their_number(rt: HostRuntime) {
    let line = b"0 loads 2 2 items 2 2 big 1";
    let node = algorithm(rt.alloc(), Format::Two, line, 0).expect(&rt, "a node");
    assert!(rt; matches!(node.act, Act::Big(1)));
}

fn reads_adversary(alloc: Global, format: Format, line: &[u8], node: &mut AdvNode) -> bool {
    read_adversary(alloc, format, line, 0, node) == Ok(true)
}

fn reads_algorithm(alloc: Global, line: &[u8], node: &mut AlgNode) -> bool {
    read_algorithm(alloc, Format::One, line, 0, node) == Ok(true)
}

#[test]
fn a_node_of_the_adversary_is_read_in_place_of_the_last_one(rt: HostRuntime) {
    let mut node = AdvNode::empty(rt.alloc());
    let burst = b"0 loads 2 1 0 items 1 1 1 burst 20 3 pack 3 3 / 1 1";
    assert!(rt; reads_adversary(rt.alloc(), Format::Two, burst, &mut node));
    let send = b"0 loads 1 0 items - send 12 pack 1 / - on 1 to 0";
    assert!(rt; reads_adversary(rt.alloc(), Format::One, send, &mut node));
    assert!(rt; are(&node.loads, &node.items, &[1, 0], &[]));
    assert!(rt; !reads_adversary(rt.alloc(), Format::One, burst, &mut node));
}

#[test]
fn a_node_of_the_algorithm_is_read_in_place_of_the_last_one(rt: HostRuntime) {
    let mut node = AlgNode::empty(rt.alloc());
    let reply = b"0 loads 3 1 items 1 1 2 reply 1 on 1 to 4 2 on 3 to 6";
    assert!(rt; reads_algorithm(rt.alloc(), reply, &mut node));
    assert!(rt; reads_algorithm(rt.alloc(), b"0 loads 1 items 1 finish", &mut node));
    assert!(rt; are(&node.loads, &node.items, &[1], &[1]));
    assert!(rt; matches!(node.act, Act::Finish));
}

#[test]
fn the_lines_of_a_head_are_read_exactly(rt: HostRuntime) {
    for (line, format) in [
        ("stretch 1", Some(Format::One)),
        ("stretch 2", Some(Format::Two)),
        ("stretch 3", None),
        ("stretch 1 ", None),
    ] {
        assert!(rt; parse_first(line.as_bytes()) == format);
    }
    for (line, side) in [
        ("side adversary", Some(Side::Adversary)),
        ("side algorithm", Some(Side::Algorithm)),
        ("side player", None),
    ] {
        assert!(rt; parse_side(line.as_bytes()) == side);
    }
    for (line, end) in [("end", true), ("end\r", false)] {
        assert!(rt; parse_end(line.as_bytes()) == end);
    }
}

#[test]
fn the_numbers_of_a_game_are_read_exactly(rt: HostRuntime) {
    for (line, numbers) in [
        ("game 2 3 4", Some((2, 3, 4))),
        ("game 0 65535 10", Some((0, 65535, 10))),
        ("game 2 65536 4", None),
        ("game 2 3", None),
        ("game 2 3 4 5", None),
        ("game 2 03 4", None),
        ("game  2 3 4", None),
    ] {
        assert!(rt; parse_game(line.as_bytes()) == numbers, "{line}");
    }
}

#[test]
fn a_number_of_nodes_is_from_1_to_4_000_000_000(rt: HostRuntime) {
    for (line, nodes) in [
        ("nodes 1", Some(1)),
        ("nodes 4000000000", Some(4_000_000_000)),
        ("nodes 4000000001", None),
        ("nodes 0", None),
        ("nodes 05", None),
        ("nodes 5 ", None),
        ("nodes", None),
    ] {
        assert!(rt; parse_nodes(line.as_bytes()) == nodes, "{line}");
    }
}

#[test]
fn rules_and_sides_have_their_words(rt: HostRuntime) {
    assert!(rt; Side::Adversary.word() == "adversary");
    assert!(rt; Side::Algorithm.word() == "algorithm");
    assert!(rt; Rule::Placements.word() == "placements");
    assert!(rt; Rule::Replies.word() == "replies");
    assert!(rt; Rule::Reply != Rule::Replies);
}
