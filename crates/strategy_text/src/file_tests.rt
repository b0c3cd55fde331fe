//! Whole files are read node by node and written back byte for byte.

ghost use Rattle.std.specs.Prelude.{◌≡◌, ◌≤◌, All, IfOk, length};
ghost use Rattle.items.specs.Game.{IsGame};
ghost use Rattle.strategy_text.specs.Spelling.{IsSpellableAdversary, IsSpellableAlgorithm, IsSpellable};

use super::tests::long_line;
use super::*;
use items::Game;
use port_io::{Failed, MemSink};
use std::alloc::{AllocError, Global};
use std::process::Abort;
use std::test::*;

const SENDING: [&[u8]; 10] = [
    b"stretch 1",
    b"game 2 3 4",
    b"side adversary",
    b"nodes 5",
    b"0 loads 2 2 items 1 1 2 send 2 pack 1 2 / 1 2 on 2 over",
    b"1 loads 2 0 items 1 1 send 2 pack 1 2 / 1 on 2 over on 0 to 0",
    b"2 loads 1 1 items 1 1 send 3 pack 3 / 1 1 on 1 over",
    b"3 loads 1 0 items 1 send 1 pack 1 1 / - on 1 to 1 on 0 to 2",
    b"4 loads 0 0 items - send 1 pack 1 / - on 0 to 3",
    b"end",
];

const WITH_BURSTS: [&[u8]; 9] = [
    b"stretch 2",
    b"game 2 3 4",
    b"side adversary",
    b"nodes 4",
    b"0 loads 2 0 items 1 1 burst 2 2 pack 1 2 / 1 2",
    b"1 loads 1 1 items 1 1 burst 1 3 pack 3 / 1 1",
    b"2 loads 1 0 items 1 send 1 on 1 to 0 on 0 to 1",
    b"3 loads 0 0 items - send 1 on 0 to 2",
    b"end",
];

const REPLYING: [&[u8]; 10] = [
    b"stretch 1",
    b"game 2 2 3",
    b"side algorithm",
    b"nodes 5",
    b"0 loads 2 0 items 1 1 finish",
    b"1 loads 2 1 items 1 2 finish",
    b"2 loads 1 0 items 1 reply 1 on 1 to 0 2 on 0 to 1",
    b"3 loads 2 0 items 2 finish",
    b"4 loads 0 0 items - reply 1 on 0 to 2 2 on 0 to 3",
    b"end",
];

const WITH_A_BIG_FINISH: [&[u8]; 11] = [
    b"stretch 2",
    b"game 2 2 3",
    b"side algorithm",
    b"nodes 6",
    b"0 loads 2 0 items 1 1 finish",
    b"1 loads 2 1 items 1 2 finish",
    b"2 loads 1 0 items 1 reply 1 on 1 to 0 2 on 0 to 1",
    b"3 loads 2 2 items 2 2 big 0",
    b"4 loads 2 0 items 2 reply 1 on 0 to 1 2 on 0 to 3",
    b"5 loads 0 0 items - reply 1 on 0 to 2 2 on 0 to 4",
    b"end",
];

fn adversary(alloc: Global, format: Format, lines: &[&[u8]]) -> Result<AdvNodes, Fail>
    requires { length lines.now ≤ 20 }
    ensures { IfOk result (λ nodes. (length nodes ≡ length lines.now) × All (IsSpellableAdversary format) nodes) }
{
    let mut nodes = AdvNodes::new(alloc);
    for line in lines {
        let read = parse_adversary(alloc, format, line, nodes.len() as u32)?;
        let node = read.ok_or("a node")?;
        nodes.push(node)?;
    }
    Ok(nodes)
}

fn algorithm(alloc: Global, format: Format, lines: &[&[u8]]) -> Result<AlgNodes, Fail>
    requires { length lines.now ≤ 20 }
    ensures { IfOk result (λ nodes. (length nodes ≡ length lines.now) × All (IsSpellableAlgorithm format) nodes) }
{
    let mut nodes = AlgNodes::new(alloc);
    for line in lines {
        let read = parse_algorithm(alloc, format, line, nodes.len() as u32)?;
        let node = read.ok_or("a node")?;
        nodes.push(node)?;
    }
    Ok(nodes)
}

fn adversary_strategy(
    alloc: Global,
    format: Format,
    game: Game,
    lines: &[&[u8]],
) -> Result<Strategy, Fail>
    requires legal { IsGame game }
    requires low { 1 ≤ length lines.now }
    requires high { length lines.now ≤ 20 }
    ensures { IfOk result IsSpellable }
{
    let list = adversary(alloc, format, lines)?;
    Ok(Strategy {
        format,
        game,
        nodes: Nodes::Adversary(list),
    })
}

fn algorithm_strategy(
    alloc: Global,
    format: Format,
    game: Game,
    lines: &[&[u8]],
) -> Result<Strategy, Fail>
    requires legal { IsGame game }
    requires low { 1 ≤ length lines.now }
    requires high { length lines.now ≤ 20 }
    ensures { IfOk result IsSpellable }
{
    let list = algorithm(alloc, format, lines)?;
    Ok(Strategy {
        format,
        game,
        nodes: Nodes::Algorithm(list),
    })
}

/// The strategy of all lines of a file.
fn read(rt: &(impl AllocGlobal + Abort), lines: &[&[u8]]) -> Result<Strategy, Fail>
    requires low { 6 ≤ length lines.now }
    requires high { length lines.now ≤ 20 }
    ensures { IfOk result IsSpellable }
{
    let format = parse_first(lines[0]).ok_or("a format")?;
    let (m, g, t) = parse_game(lines[1]).ok_or("numbers")?;
    let Ok(game) = Game::new(m, g, t) else {
        return Err("a game".into());
    };
    let side = parse_side(lines[2]).ok_or("a side")?;
    let count = lines.len() - 5;
    assert_eq!(rt; parse_nodes(lines[3]), Some(count as u32));
    assert!(rt; parse_end(lines[count + 4]));
    let nodes = &lines[4..count + 4];
    match side {
        Side::Adversary => adversary_strategy(rt.alloc(), format, game, nodes),
        Side::Algorithm => algorithm_strategy(rt.alloc(), format, game, nodes),
    }
}

fn joined(alloc: Global, lines: &[&[u8]]) -> Result<Text, AllocError> {
    let mut text = Text::new(alloc);
    for line in lines {
        text.push_all(line)?;
        text.push(b'\n')?;
    }
    Ok(text)
}

/// Writes a strategy through sinks of some bytes a write, and through sinks of so many bytes a write that
/// fail at each write in turn.
fn writes(
    rt: &(impl AllocGlobal + Abort),
    strategy: &Strategy,
    text: &[u8],
    failing: usize,
) -> Result<(), AllocError>
    requires spellable { IsSpellable strategy.now }
    requires some { 1 ≤ failing }
{
    for step in [1, 7, 4096] {
        let mut sink = MemSink::new(rt.alloc(), 20_000, step, &[])?;
        assert_eq!(rt; write_strategy(strategy, &mut sink), Ok(()));
        assert_eq!(rt; sink.bytes(), text);
    }
    for number in 1..=text.len().div_ceil(failing) as u64 {
        let mut sink = MemSink::new(rt.alloc(), 20_000, failing, &[number])?;
        assert_eq!(rt; write_strategy(strategy, &mut sink), Err(Failed));
        let written = sink.bytes();
        assert_eq!(rt; written.len() as u64, failing as u64 * (number - 1));
        assert!(rt; text.starts_with(written));
    }
    Ok(())
}

/// Reads the lines of a file, and writes the strategy back.
fn read_and_write(
    rt: &(impl AllocGlobal + Abort),
    lines: &[&[u8]],
    bytes: usize,
    failing: usize,
) -> Result<(), Fail>
    requires low { 6 ≤ length lines.now }
    requires high { length lines.now ≤ 20 }
    requires some { 1 ≤ failing }
{
    let strategy = read(rt, lines)?;
    let file = joined(rt.alloc(), lines)?;
    assert_eq!(rt; file.len(), bytes);
    let text = text_of(rt.alloc(), &strategy)?;
    assert_eq!(rt; text.as_slice(), file.as_slice());
    writes(rt, &strategy, file.as_slice(), failing)?;
    Ok(())
}

#[test]
fn files_are_read_node_by_node_and_written_back_byte_for_byte(rt: HostRuntime) -> Result<(), Fail> {
    read_and_write(&rt, &SENDING, 326, 7)?;
    read_and_write(&rt, &WITH_BURSTS, 224, 7)?;
    read_and_write(&rt, &REPLYING, 233, 7)?;
    read_and_write(&rt, &WITH_A_BIG_FINISH, 284, 7)
}

#[test]
fn a_text_longer_than_the_buffer_goes_through_it(rt: HostRuntime) -> Result<(), Fail> {
    let line = long_line(rt.alloc(), 8171, b" 10")?;
    let lines = [
        b"stretch 1".as_slice(),
        b"game 2 3 4".as_slice(),
        b"side adversary".as_slice(),
        b"nodes 1".as_slice(),
        line.as_slice(),
        b"end".as_slice(),
    ];
    read_and_write(&rt, &lines, 16_433, 4096)
}
