//! Reading with judgement.

ghost use Rattle.std.specs.Prelude.{◌≡◌, ◌↔◌, ◌∷◌, [], ◌++◌, ◌≤◌, IsTrue, None, Err, IfOk, IfErr, OnOk, IsOk, IfSome};
ghost use Rattle.std.specs.Prelude.{List};
ghost use Rattle.port_io.specs.Faults.{Rose};
ghost use Rattle.port_io.specs.Lines.{HasNoLf};
ghost use Rattle.port_io.specs.declared.lines.Line.TheVariants.{End};
ghost use Rattle.online_play.specs.Algorithm.{ForcesEvery};
ghost use Rattle.strategy_text.specs.declared.node.Side.TheVariants.{Adversary};
ghost use Rattle.strategy_text.specs.Spelling.{most_nodes};
ghost use Rattle.strategy_text.specs.Text.{AnyNode, end_line, side_of};
ghost use Rattle.checker.specs.Accepted.{Accepts, AcceptsListed, IsLoaded, Spells, BeginsWithLegalText};
ghost use Rattle.checker.specs.Accepted.{IsFaultOf, IsFaultUnder, IsTextFaultOf, IsTextFaultUnder};
ghost use Rattle.checker.specs.Progress.{ReadsLines, ReadsNodes, ReadsText, ReadsWhole, ReadsEnd};
ghost use Rattle.checker.specs.Progress.{RefusesNext, RefusesAfter, RefusesNode, IsPastEnd};
ghost use Rattle.checker.specs.Progress.{NoRule, told_by, strategy_or};
ghost use Rattle.checker.specs.declared.fault.CheckFault.TheVariants.{Read, Memory};
ghost use Rattle.checker.specs.declared.fault.Heading.TheVariants.{Listed};
ghost use Rattle.checker.specs.declared.fault.Wanted.TheVariants.{Either};

use crate::fault::{Accepted, AcceptedListed, CheckFault, Heading, Wanted};
use crate::head::{Head, next_text, read_head, syntax};
use crate::keeper::{Keeper, Nothing};
use crate::node::{Node, read_node};
use loads::PackedPositions;
use port_io::{Line, LineReader, Source};
use std::alloc::Global;
use strategy_text::{AdvNodes, Nodes, Strategy, parse_end};

// Reads and judges all nodes. Their positions are kept, and of the nodes what the keeper keeps.
fn read_nodes<S: Source, K: Keeper>(
    alloc: Global,
    lines: &mut LineReader,
    source: &mut S,
    head: &Head,
    kept: &mut K,
) -> Result<(), CheckFault>
    requires open_still { lines.old.ending ≡ None }
    requires most { head.now.count ≤ most_nodes }
    ensures count { S.faults source.old ≤ S.faults source.new }
    ensures ok { OnOk result ((nodes : List AnyNode) × ReadsNodes (told_by head.now) nodes lines.old lines.new
        (S.left source.old) (S.left source.new) × K.holds kept.new head.now.side nodes) }
    ensures read { result ≡ Err Read → Rose (S.faults source.old) (S.faults source.new) }
    ensures no_lf { result ≡ Err Read → HasNoLf lines.new.held }
    ensures refused { IfErr result (λ fault. RefusesNode (told_by head.now) fault lines.old (S.left source.old)
        (S.left source.new)) }
{
    kept.begin(alloc, head.side);
    let mut positions = PackedPositions::new(alloc);
    let mut node = Node::empty(alloc, head.side);
    for k in 0..head.count {
        read_node(alloc, lines, source, head, &mut positions, &mut node)?;
        kept.keep(alloc, &mut node)?;
    }
    Ok(())
}

// Reads the last line.
fn read_end<S: Source>(lines: &mut LineReader, source: &mut S, line: u64) -> Result<(), CheckFault>
    requires { lines.old.ending ≡ None }
    ensures count { S.faults source.old ≤ S.faults source.new }
    ensures ok { OnOk result (ReadsLines (end_line ∷ []) lines.old lines.new (S.left source.old) (S.left source.new)) }
    ensures read { result ≡ Err Read → Rose (S.faults source.old) (S.faults source.new) }
    ensures no_lf { result ≡ Err Read → HasNoLf lines.new.held }
    ensures refused { IfErr result (λ fault. RefusesNext line (λ text. text ≡ end_line) NoRule fault lines.old
        (S.left source.old) (S.left source.new)) }
{
    next_text(lines, source, line)?;
    if !parse_end(lines.text()) {
        return Err(syntax(line));
    }
    Ok(())
}

// Whether the end of the input was found.
fn is_end(found: Line) -> bool
    ensures { IsTrue result ↔ (found ≡ End) }
{
    matches!(found, Line::End)
}

// Sees that the input ends.
fn read_past<S: Source>(lines: &mut LineReader, source: &mut S, line: u64) -> Result<(), CheckFault>
    requires { lines.old.ending ≡ None }
    ensures count { S.faults source.old ≤ S.faults source.new }
    ensures ok { OnOk result (ReadsEnd lines.old (S.left source.old) (S.left source.new)) }
    ensures read { result ≡ Err Read → Rose (S.faults source.old) (S.faults source.new) }
    ensures refused { IfErr result (λ fault. RefusesAfter [] (IsPastEnd line) fault lines.old (S.left source.old)
        (S.left source.new)) }
{
    let Ok(found) = lines.next_line(source) else {
        return Err(CheckFault::Read);
    };
    if is_end(found) {
        Ok(())
    } else {
        Err(syntax(line))
    }
}

// Reads and judges a text up to its last line, and looks no further.
fn read_text<S: Source, K: Keeper>(
    alloc: Global,
    lines: &mut LineReader,
    source: &mut S,
    heading: Heading,
    kept: &mut K,
) -> Result<Head, CheckFault>
    requires { lines.old.ending ≡ None }
    ensures count { S.faults source.old ≤ S.faults source.new }
    ensures ok { IfOk result (λ head. (nodes : List AnyNode) × ReadsText heading (told_by head) nodes lines.old lines.new
        (S.left source.old) (S.left source.new) × K.holds kept.new head.side nodes) }
    ensures read { result ≡ Err Read → Rose (S.faults source.old) (S.faults source.new) }
    ensures no_lf { result ≡ Err Read → HasNoLf lines.new.held }
    ensures refused { IfErr result (λ fault. IsTextFaultUnder heading lines.old.held fault (S.left source.old)
        (S.left source.new)) }
{
    let head = read_head(alloc, lines, source, heading)?;
    read_nodes(alloc, lines, source, &head, kept)?;
    read_end(lines, source, head.line_of(head.count))?;
    Ok(head)
}

// Reads and judges a text, and sees that the input ends after its last line.
fn read_whole<S: Source, K: Keeper>(
    alloc: Global,
    source: &mut S,
    heading: Heading,
    kept: &mut K,
) -> Result<Head, CheckFault>
    ensures count { S.faults source.old ≤ S.faults source.new }
    ensures ok { IfOk result (λ head. (nodes : List AnyNode) × ReadsWhole heading (told_by head) nodes
        (S.left source.old) (S.left source.new) × K.holds kept.new head.side nodes) }
    ensures read { result ≡ Err Read → Rose (S.faults source.old) (S.faults source.new) }
    ensures fault { IfErr result (λ fault. IsFaultUnder heading [] fault (S.left source.old) (S.left source.new)) }
{
    let mut lines = LineReader::new(alloc)?;
    let head = read_text(alloc, &mut lines, source, heading, kept)?;
    read_past(&mut lines, source, head.line_of(head.count) + 1)?;
    Ok(head)
}

// The strategy of a head and its nodes.
fn strategy_of(read: Result<Head, CheckFault>, nodes: Nodes) -> Result<Strategy, CheckFault>
    ensures { result ≡ strategy_or read nodes }
{
    match read {
        Ok(head) => Ok(Strategy {
            format: head.terms.format(),
            game: head.terms.game(),
            nodes,
        }),
        Err(fault) => Err(fault),
    }
}

/// Reads the lines of a strategy of a wanted side that come next, up to its last line and no further, judges each
/// node as soon as its line is whole, and gives the strategy. The cost is that of [`check`], and the nodes are kept.
///
/// # Errors
///
/// The first fault of the bytes in hand, in a line from 1 to the text's last, which is line 5 + N where there are N
/// nodes; a failed read; or memory that was refused. What stands after the text is no fault.
pub fn load_from<S: Source>(
    alloc: Global,
    lines: &mut LineReader,
    source: &mut S,
    wanted: Wanted,
) -> Result<Strategy, CheckFault>
    requires open_still { lines.old.ending ≡ None }
    ensures count { S.faults source.old ≤ S.faults source.new }
    ensures loaded { IfOk result (λ strategy. Spells wanted strategy lines.old.held lines.new.held (S.left source.old)
        (S.left source.new)) }
    ensures open { OnOk result (lines.new.ending ≡ None) }
    ensures forced { IfOk result (λ strategy. side_of strategy.nodes ≡ Adversary → ForcesEvery strategy.game) }
    ensures read { result ≡ Err Read → Rose (S.faults source.old) (S.faults source.new) }
    ensures no_lf { result ≡ Err Read → HasNoLf lines.new.held }
    ensures fault { IfErr result (λ fault. IsTextFaultOf wanted lines.old.held fault (S.left source.old)
        (S.left source.new)) }
    // Where memory was not refused and the count did not rise, a strategy is given exactly where all bytes, those held
    // and those left, begin with the text of one.
    ensures exact { IfSome (S.left source.old) (λ left. (result ≡ Err Memory → ⊥)
        → (Rose (S.faults source.old) (S.faults source.new) → ⊥)
        → (IsOk result ↔ BeginsWithLegalText wanted (lines.old.held ++ left))) }
{
    let mut nodes = Nodes::Adversary(AdvNodes::new(alloc));
    let read = read_text(alloc, lines, source, Heading::Strategy(wanted), &mut nodes);
    strategy_of(read, nodes)
}

/// Reads the text of a strategy of a wanted side to its end, judges each node as soon as its line is whole, and
/// gives the strategy: what [`load_from`] reads, and then the end of the input. The cost is that of [`check`], and
/// the nodes are kept.
///
/// # Errors
///
/// The first fault of the bytes read, at the least line that has one; a failed read; or memory that was refused.
pub fn load<S: Source>(
    alloc: Global,
    source: &mut S,
    wanted: Wanted,
) -> Result<Strategy, CheckFault>
    ensures count { S.faults source.old ≤ S.faults source.new }
    ensures loaded { IfOk result (λ strategy. IsLoaded wanted strategy (S.left source.old) (S.left source.new)) }
    ensures forced { IfOk result (λ strategy. side_of strategy.nodes ≡ Adversary → ForcesEvery strategy.game) }
    ensures read { result ≡ Err Read → Rose (S.faults source.old) (S.faults source.new) }
    ensures fault { IfErr result (λ fault. IsFaultOf wanted [] fault (S.left source.old) (S.left source.new)) }
{
    let mut nodes = Nodes::Adversary(AdvNodes::new(alloc));
    let read = read_whole(alloc, source, Heading::Strategy(wanted), &mut nodes);
    strategy_of(read, nodes)
}

/// Reads the text of a strategy of either side to its end, and judges each node as soon as its line is whole. The
/// cost is linear in the input, but for the search of packings that an algorithm's node may need; 24 bytes are kept
/// for each node, for one of more than 21 loads and items a byte for each of them and one more, and no text.
///
/// # Errors
///
/// The first fault of the bytes read, at the least line that has one; a failed read; or memory that was refused.
pub fn check<S: Source>(alloc: Global, source: &mut S) -> Result<Accepted, CheckFault>
    ensures count { S.faults source.old ≤ S.faults source.new }
    ensures accepted { IfOk result (λ accepted. Accepts Either accepted (S.left source.old) (S.left source.new)) }
    ensures forced { IfOk result (λ accepted. accepted.side ≡ Adversary → ForcesEvery accepted.game) }
    ensures read { result ≡ Err Read → Rose (S.faults source.old) (S.faults source.new) }
    ensures fault { IfErr result (λ fault. IsFaultOf Either [] fault (S.left source.old) (S.left source.new)) }
{
    let head = read_whole(
        alloc,
        source,
        Heading::Strategy(Wanted::Either),
        &mut Nothing {},
    )?;
    Ok(Accepted {
        game: head.terms.game(),
        side: head.side,
        nodes: head.count,
    })
}

/// Reads the text of a strategy with listed sizes, of either side, to its end, and judges each node as soon as its line
/// is whole. The reading, the judging and the cost are those of [`check`]; a node is judged by the listed sizes.
///
/// # Errors
///
/// The first fault of the bytes read, at the least line that has one; a failed read; or memory that was refused.
pub fn check_listed<S: Source>(alloc: Global, source: &mut S) -> Result<AcceptedListed, CheckFault>
    ensures count { S.faults source.old ≤ S.faults source.new }
    ensures accepted { IfOk result (λ accepted. AcceptsListed accepted (S.left source.old) (S.left source.new)) }
    ensures read { result ≡ Err Read → Rose (S.faults source.old) (S.faults source.new) }
    ensures fault { IfErr result (λ fault. IsFaultUnder Listed [] fault (S.left source.old) (S.left source.new)) }
{
    let head = read_whole(alloc, source, Heading::Listed, &mut Nothing {})?;
    let sizes = head.terms.sizes().copy();
    Ok(AcceptedListed {
        game: head.terms.game(),
        sizes,
        side: head.side,
        nodes: head.count,
    })
}
