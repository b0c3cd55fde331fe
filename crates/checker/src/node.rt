//! Reading and judging a node of either side.

ghost use Rattle.std.specs.Prelude.{◌≡◌, ◌==◌, ◌<◌, ◌≤◌, ◌+◌, None, Err, IfOk, IfErr};
ghost use Rattle.std.specs.Prelude.{MatchOption, OnOk, length, map};
ghost use Rattle.std.specs.Bool.{OnTrue, OnFalse};
ghost use Rattle.port_io.specs.Faults.{Rose};
ghost use Rattle.port_io.specs.Lines.{HasNoLf};
ghost use Rattle.strategy_text.specs.Spelling.{IsSpellableNode, most_nodes};
ghost use Rattle.strategy_text.specs.Text.{AnyNode, end_line, items_of, loads_of};
ghost use Rattle.strategies.specs.AnyNode.{position_of, side_of_node};
ghost use Rattle.checker.specs.Head.{SpellsUnder, MeetsUnder, BreaksUnder};
ghost use Rattle.checker.specs.Head.{IsNodeLine};
ghost use Rattle.checker.specs.Progress.{BreaksNode, ReadsNode, TakesNode, IsRefusedLine, IsBrokenBy};
ghost use Rattle.checker.specs.Progress.{RefusesNext, NoRule, told_by, any_node};
ghost use Rattle.checker.specs.declared.fault.CheckFault.TheVariants.{Read};

use crate::fault::CheckFault;
use crate::head::{Head, broken, next_text, syntax};
use adversary_graph as adversary;
use algorithm_graph as algorithm;
use loads::PackedPositions;
use port_io::{LineReader, Source};
use std::alloc::{AllocError, Global};
use strategy_text::{AdvNode, AlgNode, Rule, Side, read_adversary, read_algorithm};

// A node of either side.
#[derive(Drop)]
pub(crate) enum Node {
    Adversary(AdvNode),
    Algorithm(AlgNode),
}

impl Node {
    // A node of a side to read into.
    pub(crate) fn empty(alloc: Global, side: Side) -> Node
        ensures { side_of_node (any_node result) ≡ side }
    {
        match side {
            Side::Adversary => Node::Adversary(AdvNode::empty(alloc)),
            Side::Algorithm => Node::Algorithm(AlgNode::empty(alloc)),
        }
    }
}

// Reads the node of the head's format and side that a line spells; false where it spells none.
fn read_spelled(
    alloc: Global,
    head: &Head,
    line: &[u8],
    number: u32,
    node: &mut Node,
) -> Result<bool, AllocError>
    requires { side_of_node (any_node node.old) ≡ head.now.side }
    ensures spelled { IfOk result (λ read. OnTrue read (SpellsUnder (told_by head.now) number line.now
        (any_node node.new))) }
    ensures refused { IfOk result (λ read. OnFalse read ((other : AnyNode) → SpellsUnder
        (told_by head.now) number line.now other → ⊥)) }
{
    match node {
        Node::Adversary(node) => read_adversary(alloc, head.terms.format(), line, number, node),
        Node::Algorithm(node) => read_algorithm(alloc, head.terms.format(), line, number, node),
    }
}

// The loads and the items of a node.
fn lists_of(node: &Node) -> (&[u16], &[u16])
    ensures loads { result.0.now ≡ loads_of (any_node node.now) }
    ensures items { result.1.now ≡ items_of (any_node node.now) }
{
    match node {
        Node::Adversary(node) => (node.loads.as_slice(), node.items.as_slice()),
        Node::Algorithm(node) => (node.loads.as_slice(), node.items.as_slice()),
    }
}

// The first rule that a node breaks as the one that follows the earlier ones.
fn judge_node(
    alloc: Global,
    head: &Head,
    earlier: &PackedPositions,
    last: bool,
    node: &Node,
) -> Result<Option<Rule>, AllocError>
    requires spellable { IsSpellableNode head.now.terms.format (any_node node.now) }
    ensures exact { IfOk result (λ judged. MatchOption judged
        (MeetsUnder (told_by head.now) earlier.now last (any_node node.now))
        (BreaksUnder (told_by head.now) earlier.now last (any_node node.now))) }
{
    match node {
        Node::Adversary(node) => Ok(adversary::judge(&head.terms, earlier, last, node)),
        Node::Algorithm(node) => algorithm::judge(alloc, &head.terms, earlier, last, node),
    }
}

// Reads the node of this number that a line spells; a line that spells none is refused.
fn next_node(
    alloc: Global,
    head: &Head,
    text: &[u8],
    number: u32,
    node: &mut Node,
) -> Result<(), CheckFault>
    requires { side_of_node (any_node node.old) ≡ head.now.side }
    ensures ok { OnOk result (SpellsUnder (told_by head.now) number text.now (any_node node.new)) }
    ensures err { IfErr result (λ fault. IsRefusedLine (head.now.start + number) (IsNodeLine
        (told_by head.now) number) NoRule fault text.now) }
{
    if read_spelled(alloc, head, text, number, node)? {
        return Ok(());
    }
    Err(syntax(head.line_of(number)))
}

// Sees that a node follows the earlier ones; one that breaks a rule is refused.
fn see_follows(
    alloc: Global,
    head: &Head,
    earlier: &PackedPositions,
    number: u32,
    node: &Node,
) -> Result<(), CheckFault>
    requires number { number ≡ length earlier.now }
    requires most { number < most_nodes }
    requires spellable { IsSpellableNode head.now.terms.format (any_node node.now) }
    ensures ok { OnOk result (MeetsUnder (told_by head.now) earlier.now (length earlier.now + 1 == head.now.count)
        (any_node node.now)) }
    ensures err { IfErr result (IsBrokenBy (told_by head.now) earlier.now (head.now.start + number)
        (any_node node.now)) }
{
    match judge_node(alloc, head, earlier, number + 1 == head.count, node)? {
        Some(rule) => Err(broken(head.line_of(number), rule)),
        None => Ok(()),
    }
}

// Takes the node of a line as the one that follows the earlier ones, and puts its position after theirs.
fn take_node(
    alloc: Global,
    head: &Head,
    earlier: &mut PackedPositions,
    text: &[u8],
    node: &mut Node,
) -> Result<(), CheckFault>
    requires side { side_of_node (any_node node.old) ≡ head.now.side }
    requires few { length earlier.old < head.now.count }
    requires most { head.now.count ≤ most_nodes }
    ensures ok { OnOk result (TakesNode (told_by head.now) earlier.old earlier.new (any_node node.new) text.now) }
    ensures err { IfErr result (λ fault. IsRefusedLine (head.now.start + length earlier.old)
        (IsNodeLine (told_by head.now) (length earlier.old)) (BreaksNode (told_by head.now) earlier.old) fault
        text.now) }
{
    let number = earlier.len() as u32;
    next_node(alloc, head, text, number, node)?;
    see_follows(alloc, head, earlier, number, node)?;
    let _game = head.terms.game();
    let (loads, items) = lists_of(node);
    earlier.push_lists(loads, items)?;
    Ok(())
}

// Reads the node that follows the earlier ones, judges it, and puts its position after theirs.
pub(crate) fn read_node<S: Source>(
    alloc: Global,
    lines: &mut LineReader,
    source: &mut S,
    head: &Head,
    earlier: &mut PackedPositions,
    node: &mut Node,
) -> Result<(), CheckFault>
    requires open_still { lines.old.ending ≡ None }
    requires side { side_of_node (any_node node.old) ≡ head.now.side }
    requires few { length earlier.old < head.now.count }
    requires most { head.now.count ≤ most_nodes }
    ensures count { S.faults source.old ≤ S.faults source.new }
    ensures ok { OnOk result (ReadsNode (told_by head.now) earlier.old earlier.new
        (any_node node.new) lines.old lines.new (S.left source.old) (S.left source.new)) }
    ensures read { result ≡ Err Read → Rose (S.faults source.old) (S.faults source.new) }
    ensures no_lf { result ≡ Err Read → HasNoLf lines.new.held }
    ensures refused { IfErr result (λ fault. RefusesNext (head.now.start + length earlier.old)
        (IsNodeLine (told_by head.now) (length earlier.old)) (BreaksNode (told_by head.now) earlier.old) fault
        lines.old (S.left source.old) (S.left source.new)) }
{
    next_text(lines, source, head.line_of(earlier.len() as u32))?;
    take_node(alloc, head, earlier, lines.text(), node)
}
