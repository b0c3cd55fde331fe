//! Reading the head lines.

ghost use Rattle.std.specs.Prelude.{◌≡◌, ◌↔◌, ◌∷◌, [], ◌+◌, ◌≤◌, IsTrue, None, Err, IfOk, IfErr, OnOk};
ghost use Rattle.items.specs.Multiset.{AreSizes};
ghost use Rattle.port_io.specs.Faults.{Rose};
ghost use Rattle.port_io.specs.Lines.{IsLine, HasNoLf};
ghost use Rattle.port_io.specs.declared.lines.Line.TheVariants.{Text};
ghost use Rattle.items.specs.Game.{IsGame};
ghost use Rattle.strategy_text.specs.Spelling.{most_nodes};
ghost use Rattle.strategy_text.specs.Text.{first_line, game_line, side_line, count_line};
ghost use Rattle.checker.specs.Accepted.{IsTextFaultUnder};
ghost use Rattle.checker.specs.FirstFault.{IsWanted, IsFirstLine, IsGameLine, IsSizesLine, IsSideLine, IsCountLine};
ghost use Rattle.checker.specs.Listed.{listed_line, sizes_line};
ghost use Rattle.checker.specs.Progress.{ReadsLines, RefusesNext, AnyLine, NoRule, BreaksGame, BreaksSizes};
ghost use Rattle.checker.specs.Progress.{BreaksSide, IsHead, lines_of_head, told_by};
ghost use Rattle.checker.specs.declared.fault.Heading.TheVariants.{Strategy, Listed};
ghost use Rattle.checker.specs.declared.fault.CheckFault.TheVariants.{Rejected, Read};
ghost use Rattle.checker.specs.declared.fault.Wanted.TheVariants.{Either};
ghost use Rattle.checker.specs.declared.fault.Why.TheVariants.{Syntax};
ghost use Rattle.checker.specs.declared.fault.Why.TheVariants as why;

use crate::fault::{CheckFault, Heading, Wanted, Why};
use crate::sizes::parse_sizes;
use items::{Game, Sizes};
use node_pool::Terms;
use port_io::{Line, LineReader, Source};
use std::alloc::Global;
use strategy_text::{Format, Rule, Side, parse_first, parse_game, parse_nodes, parse_side};

// What the head lines tell: what a node is judged by, the side, how many nodes there are, and the number of the line
// of the first node.
#[derive(Drop)]
pub(crate) struct Head {
    pub(crate) terms: Terms,
    pub(crate) side: Side,
    pub(crate) count: u32,
    pub(crate) start: u32,
}

impl Head {
    // The number of the line of the node of this number. That of the last line follows the last node's.
    pub(crate) fn line_of(&self, number: u32) -> u64
        ensures { result ≡ self.now.start + number }
    {
        u64::from(self.start) + u64::from(number)
    }
}

pub(crate) fn syntax(line: u64) -> CheckFault
    ensures { result ≡ Rejected line Syntax }
{
    CheckFault::Rejected {
        line,
        why: Why::Syntax,
    }
}

pub(crate) fn broken(line: u64, rule: Rule) -> CheckFault
    ensures { result ≡ Rejected line (why.Rule rule) }
{
    CheckFault::Rejected {
        line,
        why: Why::Rule(rule),
    }
}

// Reads the next line, which is to be a whole one.
pub(crate) fn next_text<S: Source>(
    lines: &mut LineReader,
    source: &mut S,
    line: u64,
) -> Result<(), CheckFault>
    requires { lines.old.ending ≡ None }
    ensures count { S.faults source.old ≤ S.faults source.new }
    ensures ok { OnOk result (ReadsLines (lines.new.text ∷ []) lines.old lines.new (S.left source.old)
        (S.left source.new)) }
    ensures line { OnOk result (IsLine lines.new.text) }
    ensures read { result ≡ Err Read → Rose (S.faults source.old) (S.faults source.new) }
    ensures no_lf { result ≡ Err Read → HasNoLf lines.new.held }
    ensures refused { IfErr result (λ fault. RefusesNext line AnyLine NoRule fault lines.old (S.left source.old)
        (S.left source.new)) }
{
    let Ok(found) = lines.next_line(source) else {
        return Err(CheckFault::Read);
    };
    if is_text(found) {
        Ok(())
    } else {
        Err(syntax(line))
    }
}

// Whether a whole line was found.
fn is_text(found: Line) -> bool
    ensures { IsTrue result ↔ (found ≡ Text) }
{
    matches!(found, Line::Text)
}

fn read_first<S: Source>(lines: &mut LineReader, source: &mut S) -> Result<Format, CheckFault>
    requires { lines.old.ending ≡ None }
    ensures count { S.faults source.old ≤ S.faults source.new }
    ensures ok { IfOk result (λ format. ReadsLines (first_line format ∷ []) lines.old lines.new (S.left source.old)
        (S.left source.new)) }
    ensures read { result ≡ Err Read → Rose (S.faults source.old) (S.faults source.new) }
    ensures no_lf { result ≡ Err Read → HasNoLf lines.new.held }
    ensures refused { IfErr result (λ fault. RefusesNext 1 (IsFirstLine (Strategy Either)) NoRule fault lines.old
        (S.left source.old) (S.left source.new)) }
{
    next_text(lines, source, 1)?;
    let Some(format) = parse_first(lines.text()) else {
        return Err(syntax(1));
    };
    Ok(format)
}

fn read_game<S: Source>(lines: &mut LineReader, source: &mut S) -> Result<Game, CheckFault>
    requires { lines.old.ending ≡ None }
    ensures count { S.faults source.old ≤ S.faults source.new }
    ensures ok { IfOk result (λ game. ReadsLines (game_line game ∷ []) lines.old lines.new (S.left source.old)
        (S.left source.new)) }
    ensures legal { IfOk result IsGame }
    ensures read { result ≡ Err Read → Rose (S.faults source.old) (S.faults source.new) }
    ensures no_lf { result ≡ Err Read → HasNoLf lines.new.held }
    ensures refused { IfErr result (λ fault. RefusesNext 2 IsGameLine BreaksGame fault lines.old (S.left source.old)
        (S.left source.new)) }
{
    next_text(lines, source, 2)?;
    let Some((m, g, t)) = parse_game(lines.text()) else {
        return Err(syntax(2));
    };
    match Game::new(m, g, t) {
        Ok(game) => Ok(game),
        Err(_) => Err(broken(2, Rule::Game)),
    }
}

// Whether the side is a wanted one.
fn is_wanted(wanted: Wanted, side: Side) -> bool
    ensures exact { IsTrue result ↔ IsWanted wanted side }
{
    match wanted {
        Wanted::Either => true,
        Wanted::Only(only) => only == side,
    }
}

fn read_side<S: Source>(
    lines: &mut LineReader,
    source: &mut S,
    line: u64,
    wanted: Wanted,
) -> Result<Side, CheckFault>
    requires { lines.old.ending ≡ None }
    ensures count { S.faults source.old ≤ S.faults source.new }
    ensures ok { IfOk result (λ side. ReadsLines (side_line side ∷ []) lines.old lines.new (S.left source.old)
        (S.left source.new)) }
    ensures wanted { IfOk result (IsWanted wanted) }
    ensures read { result ≡ Err Read → Rose (S.faults source.old) (S.faults source.new) }
    ensures no_lf { result ≡ Err Read → HasNoLf lines.new.held }
    ensures refused { IfErr result (λ fault. RefusesNext line IsSideLine (BreaksSide wanted) fault lines.old
        (S.left source.old) (S.left source.new)) }
{
    next_text(lines, source, line)?;
    let Some(side) = parse_side(lines.text()) else {
        return Err(syntax(line));
    };
    if !is_wanted(wanted, side) {
        return Err(broken(line, Rule::Side));
    }
    Ok(side)
}

fn read_count<S: Source>(
    lines: &mut LineReader,
    source: &mut S,
    line: u64,
) -> Result<u32, CheckFault>
    requires { lines.old.ending ≡ None }
    ensures count { S.faults source.old ≤ S.faults source.new }
    ensures ok { IfOk result (λ nodes. ReadsLines (count_line nodes ∷ []) lines.old lines.new (S.left source.old)
        (S.left source.new)) }
    ensures range { IfOk result (λ nodes. (1 ≤ nodes) × (nodes ≤ most_nodes)) }
    ensures read { result ≡ Err Read → Rose (S.faults source.old) (S.faults source.new) }
    ensures no_lf { result ≡ Err Read → HasNoLf lines.new.held }
    ensures refused { IfErr result (λ fault. RefusesNext line IsCountLine NoRule fault lines.old (S.left source.old)
        (S.left source.new)) }
{
    next_text(lines, source, line)?;
    let Some(nodes) = parse_nodes(lines.text()) else {
        return Err(syntax(line));
    };
    Ok(nodes)
}

// Reads the first line of a text with listed sizes.
fn read_listed<S: Source>(lines: &mut LineReader, source: &mut S) -> Result<(), CheckFault>
    requires { lines.old.ending ≡ None }
    ensures count { S.faults source.old ≤ S.faults source.new }
    ensures ok { OnOk result (ReadsLines (listed_line ∷ []) lines.old lines.new (S.left source.old)
        (S.left source.new)) }
    ensures read { result ≡ Err Read → Rose (S.faults source.old) (S.faults source.new) }
    ensures no_lf { result ≡ Err Read → HasNoLf lines.new.held }
    ensures refused { IfErr result (λ fault. RefusesNext 1 (IsFirstLine Listed) NoRule fault lines.old
        (S.left source.old) (S.left source.new)) }
{
    next_text(lines, source, 1)?;
    if !is_listed(lines.text()) {
        return Err(syntax(1));
    }
    Ok(())
}

// Whether a line is the first of a text with listed sizes.
fn is_listed(line: &[u8]) -> bool
    ensures exact { IsTrue result ↔ (line.now ≡ listed_line) }
{
    line == b"listed 1".as_slice()
}

// Reads the line of the sizes, of a game that was read.
fn read_sizes<S: Source>(
    alloc: Global,
    lines: &mut LineReader,
    source: &mut S,
    game: &Game,
) -> Result<Sizes, CheckFault>
    requires { lines.old.ending ≡ None }
    ensures count { S.faults source.old ≤ S.faults source.new }
    ensures ok { IfOk result (λ sizes. ReadsLines (sizes_line sizes ∷ []) lines.old lines.new (S.left source.old)
        (S.left source.new)) }
    ensures legal { IfOk result (AreSizes game.now.capacity) }
    ensures read { result ≡ Err Read → Rose (S.faults source.old) (S.faults source.new) }
    ensures no_lf { result ≡ Err Read → HasNoLf lines.new.held }
    ensures refused { IfErr result (λ fault. RefusesNext 3 IsSizesLine (BreaksSizes game.now) fault lines.old
        (S.left source.old) (S.left source.new)) }
{
    next_text(lines, source, 3)?;
    let found = parse_sizes(alloc, lines.text())?;
    let Some(list) = found else {
        return Err(syntax(3));
    };
    let Some(sizes) = Sizes::from_slice(game, list.as_slice()) else {
        return Err(no_sizes());
    };
    Ok(sizes)
}

fn no_sizes() -> CheckFault
    ensures { result ≡ Rejected 3 why.Sizes }
{
    CheckFault::Rejected {
        line: 3,
        why: Why::Sizes,
    }
}

// Reads the head lines of a strategy.
fn read_strategy_head<S: Source>(
    lines: &mut LineReader,
    source: &mut S,
    wanted: Wanted,
) -> Result<Head, CheckFault>
    requires { lines.old.ending ≡ None }
    ensures count { S.faults source.old ≤ S.faults source.new }
    ensures ok { IfOk result (λ head. ReadsLines (lines_of_head (Strategy wanted) (told_by head)) lines.old lines.new
        (S.left source.old) (S.left source.new)) }
    ensures legal { IfOk result (λ head. IsHead (Strategy wanted) (told_by head)) }
    ensures read { result ≡ Err Read → Rose (S.faults source.old) (S.faults source.new) }
    ensures no_lf { result ≡ Err Read → HasNoLf lines.new.held }
    ensures refused { IfErr result (λ fault. IsTextFaultUnder (Strategy wanted) lines.old.held fault
        (S.left source.old) (S.left source.new)) }
{
    let format = read_first(lines, source)?;
    let game = read_game(lines, source)?;
    let side = read_side(lines, source, 3, wanted)?;
    let count = read_count(lines, source, 4)?;
    Ok(Head {
        terms: Terms::of_game(format, &game),
        side,
        count,
        start: 5,
    })
}

// Reads the head lines of a strategy with listed sizes.
fn read_listed_head<S: Source>(
    alloc: Global,
    lines: &mut LineReader,
    source: &mut S,
) -> Result<Head, CheckFault>
    requires { lines.old.ending ≡ None }
    ensures count { S.faults source.old ≤ S.faults source.new }
    ensures ok { IfOk result (λ head. ReadsLines (lines_of_head Listed (told_by head)) lines.old lines.new
        (S.left source.old) (S.left source.new)) }
    ensures legal { IfOk result (λ head. IsHead Listed (told_by head)) }
    ensures read { result ≡ Err Read → Rose (S.faults source.old) (S.faults source.new) }
    ensures no_lf { result ≡ Err Read → HasNoLf lines.new.held }
    ensures refused { IfErr result (λ fault. IsTextFaultUnder Listed lines.old.held fault (S.left source.old)
        (S.left source.new)) }
{
    read_listed(lines, source)?;
    let game = read_game(lines, source)?;
    let sizes = read_sizes(alloc, lines, source, &game)?;
    let side = read_side(lines, source, 4, Wanted::Either)?;
    let count = read_count(lines, source, 5)?;
    Ok(Head {
        terms: Terms::of_sizes(Format::One, &game, &sizes),
        side,
        count,
        start: 6,
    })
}

// Reads the head lines of a text.
pub(crate) fn read_head<S: Source>(
    alloc: Global,
    lines: &mut LineReader,
    source: &mut S,
    heading: Heading,
) -> Result<Head, CheckFault>
    requires { lines.old.ending ≡ None }
    ensures count { S.faults source.old ≤ S.faults source.new }
    ensures ok { IfOk result (λ head. ReadsLines (lines_of_head heading (told_by head)) lines.old lines.new
        (S.left source.old) (S.left source.new)) }
    ensures legal { IfOk result (λ head. IsHead heading (told_by head)) }
    ensures read { result ≡ Err Read → Rose (S.faults source.old) (S.faults source.new) }
    ensures no_lf { result ≡ Err Read → HasNoLf lines.new.held }
    ensures refused { IfErr result (λ fault. IsTextFaultUnder heading lines.old.held fault (S.left source.old)
        (S.left source.new)) }
{
    match heading {
        Heading::Strategy(wanted) => read_strategy_head(lines, source, wanted),
        Heading::Listed => read_listed_head(alloc, lines, source),
    }
}
