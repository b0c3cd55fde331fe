//! The search of one pass: the expansion of positions.

ghost use Rattle.std.specs.Prelude.{◌≡◌, ◌↔◌, ◌+◌, ◌-◌, ◌<◌, ◌≤◌, ◌++◌, ◌∷◌, [], IfOk, IsTrue, MatchResult, Some, sum};
ghost use Rattle.items.specs.Multiset.{largest_of};
ghost use Rattle.items.specs.Game.{IsGame};
ghost use Rattle.items.specs.Packable.{IsRoom, Packable};
ghost use Rattle.loads.specs.Descending.{distinct};
ghost use Rattle.good_situations.specs.Finish.{Finishes};
ghost use Rattle.monotone.specs.Visits.{visit};
ghost use Rattle.transposition.specs.Memo.{verdict_of};
ghost use Rattle.minimax.specs.Fresh.{KeepsCount, progress};
ghost use Rattle.minimax.specs.Serving.{HasSpare, IsServedAt, IsServedBy, IsServedFor, IsServedWith};
ghost use Rattle.minimax.specs.Serving.{KeepsServing, KeepsServingTold};
ghost use Rattle.minimax.specs.Serving.{taken_by};
ghost use Rattle.minimax.specs.State.{IsSound, HasReached, HasTried, HasWeighed, FindsVerdict};
ghost use Rattle.minimax.specs.Expanded.{IsWhole};
ghost use Rattle.minimax.specs.State.{IsBound, IsOpenAt, IsOpenFrom, IsTold, MayCome, MayVisit, StandsAtPath};
ghost use Rattle.minimax.specs.State.{Stops, WentOn};
ghost use Rattle.minimax.specs.State.{kept_of, reached_by, with_move};

use crate::distinct_loads::{count_of, distinct_loads, load_at};
use crate::finish_nodes::FINISHES;
use crate::nodes::{key_after, loads_after};
use crate::replies::{Replies, keep, put};
use crate::rooms::Rooms;
use crate::skipping::skipped;
use crate::space::Space;
use crate::table::{Told, known, remember, remember_finish};
use crate::wins::{Wins, keep_win};
use good_situations::finishes;
use items::MOST_BINS;
use items::laws::game_is_legal;
use loads::{Loads, Position};
use monotone::{Meter, Path, PathMove, VisitFault, allows};
use std::alloc::Global;
use strategy_text::{Entry, Placement, Placements, Then};
use transposition::{Key, Memo, Verdict};

/// What a search has found so far, and where it stands.
#[derive(Drop)]
pub(crate) struct Search {
    pub(crate) alloc: Global,
    pub(crate) meter: Meter,
    pub(crate) wins: Wins,
    pub(crate) replies: Replies,
    pub(crate) rooms: Rooms,
    pub(crate) path: Path,
    // A bound on the room of the position that the path leads to: the room of the one before it.
    pub(crate) most: u16,
}

/// A position that is expanded: what is searched and in which pass, what the table told of the position, the position,
/// its key and its different loads, from the greatest on.
#[derive(Clone, Copy)]
pub(crate) struct Expansion<'a> {
    pub(crate) space: &'a Space,
    pub(crate) pass: u16,
    pub(crate) told: Told,
    pub(crate) position: &'a Position,
    pub(crate) key: &'a Key,
    pub(crate) loads: &'a [u16],
}

// What an item comes to at a load: the adversary wins, with what follows, or this is the verdict.
#[derive(Clone, Copy)]
pub(crate) enum Reached {
    ByNext(Then),
    Answers(Verdict),
}

// What was found of a size: it wins, or this load is a reply to it.
#[derive(Drop)]
pub(crate) enum Tried {
    Wins(Placements),
    Answered { load: u16, verdict: Verdict },
}

// What was found of a size and kept: the number of its win, or the reply to it, or no more than that it
// has no win in this pass, or that no item may have it.
#[derive(Clone, Copy)]
pub(crate) enum Weighed {
    Won(u32),
    Replied(Entry),
    NoReply,
    Unlisted,
}

/// The verdict of the position of this key and these loads, to which the path of the search leads.
#[cycle(expanding)]
pub(crate) fn expand<M: Memo>(
    space: &Space,
    pass: u16,
    search: &mut Search,
    memo: &mut M,
    loads: Loads,
    key: Key,
) -> Result<Verdict, VisitFault>
    requires of_key { loads ≡ key.loads }
    requires sound { IsSound space.now pass search.old (M.entries memo.old) }
    requires may { MayVisit space.now pass search.old key }
    requires behind { HasSpare space.now 0 search.old (M.entries memo.old) }
    ensures found { MatchResult result
        (FindsVerdict space.now pass key search.old search.new (M.entries memo.new))
        (Stops space.now pass search.old.meter.budget search.new) }
    ensures counts { KeepsCount space.now pass (sum key.items)
        (progress search.old.meter (M.entries memo.old) (M.room memo.old))
        (progress search.new.meter (M.entries memo.new) (M.room memo.new)) result }
    ensures serves { IfOk result (λ verdict. KeepsServing space.now 0 search.old (M.entries memo.old)
        search.new (M.entries memo.new) (λ later. IsServedBy space.now later key verdict)) }
{
    game_is_legal(&space.game);
    if finishes(&space.game, &loads) {
        return visit_finish(space, pass, search, memo, key);
    }
    look_up(space, pass, search, memo, loads, key)
}

// The verdict of a position that does not finish. Apart from what is done at each load, so that a position that finishes
// costs no call of the recursion.
#[cycle(expanding)]
#[inline(never)]
fn look_up<M: Memo>(
    space: &Space,
    pass: u16,
    search: &mut Search,
    memo: &mut M,
    loads: Loads,
    key: Key,
) -> Result<Verdict, VisitFault>
    requires of_key { loads ≡ key.loads }
    requires unfinished { Finishes space.now.game key.loads → ⊥ }
    requires sound { IsSound space.now pass search.old (M.entries memo.old) }
    requires may { MayVisit space.now pass search.old key }
    requires behind { HasSpare space.now 0 search.old (M.entries memo.old) }
    ensures found { MatchResult result
        (FindsVerdict space.now pass key search.old search.new (M.entries memo.new))
        (Stops space.now pass search.old.meter.budget search.new) }
    ensures counts { KeepsCount space.now pass (sum key.items)
        (progress search.old.meter (M.entries memo.old) (M.room memo.old))
        (progress search.new.meter (M.entries memo.new) (M.room memo.new)) result }
    ensures serves { IfOk result (λ verdict. KeepsServing space.now 0 search.old (M.entries memo.old)
        search.new (M.entries memo.new) (λ later. IsServedBy space.now later key verdict)) }
{
    let told = known(memo, &key, pass);
    if let Told::Settled(verdict) = told {
        return Ok(verdict);
    }
    search.meter.visit(pass, &search.path)?;
    let position = position_of(loads, &key);
    let found = distinct_loads(&position.loads);
    let here = Expansion {
        space,
        pass,
        told,
        position: &position,
        key: &key,
        loads: &found[..position.loads.distinct_count()],
    };
    let verdict = decide(search, memo, &here)?;
    remember(memo, key, verdict)?;
    Ok(verdict)
}

// The verdict of a position that finishes. It is told from the loads alone, so it takes one look-up, which puts it.
fn visit_finish<M: Memo>(
    space: &Space,
    pass: u16,
    search: &mut Search,
    memo: &mut M,
    key: Key,
) -> Result<Verdict, VisitFault>
    requires legal { IsGame space.now.game }
    requires sound { IsSound space.now pass search.old (M.entries memo.old) }
    requires may { MayVisit space.now pass search.old key }
    requires finishes { Finishes space.now.game key.loads }
    ensures found { MatchResult result
        (FindsVerdict space.now pass key search.old search.new (M.entries memo.new))
        (Stops space.now pass search.old.meter.budget search.new) }
    ensures counts { KeepsCount space.now pass (sum key.items)
        (progress search.old.meter (M.entries memo.old) (M.room memo.old))
        (progress search.new.meter (M.entries memo.new) (M.room memo.new)) result }
    ensures serves { IfOk result (λ verdict. KeepsServing space.now 0 search.old (M.entries memo.old)
        search.new (M.entries memo.new) (λ later. IsServedBy space.now later key verdict)) }
{
    if remember_finish(memo, key)? {
        let path = &search.path;
        search.meter.visit(pass, path)?;
    }
    Ok(Verdict::Algorithm(FINISHES))
}

// The position of a key and its loads.
fn position_of(loads: Loads, key: &Key) -> Position
    requires { loads ≡ key.now.loads }
    ensures { result ≡ key.now }
{
    Position {
        loads,
        items: key.items(),
    }
}

// The verdict of a position that was visited and does not finish.
#[cycle(expanding)]
fn decide<M: Memo>(
    search: &mut Search,
    memo: &mut M,
    here: &Expansion,
) -> Result<Verdict, VisitFault>
    requires whole { IsWhole here.now }
    requires sound { IsSound here.now.space.now here.now.pass search.old (M.entries memo.old) }
    requires stands { StandsAtPath here.now.space.now here.now.pass search.old.path here.now.position.now }
    requires unfinished { Finishes here.now.space.now.game here.now.position.now.loads → ⊥ }
    requires visited { search.old.meter.last ≡ Some (visit here.now.pass search.old.path) }
    requires told { IsTold here.now.pass (verdict_of (M.entries memo.old) here.now.position.now) here.now.told }
    requires behind { HasSpare here.now.space.now 1 search.old (M.entries memo.old) }
    requires bound { IsBound here.now.space.now.game here.now.position.now.items search.old.most }
    requires rooms { search.old.rooms ≡ here.now.space.now.game }
    ensures found { MatchResult result
        (FindsVerdict here.now.space.now here.now.pass here.now.position.now search.old search.new (M.entries memo.new))
        (Stops here.now.space.now here.now.pass search.old.meter.budget search.new) }
    ensures counts { KeepsCount here.now.space.now here.now.pass (sum here.now.position.now.items + 1)
        (progress search.old.meter (M.entries memo.old) (M.room memo.old))
        (progress search.new.meter (M.entries memo.new) (M.room memo.new)) result }
    ensures serves { IfOk result (λ verdict. KeepsServing here.now.space.now 1 search.old (M.entries memo.old)
        search.new (M.entries memo.new) (λ later. IsServedBy here.now.space.now later here.now.position.now verdict)) }
{
    let most = search.most;
    let room = search
        .rooms
        .room_up_to(search.alloc, &here.position.items, here.key, most)?;
    search.most = room;
    let verdict = weigh_all(search, memo, here, room)?;
    search.most = most;
    Ok(verdict)
}

// The verdict of a position by the sizes up to the room, from the largest on.
#[cycle(expanding)]
fn weigh_all<M: Memo>(
    search: &mut Search,
    memo: &mut M,
    here: &Expansion,
    room: u16,
) -> Result<Verdict, VisitFault>
    requires whole { IsWhole here.now }
    requires sound { IsSound here.now.space.now here.now.pass search.old (M.entries memo.old) }
    requires from_room { IsOpenFrom here.now.space.now here.now.pass room search.old here.now.position.now }
    requires is_room { IsRoom here.now.space.now.game here.now.position.now.items room }
    requires told { IsTold here.now.pass (verdict_of (M.entries memo.old) here.now.position.now) here.now.told }
    requires behind { HasSpare here.now.space.now 1 search.old (M.entries memo.old) }
    ensures found { MatchResult result
        (FindsVerdict here.now.space.now here.now.pass here.now.position.now search.old search.new (M.entries memo.new))
        (Stops here.now.space.now here.now.pass search.old.meter.budget search.new) }
    ensures counts { KeepsCount here.now.space.now here.now.pass (sum here.now.position.now.items + 1)
        (progress search.old.meter (M.entries memo.old) (M.room memo.old))
        (progress search.new.meter (M.entries memo.new) (M.room memo.new)) result }
    ensures serves { IfOk result (λ verdict. KeepsServing here.now.space.now 1 search.old (M.entries memo.old)
        search.new (M.entries memo.new) (λ later. IsServedBy here.now.space.now later here.now.position.now verdict)) }
{
    let mut entries = Vec::new(search.alloc);
    let mut answered = true;
    let collects = allows_all(here);
    for tried in 0..room {
        match weigh(search, memo, here, room - tried)? {
            Weighed::Won(number) => return Ok(Verdict::Adversary(number)),
            Weighed::Replied(entry) => {
                if collects {
                    put(&mut entries, entry)?;
                } else {
                    answered = false;
                }
            }
            Weighed::NoReply => answered = false,
            Weighed::Unlisted => {}
        }
    }
    if !answered {
        return Ok(Verdict::Held(here.pass));
    }
    let number = keep(search.alloc, &mut search.replies, here.position, entries)?;
    Ok(Verdict::Algorithm(number))
}

// Whether the pass allows all sizes after the items of the position. Where it does not, there are no replies to all
// sizes, and none need to be kept.
fn allows_all(here: &Expansion) -> bool
    requires of_game { here.now.pass < here.now.space.now.game.capacity }
    ensures { IsTrue result ↔ (largest_of here.now.position.now.items ≤ 1 + here.now.pass) }
{
    game_is_legal(&here.space.game);
    allows(here.pass, &here.position.items, 1)
}

// What a size comes to; where it wins, that is kept.
#[cycle(expanding)]
fn weigh<M: Memo>(
    search: &mut Search,
    memo: &mut M,
    here: &Expansion,
    size: u16,
) -> Result<Weighed, VisitFault>
    requires whole { IsWhole here.now }
    requires sound { IsSound here.now.space.now here.now.pass search.old (M.entries memo.old) }
    requires from_size { IsOpenFrom here.now.space.now here.now.pass size search.old here.now.position.now }
    requires may_come { Packable here.now.space.now.game (here.now.position.now.items ++ size ∷ []) }
    requires behind { HasSpare here.now.space.now 1 search.old (M.entries memo.old) }
    ensures found { MatchResult result
        (HasWeighed here.now.space.now here.now.pass size here.now.position.now search.old search.new (M.entries memo.new))
        (Stops here.now.space.now here.now.pass search.old.meter.budget search.new) }
    ensures counts { KeepsCount here.now.space.now here.now.pass (sum here.now.position.now.items + 1)
        (progress search.old.meter (M.entries memo.old) (M.room memo.old))
        (progress search.new.meter (M.entries memo.new) (M.room memo.new)) result }
    ensures serves { IfOk result (λ weighed. KeepsServingTold here.now.space.now here.now.told here.now.position.now
        (taken_by weighed) search.old (M.entries memo.old) search.new (M.entries memo.new)
        (λ later. IsServedFor here.now.space.now here.now.pass later here.now.position.now size weighed)) }
{
    game_is_legal(&here.space.game);
    if !here.space.sizes.contains(size) {
        return Ok(Weighed::Unlisted);
    }
    if !allows(here.pass, &here.position.items, size) {
        return Ok(Weighed::NoReply);
    }
    if let Some(load) = skipped(here.space, here.told, here.position, size) {
        return Ok(kept(size, load, Verdict::Algorithm(FINISHES)));
    }
    match try_size(search, memo, here, size)? {
        Tried::Wins(placements) => {
            let number = keep_win(
                search.alloc,
                &mut search.wins,
                here.position,
                size,
                placements,
            )?;
            Ok(Weighed::Won(number))
        }
        Tried::Answered { load, verdict } => Ok(kept(size, load, verdict)),
    }
}

// The reply to a size, where the algorithm wins from there.
fn kept(size: u16, load: u16, verdict: Verdict) -> Weighed
    ensures { result ≡ kept_of size load verdict }
{
    match verdict {
        Verdict::Algorithm(to) => Weighed::Replied(Entry { size, load, to }),
        _ => Weighed::NoReply,
    }
}

// What each load comes to with a size, from the greatest on, up to the first that is no win of the adversary.
#[cycle(expanding)]
fn try_size<M: Memo>(
    search: &mut Search,
    memo: &mut M,
    here: &Expansion,
    size: u16,
) -> Result<Tried, VisitFault>
    requires whole { IsWhole here.now }
    requires sound { IsSound here.now.space.now here.now.pass search.old (M.entries memo.old) }
    requires from_size { IsOpenFrom here.now.space.now here.now.pass size search.old here.now.position.now }
    requires may_come { MayCome here.now.space.now here.now.pass here.now.position.now size }
    requires behind { HasSpare here.now.space.now 0 search.old (M.entries memo.old) }
    ensures found { MatchResult result
        (λ tried. WentOn here.now.space.now here.now.pass (with_move search.old (size - 1) here.now.space.now.game.target) search.old search.new
        (M.entries memo.new) × HasTried here.now.space.now here.now.pass search.new here.now.position.now size tried)
        (Stops here.now.space.now here.now.pass search.old.meter.budget search.new) }
    ensures counts { KeepsCount here.now.space.now here.now.pass (sum here.now.position.now.items + 1)
        (progress search.old.meter (M.entries memo.old) (M.room memo.old))
        (progress search.new.meter (M.entries memo.new) (M.room memo.new)) result }
    ensures serves { IfOk result (λ tried. KeepsServing here.now.space.now 0 search.old (M.entries memo.old)
        search.new (M.entries memo.new) (λ later. IsServedWith here.now.space.now later here.now.position.now size tried)) }
{
    game_is_legal(&here.space.game);
    // They become a list where the size wins; else they take no memory.
    let mut placements = [Placement {
        load: 0,
        next: Then::Over,
    }; MOST_BINS as usize];
    let count = count_of(here.position, here.loads);
    for i in 0..count {
        let load = load_at(here.position, here.loads, i);
        match try_load(search, memo, here, size, load)? {
            Reached::ByNext(next) => placements[i] = Placement { load, next },
            Reached::Answers(verdict) => return Ok(Tried::Answered { load, verdict }),
        }
    }
    let placements = Placements::from_slice(search.alloc, &placements[..count])?;
    Ok(Tried::Wins(placements))
}

// What an item of this size comes to at this load.
#[cycle(expanding)]
fn try_load<M: Memo>(
    search: &mut Search,
    memo: &mut M,
    here: &Expansion,
    size: u16,
    load: u16,
) -> Result<Reached, VisitFault>
    requires whole { IsWhole here.now }
    requires sound { IsSound here.now.space.now here.now.pass search.old (M.entries memo.old) }
    requires at_load { IsOpenAt here.now.space.now here.now.pass size load search.old here.now.position.now }
    requires may_come { MayCome here.now.space.now here.now.pass here.now.position.now size }
    requires behind { HasSpare here.now.space.now 0 search.old (M.entries memo.old) }
    ensures found { MatchResult result
        (λ reached. WentOn here.now.space.now here.now.pass (with_move search.old size load) search.old search.new
        (M.entries memo.new) × HasReached here.now.space.now here.now.pass search.new here.now.position.now size load reached)
        (Stops here.now.space.now here.now.pass search.old.meter.budget search.new) }
    ensures counts { KeepsCount here.now.space.now here.now.pass (sum here.now.position.now.items + 1)
        (progress search.old.meter (M.entries memo.old) (M.room memo.old))
        (progress search.new.meter (M.entries memo.new) (M.room memo.new)) result }
    ensures serves { IfOk result (λ reached. KeepsServing here.now.space.now 0 search.old (M.entries memo.old)
        search.new (M.entries memo.new) (λ later. IsServedAt here.now.space.now later here.now.position.now size load reached)) }
{
    let target = here.space.game.t();
    if load + size >= target {
        return Ok(Reached::ByNext(Then::Over));
    }
    let loads = loads_after(here.space, here.position, size, load);
    let next = key_after(search.alloc, here.space, here.key, &loads, size)?;
    search.path.push(PathMove { item: size, load })?;
    let verdict = expand(here.space, here.pass, search, memo, loads, next)?;
    search.path.pop();
    Ok(reach_of(verdict))
}

// What a verdict after an item says of it.
fn reach_of(verdict: Verdict) -> Reached
    ensures { result ≡ reached_by verdict }
{
    match verdict {
        Verdict::Adversary(number) => Reached::ByNext(Then::To(number)),
        _ => Reached::Answers(verdict),
    }
}
