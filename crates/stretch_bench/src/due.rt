//! What is due to be written: all of it is made before anything is written.

ghost use Rattle.std.specs.Prelude.{◌≡◌, ◌≤◌, [], Err, IfErr, IfOk, IfSome, OnErr, OnOk, Option, List, ℕ, map};
ghost use Rattle.std.specs.Io.KnownBytes.{append_known};
ghost use Rattle.checker.specs.declared.fault.CheckFault.TheVariants as check_fault;
ghost use Rattle.checker.specs.declared.fault.Wanted.{Wanted};
ghost use Rattle.port_io.specs.Faults.{Rose};
ghost use Rattle.port_io.specs.Told.{AppendsSome};
ghost use Rattle.strategy_text.specs.Spelling.{IsSpellable};
ghost use Rattle.strategy_text.specs.Text.{text_of};
ghost use Rattle.stretch_bench.specs.Call.{Players};
ghost use Rattle.stretch_bench.specs.Commands.{form_of, reads_by};
ghost use Rattle.stretch_bench.specs.Due.{IsFrontRejected, IsRejected};
ghost use Rattle.stretch_bench.specs.Form.{reads_nothing};
ghost use Rattle.stretch_bench.specs.Lines.{usage_line};
ghost use Rattle.stretch_bench.specs.Pieces.{IsDueWith, IsEnding, IsFrontStop, IsMade, IsStop, IsStopOf, IsWritable};
ghost use Rattle.stretch_bench.specs.Pieces.{due_text, text_of_some};
ghost use Rattle.stretch_bench.specs.Run.{IsCut};
ghost use Rattle.stretch_bench.specs.declared.command.Command.TheVariants as commands;
ghost use Rattle.stretch_bench.specs.declared.due.Stop.TheVariants.{Read, Memory};
ghost use Rattle.stretch_bench.specs.declared.status.Status.TheVariants.{Done, Rejected, Usage};

use crate::answering::answered;
use crate::checking::checked;
use crate::command::Command;
use crate::drilling::drilled;
use crate::force_search::forced;
use crate::lines::{line_of_rejected, line_of_usage};
use crate::minimising::minimised;
use crate::playing::played;
use crate::reporting::reported;
use crate::scaling::scaled;
use crate::searching::searched;
use crate::status::Status;
use crate::upgrading::upgraded;
use crate::valuing::valued;
use crate::weakening::weakened;
use checker::{CheckFault, Wanted, load};
use online_play::{Online, Player};
use port_io::{Failed, Sink, Source, put_all};
use std::alloc::{AllocError, Global};
use strategy_text::{Side, Strategy, Text, write_strategy};

/// A status, and what is due with it: lines, and then at most two strategies.
#[derive(Drop)]
pub(crate) struct Due {
    pub(crate) status: Status,
    pub(crate) lines: Text,
    pub(crate) first: Option<Strategy>,
    pub(crate) second: Option<Strategy>,
}

impl Due {
    /// Lines alone.
    pub(crate) fn of_lines(status: Status, lines: Text) -> Due
        ensures { IsDueWith status (λ text. text ≡ lines) result }
    {
        Due {
            status,
            lines,
            first: None,
            second: None,
        }
    }

    /// A strategy alone. Its text is never in memory.
    pub(crate) fn of_strategy(alloc: Global, strategy: Strategy) -> Due
        requires { IsSpellable strategy }
        ensures { IsDueWith Done (λ text. text ≡ text_of strategy) result }
    {
        Due {
            status: Status::Done,
            lines: Text::new(alloc),
            first: Some(strategy),
            second: None,
        }
    }
}

/// Why nothing is due.
#[derive(Drop)]
pub(crate) enum Stop {
    /// A read failed.
    Read,
    /// Memory was refused.
    Memory,
}

impl From<AllocError> for Stop {
    ghost from_gives = { λ _ stop. stop ≡ Memory };

    fn from(_error: AllocError) -> Stop {
        Stop::Memory
    }
}

/// What is due for words that spell no command.
pub(crate) fn due_of_usage(alloc: Global) -> Result<Due, Stop>
    ensures line { IfOk result (IsDueWith Usage (λ text. text ≡ usage_line)) }
    ensures read { result ≡ Err Read → ⊥ }
{
    let line = line_of_usage(alloc)?;
    Ok(Due::of_lines(Status::Usage, line))
}

/// What a command comes to, over the input of the source. It is none that reads and writes in turns.
pub(crate) fn due_of<S: Source>(
    alloc: Global,
    players: &Vec<Player>,
    command: &Command,
    source: &mut S,
) -> Result<Due, Stop>
    requires allowed { (form_of (record {
      names = map (λ player. player.name) players.now.items;
      answers = map (λ player. (⟦<dyn Online as Online>⟧ player.player.vtable).answer player.player.value)
          players.now.items;
    }) command.now).IsAllowed }
    requires whole { command.now ≡ commands.Session → ⊥ }
    ensures count { S.faults source.old ≤ S.faults source.new }
    ensures due { IfOk result (IsMade (record {
      names = map (λ player. player.name) players.now.items;
      answers = map (λ player. (⟦<dyn Online as Online>⟧ player.player.vtable).answer player.player.value)
          players.now.items;
    }) (S.left source.old) (S.left source.new) command.now) }
    ensures read { result ≡ Err Read → Rose (S.faults source.old) (S.faults source.new) }
    ensures cut { let players : Players = record {
      names = map (λ player. player.name) players.now.items;
      answers = map (λ player. (⟦<dyn Online as Online>⟧ player.player.vtable).answer player.player.value)
          players.now.items;
    } in result ≡ Err Read
        → IsCut (reads_by players command.now) (S.left source.old) (S.left source.new) }
    ensures unread { let players : Players = record {
      names = map (λ player. player.name) players.now.items;
      answers = map (λ player. (⟦<dyn Online as Online>⟧ player.player.vtable).answer player.player.value)
          players.now.items;
    } in reads_by players command.now ≡ reads_nothing → source.new ≡ source.old }
{
    match made(alloc, players, command, source) {
        Ok(due) => Ok(due),
        Err(fault) => due_of_fault(alloc, fault),
    }
}

// What a command comes to, where its input has no fault: a strategy of the side that it wants is read, where it wants
// one, and what is due is made from it.
fn made<S: Source>(
    alloc: Global,
    players: &Vec<Player>,
    command: &Command,
    source: &mut S,
) -> Result<Due, CheckFault>
    requires allowed { (form_of (record {
      names = map (λ player. player.name) players.now.items;
      answers = map (λ player. (⟦<dyn Online as Online>⟧ player.player.vtable).answer player.player.value)
          players.now.items;
    }) command.now).IsAllowed }
    requires whole { command.now ≡ commands.Session → ⊥ }
    ensures count { S.faults source.old ≤ S.faults source.new }
    ensures due { IfOk result (IsMade (record {
      names = map (λ player. player.name) players.now.items;
      answers = map (λ player. (⟦<dyn Online as Online>⟧ player.player.vtable).answer player.player.value)
          players.now.items;
    }) (S.left source.old) (S.left source.new) command.now) }
    ensures fault { let players : Players = record {
      names = map (λ player. player.name) players.now.items;
      answers = map (λ player. (⟦<dyn Online as Online>⟧ player.player.vtable).answer player.player.value)
          players.now.items;
    } in
        IfErr result (IsStopOf (reads_by players command.now) (S.left source.old) (S.left source.new)) }
    ensures read { result ≡ Err check_fault.Read → Rose (S.faults source.old) (S.faults source.new) }
    ensures unread { let players : Players = record {
      names = map (λ player. player.name) players.now.items;
      answers = map (λ player. (⟦<dyn Online as Online>⟧ player.player.vtable).answer player.player.value)
          players.now.items;
    } in reads_by players command.now ≡ reads_nothing → source.new ≡ source.old }
{
    let adversary = Wanted::Only(Side::Adversary);
    let algorithm = Wanted::Only(Side::Algorithm);
    match command {
        Command::Check => checked(alloc, source),
        Command::Play { player } => {
            let strategy = load(alloc, source, adversary)?;
            Ok(played(alloc, &players[*player], strategy)?)
        }
        Command::Answer { items } => {
            let strategy = load(alloc, source, algorithm)?;
            Ok(answered(alloc, items.as_slice(), strategy)?)
        }
        Command::Minimise => Ok(minimised(alloc, load(alloc, source, Wanted::Either)?)?),
        Command::Upgrade => Ok(upgraded(alloc, load(alloc, source, Wanted::Either)?)?),
        Command::Report => Ok(reported(alloc, load(alloc, source, Wanted::Either)?)?),
        Command::Drill { number, copies } => Ok(drilled(alloc, *number, *copies)?),
        Command::Search {
            game,
            budget,
            table,
        } => Ok(searched(alloc, game, *budget, *table)?),
        Command::Session => unreachable!(),
        Command::Scale { factor } => {
            let strategy = load(alloc, source, adversary)?;
            Ok(scaled(alloc, *factor, strategy)?)
        }
        Command::Weaken { target } => {
            let strategy = load(alloc, source, Wanted::Either)?;
            Ok(weakened(alloc, *target, strategy)?)
        }
        Command::Value {
            bins,
            capacity,
            budget,
            table,
        } => Ok(valued(alloc, *bins, *capacity, *budget, *table)?),
        Command::Force {
            game,
            pass,
            budget,
            table,
        } => Ok(forced(alloc, game, *pass, *budget, *table)?),
    }
}

/// The line of the fault that was found, or why there is none.
pub(crate) fn due_of_fault(alloc: Global, fault: CheckFault) -> Result<Due, Stop>
    ensures line { (wanted : Wanted) (left new_left : Option (List ℕ)) → IsStop wanted left new_left fault
        → IfOk result (IsDueWith Rejected (IsRejected wanted left new_left)) }
    ensures front { (wanted : Wanted) (left new_left : Option (List ℕ)) → IsFrontStop wanted left new_left fault
        → IfOk result (IsDueWith Rejected (IsFrontRejected wanted left new_left)) }
    ensures writable { IfOk result IsWritable }
    ensures status { IfOk result (λ due. due.status ≡ Rejected) }
    ensures read { result ≡ Err Read → fault ≡ check_fault.Read }
    ensures memory { fault ≡ check_fault.Memory → result ≡ Err Memory }
{
    match fault {
        CheckFault::Rejected { line, why } => {
            let line = line_of_rejected(alloc, line, why)?;
            Ok(Due::of_lines(Status::Rejected, line))
        }
        CheckFault::Read => Err(Stop::Read),
        CheckFault::Memory => Err(Stop::Memory),
    }
}

/// Writes what is due, where it was made, and tells how that ended.
pub(crate) fn ended<K: Sink>(made: Result<Due, Stop>, sink: &mut K) -> Status
    requires { IfOk made IsWritable }
    ensures count { K.faults sink.old ≤ K.faults sink.new }
    ensures ending { IsEnding made (K.written sink.old) (K.written sink.new) (K.faults sink.old) (K.faults sink.new)
        result }
    ensures same { IfErr made (λ _. sink.new ≡ sink.old) }
{
    match made {
        Ok(due) => match write_due(&due, sink) {
            Ok(()) => due.status,
            Err(_) => Status::WriteFault,
        },
        Err(Stop::Read) => Status::ReadFault,
        Err(Stop::Memory) => Status::OutOfMemory,
    }
}

// Writes what is due: its lines, and then its strategies, each as it is spelled. Takes no memory. Fails where a write
// failed; a prefix of the text was written then.
fn write_due<K: Sink>(due: &Due, sink: &mut K) -> Result<(), Failed>
    requires { IsWritable due.now }
    ensures count { K.faults sink.old ≤ K.faults sink.new }
    ensures ok { OnOk result (K.written sink.new ≡ append_known (K.written sink.old) (due_text due.now)) }
    ensures failed { OnErr result (Rose (K.faults sink.old) (K.faults sink.new)) }
    ensures err { OnErr result (AppendsSome (K.written sink.old) (K.written sink.new) (due_text due.now)) }
{
    put_all(sink, due.lines.as_slice())?;
    write_some(&due.first, sink)?;
    write_some(&due.second, sink)
}

// Writes a strategy, where there is one.
fn write_some<K: Sink>(strategy: &Option<Strategy>, sink: &mut K) -> Result<(), Failed>
    requires { IfSome strategy.now IsSpellable }
    ensures count { K.faults sink.old ≤ K.faults sink.new }
    ensures ok { OnOk result (K.written sink.new ≡ append_known (K.written sink.old) (text_of_some strategy.now)) }
    ensures failed { OnErr result (Rose (K.faults sink.old) (K.faults sink.new)) }
    ensures err { OnErr result (AppendsSome (K.written sink.old) (K.written sink.new) (text_of_some strategy.now)) }
{
    match strategy {
        Some(strategy) => write_strategy(strategy, sink),
        None => Ok(()),
    }
}
