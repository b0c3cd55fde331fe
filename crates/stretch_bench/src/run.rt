//! A run of the words: what is due is made, and then it is written.

ghost use Rattle.std.specs.Prelude.{◌≡◌, ◌≤◌, ◌↔◌, ◌⊎◌, IsTrue, List, ℕ, map};
ghost use Rattle.stretch_bench.specs.Call.{Players};
ghost use Rattle.stretch_bench.specs.Commands.{Spells, SpellsNone, form_of, reads_by, spelling_of};
ghost use Rattle.stretch_bench.specs.Form.{reads_nothing};
ghost use Rattle.stretch_bench.specs.Run.{IsAnswer, IsCut, IsCutShort};
ghost use Rattle.stretch_bench.specs.Session.{IsUnanswered};
ghost use Rattle.stretch_bench.specs.declared.command.Command.{Command};
ghost use Rattle.stretch_bench.specs.declared.command.Command.TheVariants as commands;

use crate::command::{Command, read_words};
use crate::due::{due_of, due_of_usage, ended};
use crate::status::Status;
use crate::talking::talked;
use online_play::{Online, Player};
use port_io::{Sink, Source};
use std::alloc::Global;

/// Runs the command that the words spell.
pub(crate) fn run_words<S: Source, K: Sink>(
    alloc: Global,
    words: &[String],
    players: &Vec<Player>,
    source: &mut S,
    sink: &mut K,
) -> Status
    ensures source_count { S.faults source.old ≤ S.faults source.new }
    ensures sink_count { K.faults sink.old ≤ K.faults sink.new }
    ensures answer { IsAnswer (record {
      call = record {
        players = (record {
          names = map (λ player. player.name) players.now.items;
          answers = map (λ player. (⟦<dyn Online as Online>⟧ player.player.vtable).answer player.player.value)
              players.now.items;
        });
        words = spelling_of words.now;
        left = S.left source.old;
        new_left = S.left source.new;
      };
      reads_failed = S.faults source.old;
      new_reads_failed = S.faults source.new;
      written = K.written sink.old;
      new_written = K.written sink.new;
      writes_failed = K.faults sink.old;
      new_writes_failed = K.faults sink.new;
    }) result }
    ensures read_fault { let players : Players = record {
      names = map (λ player. player.name) players.now.items;
      answers = map (λ player. (⟦<dyn Online as Online>⟧ player.player.vtable).answer player.player.value)
          players.now.items;
    } in result ≡ Status.ReadFault → ((sink.new ≡ sink.old) × IsCutShort (record {
      players = players;
      words = spelling_of words.now;
      left = S.left source.old;
      new_left = S.left source.new;
    }))
        ⊎ (Spells players (spelling_of words.now) commands.Session
        × IsUnanswered (S.left source.old) (S.left source.new) (K.written sink.old) (K.written sink.new)) }
    ensures memory { result ≡ Status.OutOfMemory → sink.new ≡ sink.old }
    ensures no_command { let players : Players = record {
      names = map (λ player. player.name) players.now.items;
      answers = map (λ player. (⟦<dyn Online as Online>⟧ player.player.vtable).answer player.player.value)
          players.now.items;
    } in SpellsNone players (spelling_of words.now) → source.new ≡ source.old }
    ensures unread { let players : Players = record {
      names = map (λ player. player.name) players.now.items;
      answers = map (λ player. (⟦<dyn Online as Online>⟧ player.player.vtable).answer player.player.value)
          players.now.items;
    } in (command : Command) → Spells players (spelling_of words.now) command
        → reads_by players command ≡ reads_nothing → source.new ≡ source.old }
{
    match read_words(alloc, words, players) {
        Ok(Some(command)) => run_command(alloc, players, &command, source, sink),
        Ok(None) => ended(due_of_usage(alloc), sink),
        Err(_) => Status::OutOfMemory,
    }
}

// Runs a command.
fn run_command<S: Source, K: Sink>(
    alloc: Global,
    players: &Vec<Player>,
    command: &Command,
    source: &mut S,
    sink: &mut K,
) -> Status
    requires allowed { (form_of (record {
      names = map (λ player. player.name) players.now.items;
      answers = map (λ player. (⟦<dyn Online as Online>⟧ player.player.vtable).answer player.player.value)
          players.now.items;
    }) command.now).IsAllowed }
    ensures source_count { S.faults source.old ≤ S.faults source.new }
    ensures sink_count { K.faults sink.old ≤ K.faults sink.new }
    ensures answer { let players : Players = record {
      names = map (λ player. player.name) players.now.items;
      answers = map (λ player. (⟦<dyn Online as Online>⟧ player.player.vtable).answer player.player.value)
          players.now.items;
    } in (words : List (List ℕ)) → Spells players words command.now → IsAnswer (record {
      call = record {
        players = players;
        words = words;
        left = S.left source.old;
        new_left = S.left source.new;
      };
      reads_failed = S.faults source.old;
      new_reads_failed = S.faults source.new;
      written = K.written sink.old;
      new_written = K.written sink.new;
      writes_failed = K.faults sink.old;
      new_writes_failed = K.faults sink.new;
    }) result }
    ensures read_fault { let players : Players = record {
      names = map (λ player. player.name) players.now.items;
      answers = map (λ player. (⟦<dyn Online as Online>⟧ player.player.vtable).answer player.player.value)
          players.now.items;
    } in result ≡ Status.ReadFault
        → ((sink.new ≡ sink.old) × IsCut (reads_by players command.now) (S.left source.old) (S.left source.new))
        ⊎ ((command.now ≡ commands.Session)
        × IsUnanswered (S.left source.old) (S.left source.new) (K.written sink.old) (K.written sink.new)) }
    ensures memory { result ≡ Status.OutOfMemory → sink.new ≡ sink.old }
    ensures unread { let players : Players = record {
      names = map (λ player. player.name) players.now.items;
      answers = map (λ player. (⟦<dyn Online as Online>⟧ player.player.vtable).answer player.player.value)
          players.now.items;
    } in reads_by players command.now ≡ reads_nothing → source.new ≡ source.old }
{
    if is_session(command) {
        return talked(alloc, source, sink);
    }
    ended(due_of(alloc, players, command, source), sink)
}

// Whether a command reads and writes in turns.
fn is_session(command: &Command) -> bool
    ensures { IsTrue result ↔ (command.now ≡ commands.Session) }
{
    matches!(command, Command::Session)
}
