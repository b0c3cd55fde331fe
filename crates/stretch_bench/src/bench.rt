//! The top call.

ghost use Rattle.std.specs.Prelude.{◌≡◌, ◌≤◌, ◌⊎◌, ℕ, map};
ghost use Rattle.items.specs.Game.{GameNumbers};
ghost use Rattle.online_play.specs.Algorithm.{ForcesEvery};
ghost use Rattle.checker.specs.Accepted.{Accepts};
ghost use Rattle.checker.specs.declared.fault.Accepted.{Accepted};
ghost use Rattle.checker.specs.declared.fault.Wanted.TheVariants.{Either};
ghost use Rattle.stretch_bench.specs.Check.{accepted_line, adversary_accepted, algorithm_accepted};
ghost use Rattle.stretch_bench.specs.Call.{Players};
ghost use Rattle.stretch_bench.specs.Commands.{Spells, SpellsNone, reads_by, spelling_of};
ghost use Rattle.stretch_bench.specs.Form.{reads_nothing};
ghost use Rattle.stretch_bench.specs.Replying.{Replying};
ghost use Rattle.stretch_bench.specs.Run.{IsAnswer, IsCutShort, IsExact};
ghost use Rattle.stretch_bench.specs.Session.{IsUnanswered};
ghost use Rattle.stretch_bench.specs.Written.{WritesFirst};
ghost use Rattle.stretch_bench.specs.declared.command.Command.{Command};
ghost use Rattle.stretch_bench.specs.declared.command.Command.TheVariants as commands;

use crate::run::run_words;
use crate::status::Status;
use online_play::{Online, Player};
use port_io::{Sink, Source};
use std::alloc::Global;

/// Runs the command that the words spell: first the words, then the reading line by line, then the work, then the
/// writing; a session reads its strategy first, and then writes what is due and reads the next answer in turns. All
/// memory is taken before the first write. It does all that the program does.
///
/// - `check` reads the text of a strategy and writes that it is legal: `accepted SIDE M G T nodes N`.
/// - `play NAME` reads a strategy of the adversary, and writes its play against the first player with this name.
/// - `answer ITEM ..` reads a strategy of the algorithm, and writes its replies to the items, or `unpackable K` where
///   the first K items, and no fewer, are not packable.
/// - `minimise` reads a strategy and writes its canonical form.
/// - `upgrade` reads a strategy and writes the canonical form of its upgrade, in format 2.
/// - `report` reads a strategy and writes what it shows: `report SIDE M G T nodes N depth D target A/B`.
/// - `drill NUMBER COPIES` makes, checks and minimises a large legal strategy of the two numbers, and writes
///   `drill NUMBER COPIES nodes N bytes B accepted minimised K`.
/// - `search M G T budget=B table=N` searches the game, and writes the canonical form of the strategy that it finds, or
///   `undecided M G T visits V pass K path MOVES` where its budget was spent.
/// - `force M G T pass=K budget=B table=N` searches the game for a strategy of the adversary alone, from pass K on, and
///   writes the canonical form of the one that it finds, in format 2, or `notfound M G T visits V`, which claims nothing
///   about the game.
/// - `session` reads a strategy of the adversary and plays it against the lines `bin B` that follow its text: it writes
///   `session M G T`, and in turns `item S` and reads the item's bin, until `lost loads LIST` at the play's end,
///   `ended K` where the input ends after K answers, or `badanswer K` where line K after the text is no answer. A play
///   ends after as many answers as there are bins times the capacity at the latest, and an answer costs the same for
///   any strategy.
/// - `scale C` reads a strategy of the adversary and writes it on C times its scale, or `notransfer M G T` where that
///   is no game.
/// - `weaken T` reads a strategy and writes its canonical form at the target T, or `notransfer M G T` where it doesn't
///   serve that target.
/// - `value M G budget=B table=N` searches for the greatest target at which every algorithm is forced, and writes
///   `value M G target T` and a strategy of each side that shows it, or `value M G none` and one of the algorithm, or
///   `undecided M G T visits V pass K path MOVES` where a budget was spent.
///
/// Each command that reads writes the first fault of the input where it has one, `rejected line L syntax` or
/// `rejected line L rule NAME`; a session looks for it in the text of the strategy alone. For words that spell no
/// command it writes `usage`. Each line ends in a line feed.
///
/// # Errors
///
/// A read that failed gives [`Status::ReadFault`], memory that was refused [`Status::OutOfMemory`], and nothing is
/// written then; but where a read fails while a session waits for an answer, what it said before is written. A write
/// that failed gives [`Status::WriteFault`] in place of any other answer.
pub fn run_bench<S: Source, K: Sink>(
    alloc: Global,
    words: &[String],
    players: &Vec<Player>,
    source: &mut S,
    sink: &mut K,
) -> Status
    ensures source_count { S.faults source.old ≤ S.faults source.new }
    ensures sink_count { K.faults sink.old ≤ K.faults sink.new }

    // What each status stands for, and what was written with it.
    ensures answer { IsAnswer (record {
      call = record {
        players = (record {
          names = map (λ player. player.name) players.now.items;
          answers = map (λ player. (⟦<dyn Online as Online>⟧ player.player.vtable).answer player.player.value)
              players.now.items;
        });
        words = spelling_of words.now;
        left = S.left source.old;
        new_left = S.left source.new;
      };
      reads_failed = S.faults source.old;
      new_reads_failed = S.faults source.new;
      written = K.written sink.old;
      new_written = K.written sink.new;
      writes_failed = K.faults sink.old;
      new_writes_failed = K.faults sink.new;
    }) result }
    ensures no_command { let players : Players = record {
      names = map (λ player. player.name) players.now.items;
      answers = map (λ player. (⟦<dyn Online as Online>⟧ player.player.vtable).answer player.player.value)
          players.now.items;
    } in SpellsNone players (spelling_of words.now)
        → (source.new ≡ source.old)
        × ((result ≡ Status.Usage) ⊎ (result ≡ Status.WriteFault) ⊎ (result ≡ Status.OutOfMemory)) }

    // Where a read failed, nothing was written, and of a session's strategy not the whole text was read; or in a
    // session what is said to the answers that came was written.
    ensures read_fault { let players : Players = record {
      names = map (λ player. player.name) players.now.items;
      answers = map (λ player. (⟦<dyn Online as Online>⟧ player.player.vtable).answer player.player.value)
          players.now.items;
    } in result ≡ Status.ReadFault → ((sink.new ≡ sink.old) × IsCutShort (record {
      players = players;
      words = spelling_of words.now;
      left = S.left source.old;
      new_left = S.left source.new;
    }))
        ⊎ (Spells players (spelling_of words.now) commands.Session
        × IsUnanswered (S.left source.old) (S.left source.new) (K.written sink.old) (K.written sink.new)) }
    ensures memory { result ≡ Status.OutOfMemory → sink.new ≡ sink.old }

    // A command that wants no strategy leaves the source as it was, whatever the status.
    ensures unread { let players : Players = record {
      names = map (λ player. player.name) players.now.items;
      answers = map (λ player. (⟦<dyn Online as Online>⟧ player.player.vtable).answer player.player.value)
          players.now.items;
    } in (command : Command)
        → Spells players (spelling_of words.now) command → reads_by players command ≡ reads_nothing
        → source.new ≡ source.old }

    // A command is carried out exactly where the input is the text of a legal strategy of the side that it wants.
    ensures exact { let players : Players = record {
      names = map (λ player. player.name) players.now.items;
      answers = map (λ player. (⟦<dyn Online as Online>⟧ player.player.vtable).answer player.player.value)
          players.now.items;
    } in (command : Command)
        → Spells players (spelling_of words.now) command
        → IsExact (reads_by players command) (S.left source.old) result }

    // A legal strategy stands after an accepted line that was written, whatever the status.
    ensures accepted { (accepted : Accepted)
        → WritesFirst (K.written sink.old) (K.written sink.new) (accepted_line accepted)
        → Accepts Either accepted (S.left source.old) (S.left source.new) }

    // Where it is the adversary's, every deterministic online algorithm of the game is forced to the target.
    ensures forced { (game : GameNumbers) (nodes : ℕ)
        → WritesFirst (K.written sink.old) (K.written sink.new) (accepted_line (adversary_accepted game nodes))
        → ForcesEvery game }

    // Where it is the algorithm's, its replies keep every load below the target on every packable list of items.
    ensures kept { (game : GameNumbers) (nodes : ℕ)
        → WritesFirst (K.written sink.old) (K.written sink.new) (accepted_line (algorithm_accepted game nodes))
        → Replying game nodes (S.left source.old) (S.left source.new) }
{
    run_words(alloc, words, players, source, sink)
}
