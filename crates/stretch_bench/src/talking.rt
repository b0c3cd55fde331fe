//! The command `session`.

ghost use Rattle.std.specs.Prelude.{◌≡◌, ◌≤◌, ◌⊎◌, List, [], None, ℕ};
ghost use Rattle.adversary_graph.specs.Pools.{IsLegalOfAdversary};
ghost use Rattle.checker.specs.Accepted.{IsTextInterrupted};
ghost use Rattle.checker.specs.declared.fault.Wanted.TheVariants.{Only};
ghost use Rattle.strategy_text.specs.declared.node.Side.TheVariants.{Adversary};
ghost use Rattle.stretch_bench.specs.Call.{Players};
ghost use Rattle.stretch_bench.specs.Commands.{Spells};
ghost use Rattle.stretch_bench.specs.Run.{IsAnswer};
ghost use Rattle.stretch_bench.specs.Session.{IsUnanswered};
ghost use Rattle.stretch_bench.specs.Talking.{IsTalked, status_given};
ghost use Rattle.stretch_bench.specs.declared.command.Command.TheVariants.{Session as Talk};

use crate::due::{due_of_fault, ended};
use crate::status::Status;
use adversary_graph::AdvPool;
use checker::{Wanted, load_from};
use port_io::{LineReader, Sink, Source};
use referee_session::{Ending, Session, SessionFault, referee};
use std::alloc::Global;
use strategy_text::{Side, Strategy};

/// Reads a strategy of the adversary from the front of the input, and lets it play against the answers that follow.
/// All memory is taken before the first write.
pub(crate) fn talked<S: Source, K: Sink>(alloc: Global, source: &mut S, sink: &mut K) -> Status
    ensures source_count { S.faults source.old ≤ S.faults source.new }
    ensures sink_count { K.faults sink.old ≤ K.faults sink.new }
    ensures answer { (players : Players) (words : List (List ℕ)) → Spells players words Talk → IsAnswer (record {
      call = record {
        players = players;
        words = words;
        left = S.left source.old;
        new_left = S.left source.new;
      };
      reads_failed = S.faults source.old;
      new_reads_failed = S.faults source.new;
      written = K.written sink.old;
      new_written = K.written sink.new;
      writes_failed = K.faults sink.old;
      new_writes_failed = K.faults sink.new;
    }) result }
    ensures read_fault { result ≡ Status.ReadFault
        → ((sink.new ≡ sink.old) × IsTextInterrupted (Only Adversary) [] (S.left source.old) (S.left source.new))
        ⊎ IsUnanswered (S.left source.old) (S.left source.new) (K.written sink.old) (K.written sink.new) }
    ensures memory { result ≡ Status.OutOfMemory → sink.new ≡ sink.old }
{
    let Ok(mut lines) = LineReader::new(alloc) else {
        return Status::OutOfMemory;
    };
    match load_from(alloc, &mut lines, source, Wanted::Only(Side::Adversary)) {
        Ok(strategy) => refereed(alloc, strategy, &mut lines, source, sink),
        Err(fault) => ended(due_of_fault(alloc, fault), sink),
    }
}

// Lets a legal strategy of the adversary play from its last node on.
fn refereed<S: Source, K: Sink>(
    alloc: Global,
    strategy: Strategy,
    lines: &mut LineReader,
    source: &mut S,
    sink: &mut K,
) -> Status
    requires legal { IsLegalOfAdversary strategy }
    requires open { lines.old.ending ≡ None }
    ensures source_count { S.faults source.old ≤ S.faults source.new }
    ensures sink_count { K.faults sink.old ≤ K.faults sink.new }
    ensures talk { IsTalked (record {
      strategy = strategy;
      held = lines.old.held;
      left = S.left source.old;
      new_left = S.left source.new;
      reads_failed = S.faults source.old;
      new_reads_failed = S.faults source.new;
      written = K.written sink.old;
      new_written = K.written sink.new;
      writes_failed = K.faults sink.old;
      new_writes_failed = K.faults sink.new;
    }) result }
    ensures memory { result ≡ Status.OutOfMemory → sink.new ≡ sink.old }
{
    let Ok(pool) = AdvPool::from_strategy(alloc, strategy) else {
        return Status::OutOfMemory;
    };
    let root = pool.len() - 1;
    let mut session = Session::begin(pool, root);
    status_of(referee(&mut session, lines, source, sink))
}

// The status of what a referee gave.
fn status_of(given: Result<Ending, SessionFault>) -> Status
    ensures { result ≡ status_given given }
{
    match given {
        Ok(Ending::Lost) => Status::Done,
        Ok(Ending::Ended) => Status::Ended,
        Ok(Ending::Bad) => Status::BadAnswer,
        Err(SessionFault::Read) => Status::ReadFault,
        Err(SessionFault::Write) => Status::WriteFault,
    }
}

#[cfg(test)]
mod tests {
    use crate::tests::{LEGAL, OF_ALGORITHM, WITH_BURSTS, ends_so, run};
    use port_io::{MemSink, MemSource, Source};
    use std::alloc::{AllocError, Global};

    // A strategy and the answers that follow it, the bytes of a read and the reads that fail, the number with which a
    // session ends, and what it writes.
    type Talk = (
        &'static str,
        &'static str,
        (usize, &'static [u64]),
        u8,
        &'static str,
    );

    const ANSWERS: &str = "bin 0\nbin 0\nbin 1\nbin 0\n";

    const LOST: &str = "session 2 3 4\nitem 1\nitem 1\nitem 2\nitem 2\nlost loads 4 2\n";

    const FIRST: &str = "session 2 3 4\nitem 1\n";

    const TALKS: [Talk; 17] = [
        (LEGAL, ANSWERS, (64, &[]), 0, LOST),
        (LEGAL, ANSWERS, (1, &[]), 0, LOST),
        (LEGAL, ANSWERS, (7, &[]), 0, LOST),
        (LEGAL, ANSWERS, (4_096, &[]), 0, LOST),
        (
            LEGAL,
            "bin 1\nbin 1\nbin 1\n",
            (64, &[]),
            0,
            "session 2 3 4\nitem 1\nitem 1\nitem 2\nlost loads 0 4\n",
        ),
        // What stands after the last answer is not looked at.
        (
            LEGAL,
            "bin 1\nbin 1\nbin 1\nno answer",
            (64, &[]),
            0,
            "session 2 3 4\nitem 1\nitem 1\nitem 2\nlost loads 0 4\n",
        ),
        (
            WITH_BURSTS,
            "bin 0\nbin 1\nbin 0\n",
            (64, &[]),
            0,
            "session 2 3 4\nitem 1\nitem 1\nitem 3\nlost loads 4 1\n",
        ),
        (LEGAL, "", (64, &[]), 9, "session 2 3 4\nitem 1\nended 0\n"),
        (
            LEGAL,
            "bin 0\nbin 0\n",
            (64, &[]),
            9,
            "session 2 3 4\nitem 1\nitem 1\nitem 2\nended 2\n",
        ),
        (
            LEGAL,
            "bin 2\n",
            (64, &[]),
            10,
            "session 2 3 4\nitem 1\nbadanswer 1\n",
        ),
        (
            LEGAL,
            "bin 0",
            (64, &[]),
            10,
            "session 2 3 4\nitem 1\nbadanswer 1\n",
        ),
        (
            LEGAL,
            "bin 0\nbin 00\n",
            (64, &[]),
            10,
            "session 2 3 4\nitem 1\nitem 1\nbadanswer 2\n",
        ),
        (
            LEGAL,
            "bin 0\r\n",
            (64, &[]),
            10,
            "session 2 3 4\nitem 1\nbadanswer 1\n",
        ),
        (LEGAL, ANSWERS, (1, &[327]), 4, FIRST),
        (LEGAL, ANSWERS, (1, &[326]), 4, ""),
        (
            LEGAL,
            ANSWERS,
            (1, &[333]),
            4,
            "session 2 3 4\nitem 1\nitem 1\n",
        ),
        (
            OF_ALGORITHM,
            ANSWERS,
            (64, &[]),
            1,
            "rejected line 3 rule side\n",
        ),
    ];

    // A strategy with answers after it.
    fn with_answers(alloc: Global, strategy: &str, answers: &str) -> Result<String, AllocError> {
        let mut input = String::from_str(alloc, strategy)?;
        input.push_str(answers)?;
        Ok(input)
    }

    fn is_talk(alloc: Global, row: &Talk) -> Result<bool, AllocError> {
        let input = with_answers(alloc, row.0, row.1)?;
        let due = (row.3, row.4.as_bytes());
        ends_so(
            alloc,
            "session",
            input.as_bytes(),
            row.2,
            (1_000, 100, &[]),
            due,
        )
    }

    #[test]
    fn strangers_play_and_lose(rt: HostRuntime) {
        for row in &TALKS {
            assert!(rt; is_talk(rt.alloc(), row).unwrap_or(false), "{}", row.1);
        }
    }

    // How many bytes a source has left that gives one at a time.
    fn left_in(source: &mut MemSource) -> u64 {
        let mut byte = [0u8; 1];
        let mut left = 0u64;
        for _ in 0..1_000u32 {
            if source.read(&mut byte) != Ok(1) {
                return left;
            }
            left = left.saturating_add(1);
        }
        left
    }

    // How many bytes are left of an input read byte by byte, where the first write fails; None where the number with
    // which the session ends is another, or something is written.
    fn left_unwritten(alloc: Global) -> Result<Option<u64>, AllocError> {
        let input = with_answers(alloc, LEGAL, ANSWERS)?;
        let mut source = MemSource::new(alloc, input.as_bytes(), 1, &[])?;
        let mut sink = MemSink::new(alloc, 1_000, 100, &[1])?;
        let status = run(alloc, "session", &mut source, &mut sink)?;
        if status.code() != 5 || !sink.bytes().is_empty() {
            return Ok(None);
        }
        Ok(Some(left_in(&mut source)))
    }

    #[test]
    fn the_first_item_is_written_before_an_answer_is_read(rt: HostRuntime) {
        assert_eq!(rt; left_unwritten(rt.alloc()), Ok(Some(24)));
    }
}
