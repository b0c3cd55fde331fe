//! The referee.

ghost use Rattle.std.specs.Prelude.{◌≡◌, ◌≤◌, ◌+◌, [], Err, MatchResult, OnErr, OnOk, length};
ghost use Rattle.std.specs.Io.KnownBytes.{append_known};
ghost use Rattle.port_io.specs.Faults.{Rose};
ghost use Rattle.port_io.specs.Told.{AppendsSome};
ghost use Rattle.referee_session.specs.Due.{said_in};
ghost use Rattle.referee_session.specs.Lines.{line_at};
ghost use Rattle.referee_session.specs.Refereed.{IsOutcome};
ghost use Rattle.referee_session.specs.Session.{state_of, talk_of};
ghost use Rattle.referee_session.specs.Turns.{GoesOn};

use crate::answer::{Next, next_answer};
use crate::laws::session_is_legal;
use crate::line::{ShortLine, bad_line, ended_line, item_line, lost_line, session_line};
use crate::session::Session;
use port_io::{Failed, LineReader, Sink, Source, put_all};

/// How a talk ended.
#[derive(Clone, Copy, PartialEq, Eq, Debug)]
pub enum Ending {
    /// The play has ended, and the algorithm lost it.
    Lost,
    /// The input ended while an item was due.
    Ended,
    /// The next line was no answer.
    Bad,
}

/// Why a talk has no ending.
#[derive(Clone, Copy, PartialEq, Eq, Debug)]
pub enum SessionFault {
    /// A read failed.
    Read,
    /// A write failed.
    Write,
}

/// Lets a new session play against the answers of an input. It writes the game and the first item, and then in turns
/// reads an answer and writes the next item, or the loads at the play's end. Each item is written before its answer is
/// read. Takes no memory.
///
/// # Errors
///
/// [`SessionFault::Read`] where a read failed, and [`SessionFault::Write`] where a write failed.
pub fn referee<S: Source, K: Sink>(
    session: &mut Session,
    lines: &mut LineReader,
    source: &mut S,
    sink: &mut K,
) -> Result<Ending, SessionFault>
    requires new { session.old.answers ≡ [] }
    ensures source_count { S.faults source.old ≤ S.faults source.new }
    ensures sink_count { K.faults sink.old ≤ K.faults sink.new }
    ensures kept { session.new ≡ state_of session.old.pool session.old.root session.new.answers }

    // What it comes to, and what was written.
    ensures outcome { IsOutcome (record {
      pool = session.old.pool;
      root = session.old.root;
      answers = session.new.answers;
      reader = lines.old;
      new_reader = lines.new;
      left = S.left source.old;
      new_left = S.left source.new;
      written = K.written sink.old;
      new_written = K.written sink.new;
    }) result }

    ensures read { result ≡ Err SessionFault.Read → Rose (S.faults source.old) (S.faults source.new) }
    ensures write { result ≡ Err SessionFault.Write → Rose (K.faults sink.old) (K.faults sink.new) }
{
    if open(session, sink).is_err() {
        return Err(SessionFault::Write);
    }
    loop {
        session_is_legal(session);
        if session.due().is_none() {
            return Ok(Ending::Lost);
        }
        let Ok(next) = next_answer(lines, source, session.game().m()) else {
            return Err(SessionFault::Read);
        };
        match next {
            Next::Bin(bin) => {
                session.answer(bin);
                session_is_legal(session);
                if tell(session, sink).is_err() {
                    return Err(SessionFault::Write);
                }
            }
            Next::End => return close(&ended_line(count(session)), Ending::Ended, sink),
            Next::Cut => return close(&bad_line(count(session) + 1), Ending::Bad, sink),
            Next::Other => return close(&bad_line(count(session) + 1), Ending::Bad, sink),
        }
    }
}

// How many answers there are.
fn count(session: &Session) -> u16
    ensures count { result ≡ length session.now.answers }
    ensures few { result ≤ 960 }
{
    session.answers().len() as u16
}

// Writes the game and the first item.
fn open<K: Sink>(session: &Session, sink: &mut K) -> Result<(), Failed>
    requires { session.now.answers ≡ [] }
    ensures count { K.faults sink.old ≤ K.faults sink.new }
    ensures ok { OnOk result (K.written sink.new
        ≡ append_known (K.written sink.old) (said_in session.now.pool session.now.root [])) }
    ensures failed { OnErr result (Rose (K.faults sink.old) (K.faults sink.new)) }
    ensures err { OnErr result (AppendsSome (K.written sink.old) (K.written sink.new)
        (said_in session.now.pool session.now.root [])) }
{
    match put_all(sink, session_line(&session.game()).as_slice()) {
        Ok(()) => tell(session, sink),
        Err(failed) => Err(failed),
    }
}

// Writes the item that is due, or the loads where none is.
fn tell<K: Sink>(session: &Session, sink: &mut K) -> Result<(), Failed>
    ensures count { K.faults sink.old ≤ K.faults sink.new }
    ensures ok { OnOk result (K.written sink.new ≡ append_known (K.written sink.old)
        (line_at session.now.pool.game session.now.pool.nodes (talk_of session.now))) }
    ensures failed { OnErr result (Rose (K.faults sink.old) (K.faults sink.new)) }
    ensures err { OnErr result (AppendsSome (K.written sink.old) (K.written sink.new)
        (line_at session.now.pool.game session.now.pool.nodes (talk_of session.now))) }
{
    put_all(sink, line_of(session).as_slice())
}

// The line of the item that is due, or of the loads where none is.
fn line_of(session: &Session) -> ShortLine
    ensures { result ≡ line_at session.now.pool.game session.now.pool.nodes (talk_of session.now) }
{
    session_is_legal(session);
    match session.due() {
        Some(size) => item_line(size),
        None => lost_line(session.loads()),
    }
}

// Writes the last line, and gives the ending.
fn close<K: Sink>(line: &ShortLine, ending: Ending, sink: &mut K) -> Result<Ending, SessionFault>
    ensures count { K.faults sink.old ≤ K.faults sink.new }
    ensures closed { MatchResult result
        (λ given. (given ≡ ending) × (K.written sink.new ≡ append_known (K.written sink.old) line.now))
        (λ fault. (fault ≡ SessionFault.Write) × AppendsSome (K.written sink.old) (K.written sink.new) line.now
        × Rose (K.faults sink.old) (K.faults sink.new)) }
{
    match put_all(sink, line.as_slice()) {
        Ok(()) => Ok(ending),
        Err(_) => Err(SessionFault::Write),
    }
}
