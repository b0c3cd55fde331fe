//! Worked cases, and what no clause says: that memory is found, and how large a read is asked for.

use crate::{
    CalmSink, CalmSource, Failed, Line, LineReader, MemSink, MemSource, Sink, Source, put_all,
};
use std::alloc::{AllocError, Global};
use std::test::Fail;

// An endless source of empty lines that tells nothing. It notes the size of the smallest buffer that it
// was asked with.
#[derive(Drop)]
struct Noting {
    smallest: usize,
}

impl Source for Noting {
    ghost faults = { λ _. 0 };

    fn read(&mut self, buf: &mut [u8]) -> Result<usize, Failed> {
        self.smallest = self.smallest.min(buf.len());
        buf.fill(b'\n');
        Ok(buf.len())
    }
}

fn next(lines: &mut LineReader, source: &mut MemSource) -> Result<Line, Failed> {
    lines.next_line(source)
}

// Whether the next call answers this and gives this text. A read that fails is tried once more, and counted.
fn gives(
    lines: &mut LineReader,
    source: &mut MemSource,
    faults: &mut u8,
    answer: Line,
    text: &[u8],
) -> bool {
    let mut given = next(lines, source);
    if given.is_err() {
        *faults = faults.saturating_add(1);
        given = next(lines, source);
    }
    given == Ok(answer) && lines.text() == text
}

#[test]
fn lines_come_whole_from_single_bytes(rt: HostRuntime) -> Result<(), Fail> {
    let mut source = MemSource::new(rt.alloc(), b"ab\nc", 1, &[])?;
    let mut lines = LineReader::new(rt.alloc())?;
    let mut faults = 0;
    assert!(rt; lines.text().is_empty());
    assert!(rt; gives(&mut lines, &mut source, &mut faults, Line::Text, b"ab"));
    assert!(rt; gives(&mut lines, &mut source, &mut faults, Line::Unfinished, b""));
    assert!(rt; gives(&mut lines, &mut source, &mut faults, Line::Unfinished, b""));
    assert!(rt; faults == 0);
    Ok(())
}

// How many reads failed until both lines and the end came; None where anything else came.
fn faults_of_two_lines(alloc: Global, failing: u64) -> Result<Option<u8>, AllocError> {
    let mut source = MemSource::new(alloc, b"ab\ncd\n", 2, &[failing])?;
    let mut lines = LineReader::new(alloc)?;
    let mut faults = 0;
    let come = gives(&mut lines, &mut source, &mut faults, Line::Text, b"ab")
        && gives(&mut lines, &mut source, &mut faults, Line::Text, b"cd")
        && gives(&mut lines, &mut source, &mut faults, Line::End, b"");
    Ok(come.then_some(faults))
}

#[test]
fn a_fault_at_any_read_loses_nothing(rt: HostRuntime) {
    for failing in 1..=4 {
        assert!(rt; faults_of_two_lines(rt.alloc(), failing) == Ok(Some(1)));
    }
    assert!(rt; faults_of_two_lines(rt.alloc(), 5) == Ok(Some(0)));
}

fn next_calm(lines: &mut LineReader, source: &mut CalmSource<'_>) -> Result<Line, Failed> {
    lines.next_line(source)
}

// Whether an input begins so.
fn begins(alloc: Global, input: &[u8], first: Line, second: Line) -> Result<bool, AllocError> {
    let mut source = CalmSource::new(input);
    let mut lines = LineReader::new(alloc)?;
    let is_first = next_calm(&mut lines, &mut source) == Ok(first);
    Ok(is_first && next_calm(&mut lines, &mut source) == Ok(second))
}

#[test]
fn short_inputs_end_as_they_should(rt: HostRuntime) {
    let cases: [(&[u8], Line, Line); 6] = [
        (b"", Line::End, Line::End),
        (b"\n", Line::Text, Line::End),
        (b"a\n", Line::Text, Line::End),
        (b"\n\n", Line::Text, Line::Text),
        (b"\na", Line::Text, Line::Unfinished),
        (b"a", Line::Unfinished, Line::Unfinished),
    ];
    for (input, first, second) in cases {
        assert!(rt; begins(rt.alloc(), input, first, second) == Ok(true));
    }
}

// What a line of that length comes to, and how much text is given.
fn of_length(alloc: Global, length: usize) -> Result<(Result<Line, Failed>, usize), AllocError> {
    let mut input = vec![in alloc; b'x'; length]?;
    input.push(b'\n')?;
    let mut lines = LineReader::new(alloc)?;
    let answer = next_calm(&mut lines, &mut CalmSource::new(input.as_slice()));
    Ok((answer, lines.text().len()))
}

#[test]
fn the_longest_line_is_given_and_a_longer_one_is_not(rt: HostRuntime) {
    assert!(rt; of_length(rt.alloc(), 16_384) == Ok((Ok(Line::Text), 16_384)));
    assert!(rt; of_length(rt.alloc(), 16_385) == Ok((Ok(Line::TooLong), 0)));
}

#[test]
fn a_read_asks_for_many_bytes(rt: HostRuntime) -> Result<(), Fail> {
    let mut source = Noting {
        smallest: usize::MAX,
    };
    let mut lines = LineReader::new(rt.alloc())?;
    for _ in 0..200_000 {
        assert!(rt; lines.next_line(&mut source) == Ok(Line::Text));
    }
    assert!(rt; (4_096..usize::MAX).contains(&source.smallest));
    Ok(())
}

// Whether all of a piece is written, or not, and this is held then.
fn holds(sink: &mut MemSink, piece: &[u8], is_whole: bool, held: &[u8]) -> bool {
    put_all(sink, piece).is_ok() == is_whole && sink.bytes() == held
}

#[test]
fn a_sink_holds_what_it_has_room_for(rt: HostRuntime) -> Result<(), Fail> {
    let mut full = MemSink::new(rt.alloc(), 3, 2, &[])?;
    assert!(rt; holds(&mut full, b"abcd", false, b"abc"));
    assert!(rt; holds(&mut full, b"", true, b"abc"));
    let mut sink = MemSink::new(rt.alloc(), 9, 2, &[2])?;
    assert!(rt; holds(&mut sink, b"abcd", false, b"ab"));
    assert!(rt; holds(&mut sink, b"cde", true, b"abcde"));
    Ok(())
}

#[test]
fn calm_ends_take_and_give_everything(rt: HostRuntime) {
    let mut buffer = [0; 2];
    let mut source = CalmSource::new(b"abc");
    assert!(rt; source.read(&mut buffer) == Ok(2) && buffer.as_slice() == b"ab".as_slice());
    let mut sink = CalmSink::new();
    assert!(rt; sink.write(b"abc") == Ok(3) && put_all(&mut sink, b"abc").is_ok());
}
