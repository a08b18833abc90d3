//! The adapters over readers and writers, which tell no content.
use crate::check::check;
use modbus_link::{Failed, ReadSource, Sink, Source, WriteSink};
use std::io::{Error, ErrorKind, Read, Result as IoResult, Write};

#[test]
fn a_reader_is_read_to_its_end(rt: HostRuntime) {
    let mut source = ReadSource::new(b"abc".as_slice());
    let mut room = [0u8; 2];
    check(&rt, source.read(&mut room), Ok(2));
    check(&rt, room, *b"ab");
    check(&rt, source.read(&mut room), Ok(1));
    check(&rt, room, *b"cb");
    check(&rt, source.read(&mut room), Ok(0));
}

#[test]
fn a_writer_takes_what_fits_and_then_fails(rt: HostRuntime) {
    let mut buffer = [0u8; 3];
    {
        let mut sink = WriteSink::new(buffer.as_mut_slice());
        check(&rt, sink.write(b"ab"), Ok(2));
        check(&rt, sink.write(b"cd"), Ok(1));
        check(&rt, sink.write(b"d"), Err(Failed));
    }
    check(&rt, buffer, *b"abc");
}

/// What a reader or a writer does at one call: it takes this byte from its input, or takes this many bytes, or it fails so.
type Turn = Result<u8, ErrorKind>;

const FAILS: Turn = Err(ErrorKind::TimedOut);

/// A signal interrupts it.
const STOPS: Turn = Err(ErrorKind::Interrupted);

/// Takes the first turn off the list.
fn take_turn(turns: &mut &[Turn]) -> Option<Turn> {
    let (first, rest) = turns.split_first()?;
    *turns = rest;
    Some(*first)
}

/// A reader with these turns, and then the end of its input.
#[derive(Drop)]
struct Reader<'a> {
    turns: &'a [Turn],
}

impl Read for Reader<'_> {
    fn read(&mut self, buf: &mut [u8]) -> IoResult<usize> {
        match take_turn(&mut self.turns) {
            None => Ok(0),
            Some(Err(kind)) => Err(Error::from(kind)),
            Some(Ok(byte)) => {
                let Some(first) = buf.first_mut() else {
                    return Ok(0);
                };
                *first = byte;
                Ok(1)
            }
        }
    }
}

#[test]
fn a_read_that_fails_is_no_end_of_input(rt: HostRuntime) {
    let turns = [STOPS, Ok(7), FAILS, STOPS, STOPS, Ok(8), FAILS, FAILS];
    let mut source = ReadSource::new(Reader { turns: &turns });
    let mut room = [0u8; 2];
    for (result, first) in [
        (Ok(1), 7),
        (Err(Failed), 7),
        (Ok(1), 8),
        (Err(Failed), 8),
        (Err(Failed), 8),
        (Ok(0), 8),
    ] {
        let found = source.read(&mut room);
        check(&rt, (found, room[0]), (result, first));
    }
}

/// A writer with these turns at its writes and flushes, and then one that takes all; it counts its flushes.
#[derive(Drop)]
struct Writer<'a> {
    writes: &'a [Turn],
    flushes: &'a [Turn],
    flushed: u32,
}

impl Write for Writer<'_> {
    fn write(&mut self, buf: &[u8]) -> IoResult<usize> {
        match take_turn(&mut self.writes) {
            None => Ok(buf.len()),
            Some(Ok(count)) => Ok(buf.len().min(usize::from(count))),
            Some(Err(kind)) => Err(Error::from(kind)),
        }
    }

    fn flush(&mut self) -> IoResult<()> {
        self.flushed = self.flushed.saturating_add(1);
        match take_turn(&mut self.flushes) {
            None | Some(Ok(_)) => Ok(()),
            Some(Err(kind)) => Err(Error::from(kind)),
        }
    }
}

#[test]
fn each_write_is_flushed_and_each_failure_is_one(rt: HostRuntime) {
    let cases: [(&[Turn], &[Turn], Result<usize, Failed>, u32); 8] = [
        (&[], &[], Ok(3), 1),
        (&[Ok(2)], &[], Ok(2), 1),
        (&[Ok(0)], &[], Err(Failed), 1),
        (&[FAILS], &[], Err(Failed), 1),
        (&[], &[FAILS], Err(Failed), 1),
        (&[FAILS], &[FAILS], Err(Failed), 1),
        (&[STOPS, STOPS, Ok(1)], &[], Ok(1), 1),
        (&[Ok(2)], &[STOPS, STOPS], Ok(2), 3),
    ];
    for (writes, flushes, result, flushed) in cases {
        let mut writer = Writer {
            writes,
            flushes,
            flushed: 0,
        };
        let found = WriteSink::new(&mut writer).write(b"abc");
        check(&rt, (found, writer.flushed), (result, flushed));
    }
}
