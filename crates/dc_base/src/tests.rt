// What no clause says: that the calls succeed with ample memory, and what the adapters do over real
// readers and writers.
use crate::{
    MemSink, MemSource, ReadAllError, ReadSource, WriteFault, WriteSink, read_all, write_whole,
};
use std::io::{self, ErrorKind, Read, Write};
use std::test::Fail;

/// What a broken end does at its second call.
#[derive(Clone, Copy, Debug)]
enum Break {
    /// The read or the write fails.
    Call,
    /// The write takes nothing.
    Nothing,
    /// The flush after the write fails.
    Flush,
}

/// A reader and a writer of three bytes a call, which breaks at its second.
#[derive(Drop)]
struct Broken<'a> {
    calls: u32,
    at_second: Break,
    written: &'a mut Vec<u8>,
}

impl Broken<'_> {
    /// Counts a call, and says how it breaks, if it does.
    fn next_break(&mut self) -> Option<Break> {
        self.calls = self.calls.saturating_add(1);
        self.current_break()
    }

    fn current_break(&self) -> Option<Break> {
        (self.calls == 2).then_some(self.at_second)
    }
}

impl Read for Broken<'_> {
    fn read(&mut self, buf: &mut [u8]) -> io::Result<usize> {
        match self.next_break() {
            Some(_) => Err(ErrorKind::ConnectionReset.into()),
            None => Read::read(&mut &b"abc"[..], buf),
        }
    }
}

impl Write for Broken<'_> {
    fn write(&mut self, buf: &[u8]) -> io::Result<usize> {
        match self.next_break() {
            Some(Break::Call) => Err(ErrorKind::BrokenPipe.into()),
            Some(Break::Nothing) => Ok(0),
            Some(Break::Flush) | None => self.written.write(&buf[..buf.len().min(3)]),
        }
    }

    fn flush(&mut self) -> io::Result<()> {
        match self.current_break() {
            Some(Break::Flush) => Err(ErrorKind::BrokenPipe.into()),
            _ => Ok(()),
        }
    }
}

#[test]
fn adapters_run_over_readers_and_writers(rt: HostRuntime) -> Result<(), Fail> {
    let alloc = rt.alloc();
    let text = b"a line\nand another";
    let mut source = ReadSource::new(&text[..]);
    assert_eq!(rt;
        read_all(alloc, &mut source, text.len())?.as_slice(),
        &text[..]
    );

    let mut written = Vec::new(alloc);
    assert_eq!(rt;
        write_whole(&mut WriteSink::new(&mut written), text),
        Ok(())
    );
    assert_eq!(rt; written.as_slice(), &text[..]);

    let mut unused = Vec::new(alloc);
    let mut source = ReadSource::new(Broken {
        calls: 0,
        at_second: Break::Call,
        written: &mut unused,
    });
    assert_eq!(rt;
        read_all(alloc, &mut source, 9).err(),
        Some(ReadAllError::ReadFault)
    );

    for (at_second, want) in [
        (Break::Call, &b"abc"[..]),
        (Break::Nothing, &b"abc"[..]),
        (Break::Flush, &b"abcdef"[..]),
    ] {
        let mut written = Vec::new(alloc);
        let mut sink = WriteSink::new(Broken {
            calls: 0,
            at_second,
            written: &mut written,
        });
        assert_eq!(rt;
            write_whole(&mut sink, b"abcdefghi"),
            Err(WriteFault),
            "{at_second:?}"
        );
        drop(sink);
        assert_eq!(rt; written.as_slice(), want, "{at_second:?}");
    }
    Ok(())
}

#[test]
fn read_all_reads_in_any_chunks(rt: HostRuntime) -> Result<(), Fail> {
    let alloc = rt.alloc();
    for (chunk, failing, limit, want, faults) in [
        (1, 9, 7, Ok(7), 0),
        (7, 9, 7, Ok(7), 0),
        (1, 9, 6, Err(ReadAllError::TooLong), 0),
        (7, 9, 6, Err(ReadAllError::TooLong), 0),
        (1, 8, 7, Err(ReadAllError::ReadFault), 1),
        (7, 2, 7, Err(ReadAllError::ReadFault), 1),
    ] {
        let bytes = b"seven !".to_vec(alloc)?;
        let fails = [failing].to_vec(alloc)?;
        let mut source = MemSource::new(bytes, chunk.max(1), fails);
        let answer = read_all(alloc, &mut source, limit.min(1000));
        assert_eq!(rt; answer.map(|bytes| bytes.len()), want, "chunks of {chunk}");
        assert_eq!(rt; source.faults(), faults, "chunks of {chunk}");
    }
    Ok(())
}

#[test]
fn mem_sink_takes_what_it_has_room_for(rt: HostRuntime) -> Result<(), Fail> {
    let alloc = rt.alloc();
    let mut sink = MemSink::new(alloc, 5, 2, Vec::new(alloc))?;
    assert_eq!(rt; write_whole(&mut sink, b"abcde"), Ok(()));
    assert_eq!(rt; write_whole(&mut sink, b"f"), Err(WriteFault));
    assert_eq!(rt; sink.bytes(), &b"abcde"[..]);
    assert_eq!(rt; sink.faults(), 1);
    Ok(())
}
