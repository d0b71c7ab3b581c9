// Sinks and sources that fail at chosen calls.
use av1_bits::{
    Failed, MemSink, MemSource, ReadError, Sink, Source, StdSink, StdSource, read_at_most, send_all,
};
use std::io;
use std::io::{Read, Write};
use std::test::Fail;

#[test]
fn a_sink_in_memory_fails_at_its_calls(rt: HostRuntime) -> Result<(), Fail> {
    let alloc = rt.alloc();
    let mut sink = MemSink::new(alloc, 8, true, vec![in alloc; 2]?)?;
    assert_eq!(rt; send_all(&mut sink, b"12"), Err(Failed));
    assert_eq!(rt; sink.bytes(), b"1".as_slice());
    assert_eq!(rt; send_all(&mut sink, b"345"), Ok(()));
    assert_eq!(rt; sink.bytes(), b"1345".as_slice());
    let mut full = MemSink::new(alloc, 3, false, Vec::new(alloc))?;
    assert_eq!(rt; send_all(&mut full, b"abcd"), Err(Failed));
    assert_eq!(rt; full.bytes(), b"abc".as_slice());
    assert_eq!(rt; full.send(b""), Ok(0));
    Ok(())
}

#[test]
fn a_source_in_memory_is_read_to_its_end(rt: HostRuntime) -> Result<(), Fail> {
    let alloc = rt.alloc();
    let text = b"abc".to_vec(alloc)?;
    let mut source = MemSource::new(text.clone()?, true, Vec::new(alloc));
    assert_eq!(rt;
        read_at_most(alloc, &mut source, 3)?.as_slice(),
        b"abc".as_slice()
    );
    let mut long = MemSource::new(text.clone()?, false, Vec::new(alloc));
    assert!(rt; matches!(read_at_most(alloc, &mut long, 2), Err(ReadError::TooLarge)));
    let mut faulty = MemSource::new(text, true, vec![in alloc; 3]?);
    assert!(rt; matches!(read_at_most(alloc, &mut faulty, 3), Err(ReadError::Fault)));
    Ok(())
}

// Takes two bytes of a piece, then nothing, fails, and then takes what it can't flush.
struct Flaky(u8);

impl Write for Flaky {
    fn write(&mut self, buf: &[u8]) -> io::Result<usize> {
        self.0 = self.0.saturating_add(1);
        match self.0 {
            1 => Ok(buf.len().min(2)),
            2 => Ok(0),
            3 => Err(io::Error::from(io::ErrorKind::BrokenPipe)),
            _ => Ok(buf.len()),
        }
    }

    fn flush(&mut self) -> io::Result<()> {
        if self.0 > 3 {
            return Err(io::Error::from(io::ErrorKind::BrokenPipe));
        }
        Ok(())
    }
}

impl Read for Flaky {
    fn read(&mut self, buf: &mut [u8]) -> io::Result<usize> {
        self.0 = self.0.saturating_add(1);
        if self.0 == 1 {
            return Ok(buf.len().min(2));
        }
        Err(io::Error::from(io::ErrorKind::BrokenPipe))
    }
}

impl Drop for Flaky {
    fn drop(self) {
        let Flaky(_) = self;
    }
}

#[test]
fn streams_fail_where_they_fail(rt: HostRuntime) -> Result<(), Fail> {
    let mut sink = StdSink::new(Flaky(0));
    assert_eq!(rt; sink.send(b"abc"), Ok(2));
    for _ in 0..3 {
        assert_eq!(rt; sink.send(b"c"), Err(Failed));
    }
    let mut source = StdSource::new(Flaky(0));
    assert_eq!(rt; source.read(&mut [0; 4]), Ok(2));
    assert!(rt;
        matches!(
            read_at_most(rt.alloc(), &mut source, 9),
            Err(ReadError::Fault)
        )
    );
    Ok(())
}
