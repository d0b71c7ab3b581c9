// Sinks and sources over the streams of the operating system, of which no contract says what they hold.
ghost use Rattle.std.specs.Prelude.{◌≡◌, ◌<◌, ◌≤◌, length, take, None, IfOk, OnOk, OnErr};
ghost use Rattle.std.specs.Io.KnownBytes.{Appends, ReadConsumes};
ghost use Rattle.av1_bits.specs.Outside.{Rose, next_count};
ghost use Rattle.av1_bits.specs.Standard.{sink_stream, sink_faults, source_stream, source_faults};

use crate::{Failed, Sink, Source};
use std::io::{Read, Write};

/// Writes and flushes each piece. It doesn't tell what it holds.
#[derive(Drop)]
pub struct StdSink<W: Write + Drop> {
    stream: W,
    faults: u64,
}

impl<W: Write + Drop> StdSink<W> {
    /// A sink that has not failed yet.
    pub fn new(stream: W) -> Self
        ensures stream { sink_stream result ≡ stream }
        ensures faults { sink_faults result ≡ 0 }
    {
        StdSink { stream, faults: 0 }
    }
}

impl<W: Write + Drop> Sink for StdSink<W> {
    ghost sent = { λ _. None };

    ghost faults = { λ s. sink_faults s };

    fn send(&mut self, piece: &[u8]) -> Result<usize, Failed>
        ensures taken { IfOk result (λ n. n ≤ length piece.now) }
        ensures some { IfOk result (λ n. 0 < length piece.now → 0 < n) }
        ensures count { OnOk result (sink_faults self.new ≡ sink_faults self.old) }
        ensures fault { OnErr result (Rose (sink_faults self.old) (sink_faults self.new)) }
        ensures raised { OnErr result (sink_faults self.new ≡ next_count (sink_faults self.old)) }
        ensures empty { length piece.now ≡ 0 → result ≡ Ok 0 }

        // What it took went to the stream.
        ensures stream { IfOk result (λ n. Appends (W.contents (sink_stream self.old)) (W.contents (sink_stream self.new)) (take n piece.now)) }
    {
        if piece.is_empty() {
            return Ok(0);
        }
        match self.stream.write(piece) {
            Ok(n) if n > 0 && self.stream.flush().is_ok() => Ok(n),
            _ => {
                self.faults = self.faults.saturating_add(1);
                Err(Failed)
            }
        }
    }
}

/// Reads what the stream gives. It doesn't tell what is left.
#[derive(Drop)]
pub struct StdSource<R: Read + Drop> {
    stream: R,
    faults: u64,
}

impl<R: Read + Drop> StdSource<R> {
    /// A source that has not failed yet.
    pub fn new(stream: R) -> Self
        ensures stream { source_stream result ≡ stream }
        ensures faults { source_faults result ≡ 0 }
    {
        StdSource { stream, faults: 0 }
    }
}

impl<R: Read + Drop> Source for StdSource<R> {
    ghost left = { λ _. None };

    ghost faults = { λ s. source_faults s };

    fn read(&mut self, buf: &mut [u8]) -> Result<usize, Failed>
        ensures fits { IfOk result (λ n. n ≤ length buf.old) }
        ensures count { OnOk result (source_faults self.new ≡ source_faults self.old) }
        ensures fault { OnErr result (Rose (source_faults self.old) (source_faults self.new)) }
        ensures raised { OnErr result (source_faults self.new ≡ next_count (source_faults self.old)) }

        // What it gives came from the stream.
        ensures stream { ReadConsumes (R.remaining (source_stream self.old)) (R.remaining (source_stream self.new)) result buf.new }
    {
        match self.stream.read(buf) {
            Ok(n) => Ok(n),
            Err(_) => {
                self.faults = self.faults.saturating_add(1);
                Err(Failed)
            }
        }
    }
}
