ghost use Rattle.std.specs.Prelude.{◌≡◌, ◌<◌, ◌≤◌, length, IfOk};
ghost use Rattle.std.specs.Io.KnownBytes.{ReadConsumes, WriteAppends};
ghost use Rattle.mt_io.specs.Faults.{HasCause, CountsLate};
ghost use Rattle.mt_io.specs.Standard.{CountsCall};

use crate::counts::Counts;
use crate::traits::{Failed, Sink, Source};
use std::io::{Read, Write};
use std::marker::Model;

/// Reads from a reader of std, without a buffer. As a [`Source`] it does not reveal its bytes to clauses.
#[derive(Drop)]
pub struct StdSource<T: Read> {
    reader: T,
    counts: Counts,
}

impl<T: Read> Model for StdSource<T> {
    ghost use Rattle.mt_io.specs.Standard.{Adapted};

    ghost Value = { Adapted };

    ghost view = { λ s. record {
      known = T.remaining s.reader;
      faults = s.counts.faults;
      late = s.counts.late;
    } };
}

impl<T: Read> StdSource<T> {
    /// A source that was not called yet.
    pub fn new(reader: T) -> Self
        ensures { result ≡ record { known = T.remaining reader; faults = 0; late = 0 } }
    {
        StdSource {
            reader,
            counts: Counts::new(),
        }
    }
}

impl<T: Read> Source for StdSource<T> {
    ghost use Rattle.std.specs.Prelude.{None};

    ghost left = { λ _. None };

    ghost faults = { λ s. s.faults };

    ghost late = { λ s. s.late };

    fn read(&mut self, buf: &mut [u8]) -> Result<usize, Failed>
        // As of every source.
        ensures bound { IfOk result (λ n. n ≤ length buf.new) }
        ensures bytes { ReadConsumes None None result buf.new }
        ensures cause { HasCause self.old.faults self.new.faults result }
        ensures late { CountsLate self.old.faults self.old.late self.new.late }

        // What it takes from the reader, and the exact counts.
        ensures reader { ReadConsumes self.old.known self.new.known result buf.new }
        ensures counts { CountsCall self.old self.new result }
    {
        self.counts.begin();
        match self.reader.read(buf) {
            Ok(count) => Ok(count),
            Err(_) => Err(self.counts.fail()),
        }
    }
}

/// Writes to a writer of std, without a buffer. As a [`Sink`] it does not reveal its bytes to clauses. A write that took
/// nothing of a piece that is not empty is a fault too.
#[derive(Drop)]
pub struct StdSink<T: Write> {
    writer: T,
    counts: Counts,
}

impl<T: Write> Model for StdSink<T> {
    ghost use Rattle.mt_io.specs.Standard.{Adapted};

    ghost Value = { Adapted };

    ghost view = { λ s. record {
      known = T.contents s.writer;
      faults = s.counts.faults;
      late = s.counts.late;
    } };
}

impl<T: Write> StdSink<T> {
    /// A sink that was not called yet.
    pub fn new(writer: T) -> Self
        ensures { result ≡ record { known = T.contents writer; faults = 0; late = 0 } }
    {
        StdSink {
            writer,
            counts: Counts::new(),
        }
    }
}

impl<T: Write> Sink for StdSink<T> {
    ghost use Rattle.std.specs.Prelude.{None};

    ghost written = { λ _. None };

    ghost faults = { λ s. s.faults };

    ghost late = { λ s. s.late };

    fn write(&mut self, piece: &[u8]) -> Result<usize, Failed>
        // As of every sink.
        ensures bound { IfOk result (λ n. n ≤ length piece.now) }
        ensures some { IfOk result (λ n. 0 < length piece.now → 0 < n) }
        ensures bytes { WriteAppends None None result piece.now }
        ensures cause { HasCause self.old.faults self.new.faults result }
        ensures late { CountsLate self.old.faults self.old.late self.new.late }

        // What it gives to the writer, and the exact counts.
        ensures writer { WriteAppends self.old.known self.new.known result piece.now }
        ensures counts { CountsCall self.old self.new result }
    {
        self.counts.begin();
        match self.writer.write(piece) {
            Ok(count) if count > 0 || piece.is_empty() => Ok(count),
            _ => Err(self.counts.fail()),
        }
    }
}
