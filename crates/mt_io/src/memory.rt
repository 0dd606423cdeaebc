ghost use Rattle.std.specs.Prelude.{◌≡◌, ◌<◌, ◌≤◌, ◌++◌, [], length, take, drop, IfOk, OnErr};
ghost use Rattle.std.specs.Io.KnownBytes.{ReadConsumes, WriteAppends};
ghost use Rattle.mt_io.specs.Faults.{HasCause, CountsLate};
ghost use Rattle.mt_io.specs.Memory.{given_count, read_answer, after_read, write_answer, after_write};

use crate::counts::Counts;
use crate::traits::{Failed, Sink, Source};
use std::alloc::{AllocError, Global};
use std::marker::Model;

/// Gives the bytes that it was made of, at most `piece` at a call. The calls whose numbers, from 0, are in `fails`
/// fail.
#[derive(Drop)]
pub struct MemSource {
    bytes: Vec<u8>,
    at: usize,
    piece: usize,
    fails: Vec<u64>,
    calls: u64,
    counts: Counts,
}

impl Model for MemSource {
    ghost use Rattle.std.specs.Prelude.{◌<◌, ◌≤◌, length, drop};
    ghost use Rattle.mt_io.specs.Memory.{Giving};

    ghost Value = { Giving };

    ghost view = { λ s. record {
      left = drop s.at s.bytes.items;
      piece = s.piece;
      fails = s.fails.items;
      calls = s.calls;
      faults = s.counts.faults;
      late = s.counts.late;
    } };

    ghost invariant = { λ s. (0 < s.piece) × (s.at ≤ length s.bytes.items) };
}

impl MemSource {
    /// A source that was not called yet.
    pub fn new(bytes: Vec<u8>, piece: usize, fails: Vec<u64>) -> Self
        requires { 0 < piece }
        ensures { result ≡ record {
          left = bytes.items;
          piece = piece;
          fails = fails.items;
          calls = 0;
          faults = 0;
          late = 0;
        } }
    {
        MemSource {
            bytes,
            at: 0,
            piece,
            fails,
            calls: 0,
            counts: Counts::new(),
        }
    }

    // Moves the next bytes to the front of the buffer.
    fn give(&mut self, buf: &mut [u8]) -> usize
        ensures count { result ≡ given_count self.old (length buf.old) }
        ensures bytes { buf.new ≡ take result self.old.left ++ drop result buf.old }
        ensures rest { self.new ≡ record self.old { left = drop result self.old.left } }
    {
        let count = buf.len().min(self.piece).min(self.bytes.len() - self.at);
        buf[..count].copy_from_slice(&self.bytes[self.at..self.at + count]);
        self.at += count;
        count
    }
}

impl Source for MemSource {
    ghost use Rattle.std.specs.Prelude.{Some};

    ghost left = { λ s. Some s.left };

    ghost faults = { λ s. s.faults };

    ghost late = { λ s. s.late };

    fn read(&mut self, buf: &mut [u8]) -> Result<usize, Failed>
        // As of every source.
        ensures bound { IfOk result (λ n. n ≤ length buf.new) }
        ensures bytes { ReadConsumes (Some self.old.left) (Some self.new.left) result buf.new }
        ensures cause { HasCause self.old.faults self.new.faults result }
        ensures late { CountsLate self.old.faults self.old.late self.new.late }

        // Which of the two it answers, and what it leaves.
        ensures answer { result ≡ read_answer self.old (length buf.old) }
        ensures after { self.new ≡ after_read self.old (length buf.old) }
        ensures given { IfOk result (λ n. buf.new ≡ take n self.old.left ++ drop n buf.old) }
        ensures untouched { OnErr result (buf.new ≡ buf.old) }
    {
        self.counts.begin();
        let call = self.calls;
        self.calls = self.calls.saturating_add(1);
        if self.fails.contains(&call) {
            return Err(self.counts.fail());
        }
        Ok(self.give(buf))
    }
}

/// Takes bytes, at most `piece` at a call and `room` in all. The calls whose numbers, from 0, are in `fails` fail. A write of a
/// piece that is not empty fails too if there is no room left.
#[derive(Drop)]
pub struct MemSink {
    bytes: Vec<u8>,
    room: usize,
    piece: usize,
    fails: Vec<u64>,
    calls: u64,
    counts: Counts,
}

impl Model for MemSink {
    ghost use Rattle.std.specs.Prelude.{◌<◌, ◌≤◌, vec_len, vec_capacity};
    ghost use Rattle.mt_io.specs.Memory.{Taking};

    ghost Value = { Taking };

    ghost view = { λ s. record {
      written = s.bytes.items;
      room = s.room;
      piece = s.piece;
      fails = s.fails.items;
      calls = s.calls;
      faults = s.counts.faults;
      late = s.counts.late;
    } };

    ghost invariant = { λ s. (0 < s.piece) × (vec_len s.bytes ≤ s.room) × (s.room ≤ vec_capacity s.bytes) };
}

impl MemSink {
    /// A sink that was not called yet. It takes the memory for all its room here, and none later.
    ///
    /// # Errors
    ///
    /// There is not enough memory.
    pub fn new(
        alloc: Global,
        room: usize,
        piece: usize,
        fails: Vec<u64>,
    ) -> Result<Self, AllocError>
        requires { 0 < piece }
        ensures { IfOk result (λ s. s ≡ record {
          written = [];
          room = room;
          piece = piece;
          fails = fails.items;
          calls = 0;
          faults = 0;
          late = 0;
        }) }
    {
        Ok(MemSink {
            bytes: Vec::with_capacity(alloc, room)?,
            room,
            piece,
            fails,
            calls: 0,
            counts: Counts::new(),
        })
    }

    /// What was written.
    pub fn bytes(&self) -> &[u8]
        ensures { result.now ≡ self.now.written }
    {
        &self.bytes
    }
}

impl Sink for MemSink {
    ghost use Rattle.std.specs.Prelude.{Some};

    ghost written = { λ s. Some s.written };

    ghost faults = { λ s. s.faults };

    ghost late = { λ s. s.late };

    fn write(&mut self, piece: &[u8]) -> Result<usize, Failed>
        // As of every sink.
        ensures bound { IfOk result (λ n. n ≤ length piece.now) }
        ensures some { IfOk result (λ n. 0 < length piece.now → 0 < n) }
        ensures bytes { WriteAppends (Some self.old.written) (Some self.new.written) result piece.now }
        ensures cause { HasCause self.old.faults self.new.faults result }
        ensures late { CountsLate self.old.faults self.old.late self.new.late }

        // Which of the two it answers, and what it leaves.
        ensures answer { result ≡ write_answer self.old piece.now }
        ensures after { self.new ≡ after_write self.old piece.now }
    {
        self.counts.begin();
        let call = self.calls;
        self.calls = self.calls.saturating_add(1);
        let left = self.room - self.bytes.len();
        if self.fails.contains(&call) || left == 0 && !piece.is_empty() {
            return Err(self.counts.fail());
        }
        let count = piece.len().min(self.piece).min(left);
        match self.bytes.extend_from_slice(&piece[..count]) {
            Ok(()) => Ok(count),
            Err(_) => unreachable!(),
        }
    }
}
