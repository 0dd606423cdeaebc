//! The text of a line, put together from its end.

use itoa::write_digits;
use std::marker::Model;

/// More bytes than a line has that is put together so.
pub const ROOM: usize = 192;

/// The end of a line, in place. There are many lines to be printed, so nothing is copied but the whole line.
#[derive(Drop)]
pub struct LineEnd {
    bytes: [u8; ROOM],
    at: usize,
}

impl Model for LineEnd {
    ghost use Rattle.std.specs.Prelude.{ℕ, List, ◌≤◌, drop};

    ghost Value = { List ℕ };

    ghost view = { λ l. drop l.at l.bytes };

    ghost invariant = { λ l. l.at ≤ 192 };
}

impl LineEnd {
    ghost use Rattle.std.specs.Prelude.{◌≡◌, ◌≤◌, ◌+◌, ◌∷◌, ◌++◌, [], length};
    ghost use Rattle.std.specs.Fmt.{decimal};

    /// Nothing.
    pub fn new() -> Self
        ensures { result ≡ [] }
    {
        LineEnd {
            bytes: [0; ROOM],
            at: ROOM,
        }
    }

    /// Starts again, with the LF of a line.
    #[inline]
    pub fn begin(&mut self)
        ensures { self.new ≡ 10 ∷ [] }
    {
        self.at = ROOM;
        self.text(b"\n");
    }

    /// Puts a number in front.
    #[inline]
    #[tactic(auto, using(crate::proofs::Tails::decimal_short, crate::proofs::Tails::number_long))]
    pub fn number(&mut self, number: u64)
        requires { length self.old + 20 ≤ ROOM }
        ensures text { self.new ≡ decimal number ++ self.old }
        ensures long { length self.new ≤ 20 + length self.old }
    {
        self.at = write_digits(number, &mut self.bytes, self.at);
    }

    /// Puts a text in front.
    #[inline]
    pub fn text(&mut self, text: &[u8])
        requires { length self.old + length text.now ≤ ROOM }
        ensures text { self.new ≡ text.now ++ self.old }
        ensures long { length self.new ≡ length text.now + length self.old }
    {
        let start = self.at - text.len();
        self.bytes[start..self.at].copy_from_slice(text);
        self.at = start;
    }

    /// The line's end so far.
    #[inline]
    pub fn as_bytes(&self) -> &[u8]
        ensures { result.now ≡ self.now }
    {
        &self.bytes[self.at..]
    }
}
