//! Words that are 0 until they are written.

ghost use Rattle.std.specs.Prelude.{◌≡◌, ◌+◌, ◌<◌, ◌≤◌, ◌++◌, ℕ, IfOk, length, take, replicate, slice_index, slice_set};
ghost use Rattle.std.specs.Vec.{vec_capacity};
ghost use Rattle.mt_rows.specs.Words.{Listed, listed, IsListed, with_zeros, ArePut};

use mt_base::NoMemory;
use std::alloc::Global;
use std::marker::Model;

/// So many words. They are 0 at first, and take time and touch memory only up to the last one that was written.
#[derive(Drop)]
pub(crate) struct Words {
    written: Vec<u64>,
    len: usize,
}

impl Model for Words {
    ghost Value = { Listed };

    ghost view = { listed };

    ghost invariant = { IsListed };
}

/// Writes zeros after the words, up to this length.
#[tactic(auto, using(crate::proofs::ZeroWords::zeros_push, crate::proofs::ZeroWords::zeros_enough))]
fn write_zeros(words: &mut Vec<u64>, len: usize)
    requires { len ≤ vec_capacity words.old }
    ensures items { words.new.items ≡ with_zeros len words.old.items }
    ensures capacity { vec_capacity words.old ≤ vec_capacity words.new }
{
    for _ in words.len()..len {
        words.push_reserved(0);
    }
}

/// Appends words for which there is room.
fn append(list: &mut Vec<u64>, words: &[u64])
    requires { length list.old.items + length words.now ≤ vec_capacity list.old }
    ensures items { list.new.items ≡ list.old.items ++ words.now }
    ensures capacity { vec_capacity list.old ≤ vec_capacity list.new }
{
    let Ok(()) = list.extend_from_slice(words) else {
        unreachable!()
    };
}

/// Writes words over others, from a place on.
fn overwrite(list: &mut [u64], at: usize, words: &[u64])
    requires { at + length words.now ≤ length list.old }
    ensures { ArePut at words.now list.old list.new }
{
    list[at..at + words.len()].copy_from_slice(words);
}

/// Writes 0 over the first `count` words.
#[tactic(auto, using(crate::proofs::ZeroWords::one_more_zero, crate::proofs::ZeroWords::others_stay))]
pub(crate) fn clear_first(words: &mut [u64], count: usize)
    requires { count ≤ length words.old }
    ensures size { length words.new ≡ length words.old }
    ensures first { (at : ℕ) → at < count → slice_index words.new at ≡ 0 }
    ensures rest { (at : ℕ) → count ≤ at → slice_index words.new at ≡ slice_index words.old at }
{
    for at in 0..count {
        words[at] = 0;
    }
}

impl Words {
    /// So many zeros. Only lack of memory fails.
    #[tactic(auto, using(crate::proofs::ZeroWords::all_zeros))]
    pub(crate) fn new(alloc: Global, len: usize) -> Result<Words, NoMemory>
        ensures { IfOk result (λ w. w.items ≡ replicate len 0) }
    {
        Ok(Words {
            written: Vec::with_capacity(alloc, len)?,
            len,
        })
    }

    /// The word at a place.
    #[tactic(auto, using(crate::proofs::ZeroWords::zeros_behind))]
    pub(crate) fn get(&self, at: usize) -> u64
        ensures { result ≡ slice_index self.now.items at }
    {
        self.written.get(at).copied().unwrap_or(0)
    }

    /// The word at a place, for the few nodes that were not written to their end.
    #[inline(never)]
    #[cold]
    fn get_apart(&self, at: usize) -> u64
        ensures { result ≡ slice_index self.now.items at }
    {
        self.get(at)
    }

    /// The word in a column of a node of `cols` words, which begins at a place. One look at where the node ends serves for all
    /// of its columns, if several are loaded.
    #[inline(always)]
    #[tactic(auto, using(crate::proofs::ZeroWords::zeros_behind, crate::proofs::ZeroWords::zeros_long))]
    pub(crate) fn get_in(&self, begin: usize, cols: usize, col: usize) -> u64
        requires column { col < cols }
        requires row { begin + cols ≤ length self.now.items }
        ensures { result ≡ slice_index self.now.items (begin + col) }
    {
        let written = self.written.as_slice();
        if begin + cols <= written.len() {
            return written[begin + col];
        }
        self.get_apart(begin + col)
    }

    /// Writes a word at a place.
    #[tactic(auto, using(crate::proofs::ZeroWords::set_zeros))]
    pub(crate) fn set(&mut self, at: usize, word: u64)
        requires { at < length self.old.items }
        ensures { self.new.items ≡ slice_set self.old.items at word }
    {
        write_zeros(&mut self.written, at + 1);
        self.written[at] = word;
    }

    /// Writes these words from a place on.
    #[tactic(auto, using(crate::proofs::ZeroWords::put_zeros))]
    pub(crate) fn put(&mut self, at: usize, words: &[u64])
        requires { at + length words.now ≤ length self.old.items }
        ensures { ArePut at words.now self.old.items self.new.items }
    {
        if self.written.len() <= at {
            write_zeros(&mut self.written, at);
            append(&mut self.written, words);
        } else {
            write_zeros(&mut self.written, at + words.len());
            overwrite(self.written.as_mut_slice(), at, words);
        }
    }

    /// All words, each written down.
    pub(crate) fn into_vec(self) -> Vec<u64>
        ensures { result.items ≡ self.items }
    {
        let Words { mut written, len } = self;
        write_zeros(&mut written, len);
        written
    }

    /// Writes these words over the last ones.
    pub(crate) fn set_last(&mut self, from: usize, words: &[u64])
        requires { from + length words.now ≡ length self.old.items }
        ensures { self.new.items ≡ take from self.old.items ++ words.now }
    {
        // The fields tell that all words can be counted.
        let _ = &self.len;
        for i in 0..words.len() {
            self.set(from + i, words[i]);
        }
    }
}
