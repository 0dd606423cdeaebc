ghost use Rattle.std.specs.Prelude.{◌≡◌, ◌<◌, ◌≤◌, ◌+◌, [], ◌∷◌, ◌++◌, All, length, vec_len, IfOk};
ghost use Rattle.mt_base.specs.Width.{most_rows};
ghost use Rattle.std.specs.Vec.{vec_capacity};
ghost use Rattle.mt_free.specs.Book.{rows_down, new_book, IsBook, IsOut, live_count, after_retire, after_reclaim, reclaimable};

use crate::held::{HeldRow, pop_due, push_held};
use circular_buffer::HeapCircularBuffer;
use mt_base::{FIRST_ROW, NoMemory};
use std::alloc::Global;
use std::marker::Model;

/// The book of a tree's nodes: which are free, which are out, and which were replaced and wait.
///
/// Its memory is taken once, for every node of the table.
#[derive(Drop)]
pub struct RowBook {
    rows: u64,
    free: Vec<u32>,
    held: HeapCircularBuffer<HeldRow>,
}

impl Model for RowBook {
    ghost use Rattle.mt_free.specs.Book.{Book};

    ghost Value = { Book };

    ghost use Rattle.mt_free.specs.RowBook.{book_of, IsRowBook};

    ghost view = { book_of };

    ghost invariant = { IsRowBook };
}

/// Puts a node on top of the free ones, for which there is room.
fn push_free(free: &mut Vec<u32>, row: u32)
    requires { vec_len free.old < vec_capacity free.old }
    ensures items { free.new.items ≡ free.old.items ++ row ∷ [] }
    ensures len { vec_len free.new ≡ vec_len free.old + 1 }
    ensures capacity { vec_capacity free.old ≤ vec_capacity free.new }
{
    match free.push(row) {
        Ok(()) => {}
        Err(_) => unreachable!(),
    }
}

/// Every node, the first on top.
fn all_rows(alloc: Global, rows: u64) -> Result<Vec<u32>, NoMemory>
    requires { rows ≤ most_rows }
    ensures items { IfOk result (λ v. v.items ≡ rows_down rows) }
    ensures capacity { IfOk result (λ v. rows ≤ vec_capacity v) }
{
    let mut free = Vec::with_capacity(alloc, rows as usize)?;
    for n in (0..rows).rev() {
        push_free(&mut free, FIRST_ROW + n as u32);
    }
    Ok(free)
}

impl RowBook {
    /// A book of `rows` nodes, all free. Only lack of memory fails.
    pub fn new(alloc: Global, rows: u64) -> Result<RowBook, NoMemory>
        requires { rows ≤ most_rows }
        ensures { IfOk result (λ b. b ≡ new_book rows) }
    {
        Ok(RowBook {
            rows,
            free: all_rows(alloc, rows)?,
            held: HeapCircularBuffer::with_capacity(alloc, rows as usize)?,
        })
    }

    /// Takes a free node, the one that was put on top last.
    pub fn take(&mut self) -> u32
        requires { 0 < length self.old.free }
        ensures taken { self.old ≡ record self.new { free = self.new.free ++ result ∷ [] } }
        ensures out { IsOut self.new result }
    {
        match self.free.pop() {
            Some(row) => row,
            None => unreachable!(),
        }
    }

    /// Holds a node that is out, which the call `stamp` replaced. Stamps do not fall.
    pub fn retire(&mut self, row: u32, stamp: u64)
        requires out { IsOut self.old row }
        requires in_order { All (λ h. h.stamp ≤ stamp) self.old.held }
        ensures { self.new ≡ after_retire self.old row stamp }
    {
        push_held(&mut self.held, row, stamp);
    }

    /// Frees the held (retired) nodes that were replaced by the call `least` or an earlier one. Returns how many they are.
    pub fn reclaim(&mut self, least: u64) -> u64
        ensures freed { self.new ≡ after_reclaim self.old least }
        ensures count { result ≡ length (reclaimable least self.old.held) }
    {
        let mut count = 0;
        while let Some(held) = pop_due(&mut self.held, least) {
            push_free(&mut self.free, held.row);
            count += 1;
        }
        count
    }

    /// How many nodes are free.
    pub fn free(&self) -> u64
        ensures { result ≡ length self.now.free }
    {
        self.free.len() as u64
    }

    /// How many nodes are out.
    pub fn live(&self) -> u64
        ensures { result ≡ live_count self.now }
    {
        self.rows - (self.free() + self.held())
    }

    /// How many nodes were replaced, and wait.
    pub fn held(&self) -> u64
        ensures { result ≡ length self.now.held }
    {
        self.held.len() as u64
    }

    /// How many nodes there are.
    pub fn rows(&self) -> u64
        ensures rows { result ≡ self.now.rows }
        ensures book { IsBook self.now }
    {
        self.rows
    }
}
