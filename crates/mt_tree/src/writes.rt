//! The calls of a tree, each under a lock of its own.

ghost use Rattle.std.specs.Prelude.{◌≡◌};
ghost use Rattle.mt_base.specs.declared.calls.Call.TheVariants as calls;
ghost use Rattle.mt_base.specs.Passes.{Learned};
ghost use Rattle.mt_rule.specs.Tokens.{pass_in, note_in};
ghost use Rattle.mt_tree.specs.Trees.{opened, IsPassOf, IsNoteOf, TriesOnce};
ghost use Rattle.mt_tree.specs.Tries.{WasMade};

use crate::trees::Tree;
use mt_base::{Call, Done, Worn};
use mt_rule::{Note, Pass};
use std::sync::Wait;

impl Tree {
    /// Makes one call, any of those below, under a lock of its own. A call that needs nodes first loads the section words and
    /// frees the nodes that no section holds. It is refused with `NoNodes` if too few are then free. Any other call loads no
    /// section word.
    ///
    /// # Errors
    ///
    /// `Worn` if the tree has had as many calls as it may have. The handle has then seen them all, and nothing is changed.
    pub fn act(&self, rt: &impl Wait, pass: &mut Pass, call: &Call) -> Result<Done, Worn>
        requires { IsPassOf self.now pass.old }
        ensures of { IsPassOf self.now pass.new }
        ensures made { WasMade self.now (pass_in pass.old) call.now result (pass_in pass.new) }
        ensures tries { TriesOnce pass.old pass.new }
    {
        let mut taken = self.take(rt, pass);
        let done = taken.value.act(self, pass, call);
        self.turn.give(taken);
        done
    }

    /// Stores an entry over a range, or nothing there where the entry is 0.
    ///
    /// # Errors
    ///
    /// `Worn` if the tree has had as many calls as it may have. The handle has then seen them all, and nothing is changed.
    pub fn store_range(
        &self,
        rt: &impl Wait,
        pass: &mut Pass,
        first: u64,
        last: u64,
        entry: u64,
    ) -> Result<Done, Worn>
        requires { IsPassOf self.now pass.old }
        ensures of { IsPassOf self.now pass.new }
        ensures made { WasMade self.now (pass_in pass.old) (calls.Store first last entry) result (pass_in pass.new) }
        ensures tries { TriesOnce pass.old pass.new }
    {
        self.act(rt, pass, &Call::Store { first, last, entry })
    }

    /// Stores as `store_range` does, but always needs the nodes of a store that changes nodes: it is refused with `NoNodes` if
    /// they are not free.
    ///
    /// # Errors
    ///
    /// `Worn` if the tree has had as many calls as it may have. The handle has then seen them all, and nothing is changed.
    pub fn store_pre(
        &self,
        rt: &impl Wait,
        pass: &mut Pass,
        first: u64,
        last: u64,
        entry: u64,
    ) -> Result<Done, Worn>
        requires { IsPassOf self.now pass.old }
        ensures of { IsPassOf self.now pass.new }
        ensures made { WasMade self.now (pass_in pass.old) (calls.StorePre first last entry) result (pass_in pass.new) }
        ensures tries { TriesOnce pass.old pass.new }
    {
        self.act(rt, pass, &Call::StorePre { first, last, entry })
    }

    /// Stores an entry over a range that holds none.
    ///
    /// # Errors
    ///
    /// `Worn` if the tree has had as many calls as it may have. The handle has then seen them all, and nothing is changed.
    pub fn insert_range(
        &self,
        rt: &impl Wait,
        pass: &mut Pass,
        first: u64,
        last: u64,
        entry: u64,
    ) -> Result<Done, Worn>
        requires { IsPassOf self.now pass.old }
        ensures of { IsPassOf self.now pass.new }
        ensures made { WasMade self.now (pass_in pass.old) (calls.Insert first last entry) result (pass_in pass.new) }
        ensures tries { TriesOnce pass.old pass.new }
    {
        self.act(rt, pass, &Call::Insert { first, last, entry })
    }

    /// Removes the range that holds an index.
    ///
    /// # Errors
    ///
    /// `Worn` if the tree has had as many calls as it may have. The handle has then seen them all, and nothing is changed.
    pub fn erase(&self, rt: &impl Wait, pass: &mut Pass, index: u64) -> Result<Done, Worn>
        requires { IsPassOf self.now pass.old }
        ensures of { IsPassOf self.now pass.new }
        ensures made { WasMade self.now (pass_in pass.old) (calls.Erase index) result (pass_in pass.new) }
        ensures tries { TriesOnce pass.old pass.new }
    {
        self.act(rt, pass, &Call::Erase { index })
    }

    /// Stores an entry over `size` free indexes of a window, the lowest there are.
    ///
    /// # Errors
    ///
    /// `Worn` if the tree has had as many calls as it may have. The handle has then seen them all, and nothing is changed.
    pub fn alloc_range(
        &self,
        rt: &impl Wait,
        pass: &mut Pass,
        size: u64,
        min: u64,
        max: u64,
        entry: u64,
    ) -> Result<Done, Worn>
        requires { IsPassOf self.now pass.old }
        ensures of { IsPassOf self.now pass.new }
        ensures made { WasMade self.now (pass_in pass.old) (calls.Alloc size min max entry) result (pass_in pass.new) }
        ensures tries { TriesOnce pass.old pass.new }
    {
        self.act(
            rt,
            pass,
            &Call::Alloc {
                size,
                min,
                max,
                entry,
            },
        )
    }

    /// Stores an entry over `size` free indexes of a window, the highest there are.
    ///
    /// # Errors
    ///
    /// `Worn` if the tree has had as many calls as it may have. The handle has then seen them all, and nothing is changed.
    pub fn alloc_rrange(
        &self,
        rt: &impl Wait,
        pass: &mut Pass,
        size: u64,
        min: u64,
        max: u64,
        entry: u64,
    ) -> Result<Done, Worn>
        requires { IsPassOf self.now pass.old }
        ensures of { IsPassOf self.now pass.new }
        ensures made { WasMade self.now (pass_in pass.old) (calls.Ralloc size min max entry) result (pass_in pass.new) }
        ensures tries { TriesOnce pass.old pass.new }
    {
        self.act(
            rt,
            pass,
            &Call::Ralloc {
                size,
                min,
                max,
                entry,
            },
        )
    }

    /// Returns the lowest place where `size` indexes of a window are free. It stores nothing, but takes the lock and is a call
    /// of the history.
    ///
    /// # Errors
    ///
    /// `Worn` if the tree has had as many calls as it may have. The handle has then seen them all, and nothing is changed.
    pub fn empty_area(
        &self,
        rt: &impl Wait,
        pass: &mut Pass,
        size: u64,
        min: u64,
        max: u64,
    ) -> Result<Done, Worn>
        requires { IsPassOf self.now pass.old }
        ensures of { IsPassOf self.now pass.new }
        ensures made { WasMade self.now (pass_in pass.old) (calls.Gap size min max) result (pass_in pass.new) }
        ensures tries { TriesOnce pass.old pass.new }
    {
        self.act(rt, pass, &Call::Gap { size, min, max })
    }

    /// Returns the highest place where `size` indexes of a window are free. It stores nothing, but takes the lock and is a call
    /// of the history.
    ///
    /// # Errors
    ///
    /// `Worn` if the tree has had as many calls as it may have. The handle has then seen them all, and nothing is changed.
    pub fn empty_area_rev(
        &self,
        rt: &impl Wait,
        pass: &mut Pass,
        size: u64,
        min: u64,
        max: u64,
    ) -> Result<Done, Worn>
        requires { IsPassOf self.now pass.old }
        ensures of { IsPassOf self.now pass.new }
        ensures made { WasMade self.now (pass_in pass.old) (calls.Rgap size min max) result (pass_in pass.new) }
        ensures tries { TriesOnce pass.old pass.new }
    {
        self.act(rt, pass, &Call::Rgap { size, min, max })
    }

    /// Removes all ranges.
    ///
    /// # Errors
    ///
    /// `Worn` if the tree has had as many calls as it may have. The handle has then seen them all, and nothing is changed.
    pub fn clear(&self, rt: &impl Wait, pass: &mut Pass) -> Result<Done, Worn>
        requires { IsPassOf self.now pass.old }
        ensures of { IsPassOf self.now pass.new }
        ensures made { WasMade self.now (pass_in pass.old) calls.Clear result (pass_in pass.new) }
        ensures tries { TriesOnce pass.old pass.new }
    {
        self.act(rt, pass, &Call::Clear)
    }

    /// Copies what the handle has seen.
    pub fn note(&self, pass: &mut Pass) -> Note
        requires { IsPassOf self.now pass.old }
        ensures pass { pass.new ≡ pass.old }
        ensures of { IsNoteOf self.now result }
        ensures note { note_in result ≡ (pass_in pass.old).seen }
    {
        self.table.split_note(pass)
    }

    /// Afterwards the handle has seen the longer of what it had seen and what the note holds. Each of these begins it.
    pub fn learn(&self, pass: &mut Pass, note: Note)
        requires pass { IsPassOf self.now pass.old }
        requires note { IsNoteOf self.now note }
        ensures of { IsPassOf self.now pass.new }
        ensures learned { Learned (opened self.now) (pass_in pass.old) (note_in note) (pass_in pass.new) }
    {
        self.table.join_note(pass, note);
    }
}
