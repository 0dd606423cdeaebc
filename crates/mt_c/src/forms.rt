//! Whether the words of a tree are well-formed.

ghost use Rattle.std.specs.Prelude.{◌≡◌, Ok};
ghost use Rattle.mt_check.specs.Check.{form_of};
ghost use Rattle.mt_rows.specs.Memory.{sheet_in};
ghost use Rattle.mt_rows.specs.Publish.{IsLawfulOf, tree_as};
ghost use Rattle.mt_rows.specs.Sheet.{OnlyReads};
ghost use Rattle.mt_c.specs.Calls.{IsAsked};
ghost use Rattle.mt_c.specs.Copying as defined;
ghost use Rattle.mt_c.specs.Copying.{Checked};

use crate::handle::TreeHandle;
use crate::own_tree::OwnTree;
use crate::told::{EBADF, EBADMSG};
use core::mem::replace_with;
use mt_base::Kind;
use mt_check::{Fault, Form, check};
use mt_engine::Engine;
use mt_rows::{PlainRows, Rows};
use std::alloc::Global;

/// The form of a tree as C has it: `struct maple_form`.
#[repr(C)]
#[derive(Clone, Copy, Debug, PartialEq, Eq)]
pub struct OutForm {
    pub height: u64,
    pub rows: u64,
    pub ranges: u64,
}

/// The result if there is no form.
pub fn no_form() -> OutForm
    ensures { result ≡ defined.no_form }
{
    OutForm {
        height: 0,
        rows: 0,
        ranges: 0,
    }
}

/// A form as C has it.
pub fn out_form(form: &Form) -> OutForm
    ensures { result ≡ defined.out_form form.now }
{
    OutForm {
        height: form.height as u64,
        rows: form.rows,
        ranges: form.ranges,
    }
}

/// The result of a check of well-formed nodes, which tests each word.
fn check_rows(rows: &mut PlainRows, kind: Kind) -> Result<Form, Fault>
    requires { IsLawfulOf (sheet_in rows.old).tree kind }
    ensures form { result ≡ Ok (form_of (tree_as kind (sheet_in rows.old).tree)) }
    ensures rest { OnlyReads (sheet_in rows.old) (sheet_in rows.new) }
{
    let root = rows.root();
    check(rows, root, kind)
}

/// As `check_rows`, of an engine's tree, which is only read.
#[tactic(auto, using(crate::proofs::Reading::put_together))]
fn check_of(engine: Engine<PlainRows>, kind: Kind) -> (Engine<PlainRows>, Result<Form, Fault>)
    requires { kind ≡ engine.kind }
    ensures rest { IsAsked engine result.0 }
    ensures lawful { IsLawfulOf engine.sheet.tree engine.kind }
    ensures form { result.1 ≡ Ok (form_of (tree_as engine.kind engine.sheet.tree)) }
{
    let height = engine.height();
    let (mut rows, book) = engine.parts();
    let found = check_rows(&mut rows, kind);
    (Engine::of_height(rows, book, kind, height), found)
}

/// The form of an engine's words, which are only read.
fn check_in(engine: &mut Engine<PlainRows>, kind: Kind) -> Result<Form, Fault>
    requires { kind ≡ engine.old.kind }
    ensures rest { IsAsked engine.old engine.new }
    ensures lawful { IsLawfulOf engine.old.sheet.tree engine.old.kind }
    ensures form { result ≡ Ok (form_of (tree_as engine.old.kind engine.old.sheet.tree)) }
{
    replace_with(engine, kind, check_of)
}

impl OwnTree {
    /// The form of its words.
    fn check(&mut self) -> Result<Form, Fault>
        ensures rest { IsAsked self.old.engine self.new.engine }
        ensures lawful { IsLawfulOf self.old.engine.sheet.tree self.old.engine.kind }
        ensures form { result
            ≡ Ok (form_of (tree_as self.old.engine.kind self.old.engine.sheet.tree)) }
    {
        check_in(&mut self.engine, self.kind)
    }
}

/// Tests the words of a tree, and returns its form. They are well-formed: any other answer means that something else wrote over
/// them.
#[unsafe(no_mangle)]
pub extern "C" fn maple_check(alloc: Global, tree: &mut TreeHandle, form: &mut OutForm) -> u32
    ensures { Checked tree.old.kept.value tree.new.kept.value result form.new }
{
    let Some(mut whole) = tree.take(alloc) else {
        *form = no_form();
        return EBADF;
    };
    let found = whole.check();
    tree.put(whole);
    match found {
        Ok(found) => {
            *form = out_form(&found);
            0
        }
        Err(_) => {
            *form = no_form();
            EBADMSG
        }
    }
}
