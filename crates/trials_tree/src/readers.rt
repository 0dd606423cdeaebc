//! Readers of a shared tree beside its writer, on named calls and one thread each: walks that go on while ranges are stored,
//! and the nodes that an open section holds.

mod held;
mod walks;

ghost use Rattle.mt_tree.specs.Trees.{IsPassOf};

use crate::asserts::same;
use mt_base::{Range, Reply};
use mt_tree::{Done, Pass, Read, Tree};
use std::process::Abort;
use std::sync::Wait;

/// A store over a range, which is answered so as the call of this number.
fn store_range<R: Wait + Abort>(
    rt: &R,
    tree: &Tree,
    pass: &mut Pass,
    first: u64,
    last: u64,
    entry: u64,
    call: u64,
    reply: Reply,
)
    requires { IsPassOf tree.now pass.old }
    ensures { IsPassOf tree.now pass.new }
{
    let done = tree.store_range(rt, pass, first, last, entry);
    same(rt, done, Ok(Done { call, reply }), call);
}

/// A store of an entry at one index, which is answered so as the call of this number.
fn store<R: Wait + Abort>(rt: &R, tree: &Tree, pass: &mut Pass, index: u64, call: u64, reply: Reply)
    requires { IsPassOf tree.now pass.old }
    ensures { IsPassOf tree.now pass.new }
{
    store_range(rt, tree, pass, index, index, 9, call, reply);
}

/// What a step is answered where its window is one number of calls.
fn read(calls: u64, found: Option<(u64, u64, u64)>) -> Read<Option<Range>> {
    Read {
        lo: calls,
        hi: calls,
        value: found.map(|(first, last, entry)| Range { first, last, entry }),
    }
}
