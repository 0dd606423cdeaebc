//! Several calls under one lock.

use crate::asserts::same;
use crate::shared::{last_pass, made, shape_of};
use mt_tree::{Asked, Call, Done, Kind, Range, Reply};
use std::test::Fail;

/// A request of this call.
fn asked(call: Call) -> Asked {
    Asked { call, done: None }
}

/// What a request was told.
fn told(call: u64, reply: Reply) -> Option<Done> {
    Some(Done { call, reply })
}

/// Three calls, of which the second is refused, where the tree may have four. Then one that fits, and one that does not.
#[test]
fn calls_are_made_under_one_lock(rt: HostRuntime) -> Result<(), Fail> {
    let (tree, mut passes) = made(rt.alloc(), shape_of(Kind::Range, 64, 1, 4))?;
    let mut pass = last_pass(&tree, &mut passes)?;
    let (first, last) = (10, 19);
    let mut calls = [
        asked(Call::Store {
            first,
            last,
            entry: 7,
        }),
        asked(Call::Insert {
            first,
            last,
            entry: 8,
        }),
        asked(Call::Erase { index: 12 }),
    ];
    let made = tree.try_act_each(&mut pass, &mut calls);
    same(&rt, made.is_ok(), true, "made");
    same(&rt, calls[0].done, told(1, Reply::Ok), "a store");
    same(&rt, calls[1].done, told(2, Reply::Exists), "an insert");
    let was = Reply::Was(Range {
        first,
        last,
        entry: 7,
    });
    same(&rt, calls[2].done, told(3, was), "an erase");

    let mut two = [asked(Call::Clear), asked(Call::Clear)];
    match tree.try_act_each(&mut pass, &mut two) {
        Ok(Err(worn)) => same(&rt, worn.calls, 3, "one too many"),
        _ => return Err("two calls were made".into()),
    }
    same(&rt, two[0].done, None, "none was made");
    Ok(())
}
