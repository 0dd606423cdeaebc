//! Lanes and workers that a gate holds: each order of two lanes is played, and lanes and workers are at work at once.

use crate::runs::{Ending, NEVER, ROOM, given, run, same, sink};
use mt_io::Gate;
use std::alloc::AllocError;
use std::process::Abort;
use std::str;
use std::sync::Wait;
use std::sync::atomic::{AtomicBool, AtomicU64, Ordering};
use std::test::Fail;
use std::thread::Threads;

/// A gate looks so often whether a lane may go on.
const LOOKS: u64 = 200_000_000;

/// The result of these words on this input, held by this gate.
fn run_held<R: Threads + Wait + Sync + AllocGlobal, G: Gate + Sync>(
    rt: &R,
    words: &str,
    input: &[u8],
    gate: &G,
) -> Result<Ending, AllocError> {
    let alloc = rt.alloc();
    let mut src = given(alloc, input)?;
    let (out, err) = (sink(alloc, ROOM, NEVER)?, sink(alloc, ROOM, NEVER)?);
    run(rt, words, &mut src, out, err, gate)
}

/// Has the lanes do their steps one at a time, in this order of lanes.
#[derive(Drop)]
struct Order {
    lanes: [u32; 4],
    done: AtomicU64,
    missed: AtomicU64,
}

impl Gate for Order {
    fn turn(&self, lane: u32, number: u64) {
        if number % 2 == 1 {
            self.done.fetch_add(1, Ordering::SeqCst);
            return;
        }
        for _ in 0..LOOKS {
            let done = self.done.load(Ordering::SeqCst) as usize;
            if self.lanes.get(done) == Some(&lane) {
                return;
            }
        }
        self.missed.fetch_add(1, Ordering::SeqCst);
    }
}

/// Two stores of one lane, and two loads of another.
const TWO_AND_TWO: &[u8] =
    b"mtlog 1\ntree a range\nlane 0\nstore a 1 1 5\nstore a 1 1 7\nlane 1\nload a 1\nload a 1\n";

/// The lanes in the order of their steps, and what the two loads find.
type Found = ([u32; 4], &'static str, &'static str);

const ORDERS: [Found; 6] = [
    ([1, 1, 0, 0], " none", " none"),
    ([1, 0, 1, 0], " none", " entry 5"),
    ([1, 0, 0, 1], " none", " entry 7"),
    ([0, 1, 1, 0], " entry 5", " entry 5"),
    ([0, 1, 0, 1], " entry 5", " entry 7"),
    ([0, 0, 1, 1], " entry 7", " entry 7"),
];

/// A line is there, and ends so.
fn expect_end(rt: &impl Abort, line: Option<&str>, end: &str) {
    assert!(rt; line.is_some_and(|line| line.ends_with(end)), "no{end}");
}

/// In an order of lanes the two loads find what they should.
fn expect_order<R: Threads + Wait + Sync + AllocGlobal + Abort>(
    rt: &R,
    found: &Found,
) -> Result<(), Fail> {
    let (lanes, first, second) = *found;
    let gate = Order {
        lanes,
        done: AtomicU64::new(0),
        missed: AtomicU64::new(0),
    };
    let ending = run_held(rt, "replay", TWO_AND_TWO, &gate)?;
    same(rt, ending.status, 0, "its status");
    same(rt, gate.missed.load(Ordering::SeqCst), 0, "turns missed");
    same(rt, gate.done.load(Ordering::SeqCst), 4, "turns done");
    let mut loads = str::from_utf8(ending.out.bytes())
        .unwrap_or("")
        .lines()
        .skip(2);
    expect_end(rt, loads.next(), first);
    expect_end(rt, loads.next(), second);
    Ok(())
}

#[test]
fn each_order_of_two_stores_and_two_loads_is_played(rt: HostRuntime) -> Result<(), Fail> {
    for found in &ORDERS {
        expect_order(&rt, found)?;
    }
    Ok(())
}

/// Holds two lanes, or two workers, each in its turn 1 until the other has reached its own.
#[derive(Drop)]
struct Meeting {
    first: AtomicBool,
    second: AtomicBool,
    missed: AtomicU64,
}

impl Gate for Meeting {
    fn turn(&self, lane: u32, number: u64) {
        if number != 1 {
            return;
        }
        let (own, other) = match lane {
            0 => (&self.first, &self.second),
            _ => (&self.second, &self.first),
        };
        own.store(true, Ordering::SeqCst);
        for _ in 0..LOOKS {
            if other.load(Ordering::SeqCst) {
                return;
            }
        }
        self.missed.fetch_add(1, Ordering::SeqCst);
    }
}

/// A store of each of two lanes on one tree.
const TWO_LANES: &str = "mtlog 1\ntree a range\nlane 0\nstore a 0 9 1\nlane 1\nstore a 20 29 3\n";

/// Words, and an input on which two are at work at once.
const MEETINGS: [(&str, &str); 3] = [
    ("replay", TWO_LANES),
    ("image", TWO_LANES),
    ("bulk 2", "tree a range 2\n0 9 1\n20 29 3\n"),
];

/// These words have two at work on this input at once.
fn expect_meeting<R: Threads + Wait + Sync + AllocGlobal + Abort>(
    rt: &R,
    words: &str,
    input: &str,
) -> Result<(), Fail> {
    let gate = Meeting {
        first: AtomicBool::new(false),
        second: AtomicBool::new(false),
        missed: AtomicU64::new(0),
    };
    let ending = run_held(rt, words, input.as_bytes(), &gate)?;
    same(rt, ending.status, 0, words);
    same(rt, gate.first.load(Ordering::SeqCst), true, words);
    same(rt, gate.second.load(Ordering::SeqCst), true, words);
    same(rt, gate.missed.load(Ordering::SeqCst), 0, words);
    Ok(())
}

#[test]
fn two_are_at_work_at_once(rt: HostRuntime) -> Result<(), Fail> {
    for (words, input) in &MEETINGS {
        expect_meeting(&rt, words, input)?;
    }
    Ok(())
}
