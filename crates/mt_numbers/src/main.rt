//! Threads take numbers from one tree and give them back, while others look numbers up and go through those that are taken. It
//! prints how many each thread took and gave back, and whether a number was ever held twice. Then it prints what it finds if
//! numbers are handed out twice each.
#![tactic(auto)]

mod crews;
mod marks;
mod numbers;
mod readers;
mod shared;
mod takers;
mod twice;

use crate::crews::at_work;
use crate::twice::work_on_twice;
use std::io;

fn main(rt: HostRuntime) -> io::Result<()> {
    at_work(&rt, rt.alloc())?;
    work_on_twice(&rt, rt.alloc())
}
