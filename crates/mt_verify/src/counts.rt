//! The numbers of ranges that a text reports of a tree, each with the number of calls after which the tree had that many.

ghost use Rattle.std.specs.Prelude.{◌≡◌, ◌≤◌, ◌<◌, ◌^◌, ◌+◌, AllPairs, IfOk, OnOk, ◌++◌, length};
ghost use Rattle.std.specs.Option.{option_to_list};
ghost use Rattle.mt_verify.specs.OwnLines.{stop_at, stops_told};

use crate::stops::Stop;
use mt_base::NoMemory;
use mt_told::{ToldLine, What};
use std::alloc::Global;

/// The stop (check or copy) of a line, after this many calls.
fn stop_of<'t>(told: &ToldLine<'t>, at: u64) -> Option<Stop<'t>>
    ensures { result ≡ stop_at at told.now.what }
{
    match told.what {
        What::Copied { count } | What::Lawful { count } => Some(Stop { at, count }),
        What::Wrote { .. } | What::Got { .. } => None,
    }
}

/// Adds the stop that a line is, if it is one.
fn push_stop<'t>(stops: &mut Vec<Stop<'t>>, told: &ToldLine<'t>, at: u64) -> Result<(), NoMemory>
    ensures { OnOk result (stops.new.items ≡ stops.old.items ++ option_to_list (stop_at at told.now.what)) }
{
    if let Some(stop) = stop_of(told, at) {
        stops.push(stop)?;
    }
    Ok(())
}

/// How many calls were reported so far, and how many of them in phases before this one.
#[derive(Clone, Copy)]
struct Counting {
    phase: u64,
    before: u64,
    calls: u64,
}

impl Counting {
    ghost use Rattle.std.specs.Prelude.{◌≡◌, ◌<◌, ◌^◌, ◌+◌};
    ghost use Rattle.mt_verify.specs.OwnLines.{calls_in, entered};

    /// The next line is of this phase.
    fn enter(&mut self, phase: u64)
        ensures { self.new ≡ entered phase self.old }
    {
        if self.phase < phase {
            self.before = self.calls;
            self.phase = phase;
        }
    }

    /// The line is gone through.
    fn add(&mut self, what: &What)
        requires { self.old.calls < u64.MAX }
        ensures { self.new ≡ record self.old { calls = self.old.calls + calls_in what.now } }
    {
        if let What::Wrote { .. } = what {
            self.calls += 1;
        }
    }
}

/// The numbers of ranges that these lines of a tree report, in order.
pub fn stops_of<'t>(alloc: Global, own: &[ToldLine<'t>]) -> Result<Vec<Stop<'t>>, NoMemory>
    requires { AllPairs (λ s t. s.phase ≤ t.phase) own.now }
    ensures { IfOk result (λ stops. stops.items ≡ stops_told own.now) }
{
    let mut stops = Vec::new(alloc);
    let mut counting = Counting {
        phase: 0,
        before: 0,
        calls: 0,
    };
    for one in own {
        counting.enter(one.phase);
        push_stop(&mut stops, one, counting.before)?;
        counting.add(&one.what);
    }
    Ok(stops)
}
