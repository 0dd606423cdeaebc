ghost use Rattle.std.specs.Prelude.{◌≡◌, ◌<◌, ◌≤◌, ◌+◌, ℕ, List, Option, IfOk, OnOk, OnErr};
ghost use Rattle.mt_base.specs.declared.kinds.Kind.{Kind};
ghost use Rattle.mt_base.specs.declared.ranges.Range.{Range};
ghost use Rattle.mt_base.specs.Call.{answer};
ghost use Rattle.mt_base.specs.Nodes.{Limits, IsMade, one_call_more};
ghost use Rattle.mt_base.specs.Limits.{most_calls};

use mt_base::{Call, NoMemory, Query, Range, Reply};
use std::alloc::Global;

/// A map of ranges that is changed by calls and read by queries.
///
/// Its meanings are the map, the kind, which no call changes, `used`, how much of its room for calls is used, and the limits of
/// its nodes. A map without limits does each call.
pub trait Ranges {
    ghost map: { Self → List Range };

    ghost kind: { Self → Kind };

    ghost used: { Self → ℕ };

    ghost limits: { Self → Option Limits };

    /// Makes one call: it does what the call says, or, where nodes are limited, it may refuse for lack of them and leave the
    /// map.
    ///
    /// # Errors
    ///
    /// `NoMemory` where memory ran out. Nothing is changed then.
    fn act(&mut self, call: &Call) -> Result<Reply, NoMemory>
        requires { used self.old < most_calls }
        ensures acts { IfOk result (λ reply. IsMade (kind self.old) (limits self.old) (map self.old) call.now (map self.new) reply) }
        ensures err { OnErr result (map self.new ≡ map self.old) }
        ensures kind { kind self.new ≡ kind self.old }
        ensures used { used self.new ≤ used self.old + 1 }
        ensures ended { OnOk result (limits self.new ≡ one_call_more (limits self.old)) }
        ensures not_ended { OnErr result (limits self.new ≡ limits self.old) };

    /// Answers one query. There is no answer if no range fits it.
    fn ask(&mut self, query: &Query) -> Option<Range>
        ensures answer { result ≡ answer (map self.old) query.now }
        ensures map { map self.new ≡ map self.old }
        ensures kind { kind self.new ≡ kind self.old }
        ensures used { used self.new ≡ used self.old }
        ensures limits { limits self.new ≡ limits self.old };

    /// Copies the ranges out, in rising order.
    ///
    /// # Errors
    ///
    /// `NoMemory` where memory ran out.
    fn list(&mut self, alloc: Global) -> Result<Vec<Range>, NoMemory>
        ensures items { IfOk result (λ v. v.items ≡ map self.old) }
        ensures map { map self.new ≡ map self.old }
        ensures kind { kind self.new ≡ kind self.old }
        ensures used { used self.new ≡ used self.old }
        ensures limits { limits self.new ≡ limits self.old };
}
