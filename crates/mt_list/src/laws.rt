//! What holds of maps of ranges with limits and without. Each law is the contract of a function that does nothing.

ghost use Rattle.std.specs.Prelude.{◌≡◌, true, List, Option};
ghost use Rattle.std.specs.List.{AllByRecursion};
ghost use Rattle.mt_base.specs.declared.kinds.Kind.{Kind};
ghost use Rattle.mt_base.specs.declared.ranges.Range.{Range};
ghost use Rattle.mt_base.specs.declared.calls.Call.{Call};
ghost use Rattle.mt_base.specs.declared.replies.Reply.{Reply};
ghost use Rattle.mt_base.specs.Nodes.{Limits, IsMade};
ghost use Rattle.mt_list.specs.Plays.{is_done, CallsLeadTo};

/// A map with limited nodes and one without limits that are equal before a call are equal after it, and answer the same, unless
/// the first refuses it because nodes are short. They stay equal over any calls of which none is refused so.
#[tactic(auto, using(crate::proofs::TwoMaps::same_call, crate::proofs::TwoMaps::same_calls))]
pub fn limits_show_in_refusals_alone()
    ensures call { (kind : Kind) (limits : Option Limits) (m m1 m2 : List Range) (call : Call) (r1 r2 : Reply)
        → IsMade kind limits m call m1 r1 → IsMade kind None m call m2 r2 → is_done r1 ≡ true → (m1 ≡ m2) × (r1 ≡ r2) }
    ensures calls { (kind : Kind) (limits : Option Limits) (m m1 m2 : List Range) (calls : List Call) (rs1 rs2 : List Reply)
        → CallsLeadTo kind limits m calls m1 rs1 → CallsLeadTo kind None m calls m2 rs2 → AllByRecursion (λ r. is_done r ≡ true) rs1 → (m1 ≡ m2) × (rs1 ≡ rs2) }
{}
