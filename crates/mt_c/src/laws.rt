//! Where handles may be used, and that a reserve lasts. A law is the contract of a function that does nothing.

ghost use denote.Param.Send.{IsSend};
ghost use Rattle.mt_base.specs.declared.calls.Call.{Call};
ghost use Rattle.mt_base.specs.declared.replies.Reply.{Reply};
ghost use Rattle.mt_engine.specs.Engine.{IsCarriedOut, Parts};
ghost use Rattle.mt_rows.specs.Publish.{IsLawfulOf};
ghost use Rattle.mt_tree.specs.Reserve.{BreaksReserve, HasReserve};
ghost use Rattle.mt_c.specs.Calls.{IsCallMade};
ghost use Rattle.mt_c.specs.contracts.handle.TreeHandle.{the_row};
ghost use Rattle.mt_c.specs.contracts.user_handle.UserHandle as user;

/// A tree may be used by another thread than the one that opened it.
#[tactic(auto, using(crate::proofs::handle::TreeHandle::TheSendSync::the_send))]
pub fn a_handle_may_go_to_another_thread()
    ensures { IsSend the_row }
{}

/// A user of a shared tree may be used by another thread than the one that opened it.
#[tactic(auto, using(crate::proofs::user_handle::UserHandle::TheSendSync::the_send))]
pub fn a_user_may_go_to_another_thread()
    ensures { IsSend user.the_row }
{}

/// A call of a tree of one thread that has its reserve does what it says: it is not refused because nodes are short.
pub fn a_call_in_reserve_is_done()
    ensures { (t t' : Parts) (call : Call) (reply : Reply)
        → HasReserve t → IsCallMade t t' call reply
        → IsCarriedOut t.kind t.sheet t'.sheet t.book t'.book call reply }
{}

/// A call that does not break the reserve leaves it, whatever comes of it. So does each call that adds no range.
pub fn a_reserve_lasts()
    ensures { (t t' : Parts) (call : Call) (reply : Reply)
        → IsLawfulOf t.sheet.tree t.kind → HasReserve t → ¬ BreaksReserve t call
        → IsCallMade t t' call reply → HasReserve t' }
{}
