//! What is known of the calls of a tree from the text of their replies.

ghost use Rattle.std.specs.Prelude.{◌≡◌, ◌<◌, ◌++◌, ℕ, List, All, IfSome, IfNone, IfOk, codes, length};
ghost use Rattle.std.specs.Bool.{OnTrue, OnFalse};
ghost use Rattle.mt_log.specs.Trees.{most_trees};
ghost use Rattle.mt_base.specs.Limits.{most_lanes};
ghost use Rattle.mt_told.specs.declared.told.ToldLine.{ToldLine};
ghost use Rattle.mt_verify.specs.Heard.{AreReaders};
ghost use Rattle.mt_verify.specs.Hearing.{AreNotedOf, IsHeardOf, IsMisheard, IsNotedOf, SomeMisheard};

use crate::calls::Numbered;
use crate::heard::{Readers, shortage_heard};
use crate::noted::{Heard, Noted};
use mt_base::NoMemory;
use mt_told::behind_word;
use std::alloc::Global;

/// Whether a reply begins as a refusal for lack of nodes does.
fn is_refusal(reply: &[u8]) -> bool
    ensures yes { OnTrue result ((rest : List ℕ) × (reply.now ≡ codes "nomem " ++ rest)) }
    ensures no { OnFalse result ((rest : List ℕ) → reply.now ≡ codes "nomem " ++ rest → ⊥) }
{
    behind_word(reply, b"nomem ").is_some()
}

/// What is known of a call on a tree. Nothing if its reply begins as a refusal because nodes are short, and is none.
fn heard<'t>(readers: &Readers, tree: u32, call: &Numbered<'t>) -> Option<Heard<'t>>
    requires { tree < most_trees }
    ensures some { (told : List ToldLine) → AreReaders readers.now told
        → IfSome result (λ heard. IsHeardOf told tree call.now heard) }
    ensures none { (told : List ToldLine) → AreReaders readers.now told → All (λ t. t.lane < most_lanes) told
        → IfNone result (IsMisheard told tree call.now) }
{
    if !is_refusal(call.reply) {
        return Some(Heard::Reply(call.reply));
    }
    let short = shortage_heard(readers, tree, call)?;
    Some(Heard::Short(short))
}

/// A call with what is heard of it.
fn noted<'t>(readers: &Readers, tree: u32, call: &Numbered<'t>) -> Option<Noted<'t>>
    requires { tree < most_trees }
    ensures some { (told : List ToldLine) → AreReaders readers.now told
        → IfSome result (λ n. IsNotedOf told tree call.now n) }
    ensures none { (told : List ToldLine) → AreReaders readers.now told → All (λ t. t.lane < most_lanes) told
        → IfNone result (IsMisheard told tree call.now) }
{
    let heard = heard(readers, tree, call)?;
    Some(Noted {
        lane: call.lane,
        call: call.call,
        heard,
    })
}

/// The calls of a tree with what is known of each. Nothing if the text reports that one is refused because nodes are short, and
/// it cannot be.
#[tactic(auto, using(crate::proofs::NotedCalls::noted_more))]
pub fn all_noted<'t>(
    alloc: Global,
    readers: &Readers,
    tree: u32,
    calls: &[Numbered<'t>],
) -> Result<Option<Vec<Noted<'t>>>, NoMemory>
    requires { tree < most_trees }
    ensures some { IfOk result (λ found. (told : List ToldLine) → AreReaders readers.now told
        → IfSome found (λ noted. AreNotedOf told tree calls.now noted.items)) }
    ensures none { IfOk result (λ found. (told : List ToldLine) → AreReaders readers.now told
        → All (λ t. t.lane < most_lanes) told → IfNone found (SomeMisheard told tree calls.now)) }
{
    let mut all = Vec::with_capacity(alloc, calls.len())?;
    for call in calls {
        let Some(one) = noted(readers, tree, call) else {
            return Ok(None);
        };
        all.push(one)?;
    }
    Ok(Some(all))
}
