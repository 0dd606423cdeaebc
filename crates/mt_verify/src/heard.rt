//! What is heard of a call that was refused for lack of nodes, and who may have held nodes.

ghost use Rattle.std.specs.Prelude.{◌≡◌, ◌≢◌, ◌↔◌, ◌⊎◌, ◌<◌, ◌≤◌, ◌^◌, ℕ, List, true, All, IfSome, IfNone, IsTrue};
ghost use Rattle.std.specs.Fmt.{decimal};
ghost use Rattle.std.specs.List.{list_any};
ghost use Rattle.mt_log.specs.Trees.{most_trees};
ghost use Rattle.mt_base.specs.Limits.{most_lanes};
ghost use Rattle.mt_told.specs.declared.told.ToldLine.{ToldLine};
ghost use Rattle.mt_base.specs.declared.replies.Shortage.{Shortage};
ghost use Rattle.mt_verify.specs.Heard.{AreReaders, IsHeard, IsNumberAlone, IsSmallShortage, IsToldShortage, HasReadBy, SaysShortage, reads_by};
ghost use Rattle.mt_verify.specs.Heard.{shortage_printed};

use crate::calls::Numbered;
use mt_base::{Holder, Shortage};
use mt_told::{ToldLine, What, behind_word, number_before, number_in_front};

/// For each lane on each tree the first phase in which it reads, if it does.
#[derive(Drop)]
pub struct Readers {
    first: [Option<u64>; 256],
}

/// The lower of two phases, of which one may be none.
fn lower(first: Option<u64>, phase: u64) -> Option<u64>
    ensures { (p : ℕ) → HasReadBy result p ↔ (HasReadBy first p ⊎ (phase ≤ p)) }
{
    match first {
        Some(first) if first <= phase => Some(first),
        _ => Some(phase),
    }
}

impl Readers {
    ghost use Rattle.std.specs.Prelude.{◌≡◌, ◌≢◌, ◌↔◌, ◌<◌, ◌++◌, ℕ, List, [], ◌∷◌, true, All, IfSome, IfNone, IsTrue};
    ghost use Rattle.std.specs.List.{list_any};
    ghost use Rattle.mt_log.specs.Trees.{most_trees};
    ghost use Rattle.mt_base.specs.Limits.{most_lanes};
    ghost use Rattle.mt_told.specs.declared.told.ToldLine.{ToldLine};
    ghost use Rattle.mt_verify.specs.Heard.{AreReaders, reads_by};

    /// No line was gone through.
    fn new() -> Readers
        ensures { AreReaders result [] }
    {
        Readers { first: [None; 256] }
    }

    /// A line is gone through.
    fn add(&mut self, told: &ToldLine)
        requires tree { told.now.tree < most_trees }
        requires lane { told.now.lane < most_lanes }
        ensures { (earlier : List ToldLine) → AreReaders self.old earlier → AreReaders self.new (earlier ++ told.now ∷ []) }
    {
        if let What::Got { .. } = told.what {
            let place = 16 * told.tree as usize + told.lane as usize;
            self.first[place] = lower(self.first[place], told.phase);
        }
    }

    /// Whether a lane has read a tree by the end of a phase.
    fn has_read(&self, tree: u32, lane: u32, phase: u64) -> bool
        requires tree { tree < most_trees }
        requires lane { lane < most_lanes }
        ensures { (told : List ToldLine) → AreReaders self.now told → IsTrue result
            ↔ (list_any (reads_by tree lane phase) told ≡ true) }
    {
        match self.first[16 * tree as usize + lane as usize] {
            Some(first) => first <= phase,
            None => false,
        }
    }

    /// The lowest lane beside this one that has read a tree by the end of a phase.
    fn beside(&self, tree: u32, lane: u32, phase: u64) -> Option<u32>
        requires { tree < most_trees }
        ensures some { (told : List ToldLine) → AreReaders self.now told
            → IfSome result (λ l. (l ≢ lane) × (list_any (reads_by tree l phase) told ≡ true)) }
        ensures none { (told : List ToldLine) → AreReaders self.now told → All (λ t. t.lane < most_lanes) told
            → IfNone result ((l : ℕ) → l ≢ lane → list_any (reads_by tree l phase) told ≡ true → ⊥) }
    {
        for other in 0..16 {
            if other != lane && self.has_read(tree, other, phase) {
                return Some(other);
            }
        }
        None
    }
}

/// The lanes that read trees, and from which phase on.
pub fn readers_of(told: &[ToldLine]) -> Readers
    requires trees { All (λ t. t.tree < most_trees) told.now }
    requires lanes { All (λ t. t.lane < most_lanes) told.now }
    ensures { AreReaders result told.now }
{
    let mut readers = Readers::new();
    for one in told {
        readers.add(one);
    }
    readers
}

/// The number below 2^64 that the whole text is.
#[tactic(auto, using(crate::proofs::SaidShortages::whole, crate::proofs::SaidShortages::not_whole))]
fn whole_number(text: &[u8]) -> Option<u64>
    ensures some { IfSome result (λ number. IsNumberAlone text.now number) }
    ensures none { IfNone result ((number : ℕ) → number < 2 ^ 64 → text.now ≡ decimal number → ⊥) }
{
    let (number, rest) = number_in_front(text)?;
    if !rest.is_empty() {
        return None;
    }
    Some(number)
}

/// The numbers of a reply that was refused for lack of nodes, if the bytes say so: how many nodes the call needed, and how many
/// were free, live and held.
pub fn shortage_in(text: &[u8]) -> Option<Shortage>
    ensures some { IfSome result (λ s. SaysShortage text.now s) }
    ensures small { IfSome result (λ s. IsSmallShortage s) }
    ensures none { IfNone result ((s : Shortage) → IsSmallShortage s → text.now ≡ shortage_printed s → ⊥) }
{
    let text = behind_word(text, b"nomem ")?;
    let (need, text) = number_before(text, b' ')?;
    let (free, text) = number_before(text, b' ')?;
    let (live, text) = number_before(text, b' ')?;
    let held = whole_number(text)?;
    Some(Shortage {
        need,
        free,
        live,
        held,
        by: None,
    })
}

/// What is heard of a call on a tree that was refused for lack of nodes, by what it was answered. Where nodes were held,
/// another lane is named that had read the tree by then. None where it was not refused so, or nobody can be named.
pub fn shortage_heard(readers: &Readers, tree: u32, call: &Numbered) -> Option<Shortage>
    requires { tree < most_trees }
    ensures some { (told : List ToldLine) → AreReaders readers.now told
        → IfSome result (λ s. IsHeard told tree call.now s) }
    ensures small { IfSome result (λ s. IsSmallShortage s) }
    ensures none { (told : List ToldLine) → AreReaders readers.now told → All (λ t. t.lane < most_lanes) told
        → IfNone result ((s : Shortage) → IsSmallShortage s → IsToldShortage told tree call.now s → ⊥) }
{
    let short = shortage_in(call.reply)?;
    if short.held == 0 {
        return Some(short);
    }
    let pass = readers.beside(tree, call.lane, call.phase)?;
    Some(Shortage {
        by: Some(Holder { pass, epoch: 0 }),
        ..short
    })
}
