//! The calls on a tree that a text reports, in the order of their numbers.

ghost use Rattle.std.specs.Prelude.{◌≡◌, ℕ, List, [], ◌∷◌, length, map, Contains, IfOk, IsPermutation, MatchOption};
ghost use Rattle.std.specs.Bool.{OnTrue, OnFalse};
ghost use Rattle.mt_verify.specs.declared.calls.Numbered.{Numbered};
ghost use Rattle.mt_verify.specs.ToldCalls.{AreCallsOf, HasNoPlace, calls_told, filled_from, numbered_on_told};

use mt_base::{Call, NoMemory};
use mt_told::{ToldLine, What};
use std::alloc::Global;

/// A call in a text, without its number and its tree: who made it and when, what it was, and the bytes of its reply.
#[derive(Clone, Copy)]
pub struct Numbered<'t> {
    pub lane: u32,
    pub phase: u64,
    pub call: Call,
    pub reply: &'t [u8],
}

/// The call that a line reports, with its number, if it is a call on this tree.
fn numbered_on<'t>(told: &ToldLine<'t>, tree: u32) -> Option<(u64, Numbered<'t>)>
    ensures { result ≡ numbered_on_told tree told.now }
{
    if told.tree != tree {
        return None;
    }
    match told.what {
        What::Wrote {
            number,
            call,
            reply,
        } => Some((
            number,
            Numbered {
                lane: told.lane,
                phase: told.phase,
                call,
                reply,
            },
        )),
        What::Got { .. } | What::Copied { .. } | What::Lawful { .. } => None,
    }
}

/// How many calls on a tree the text reports.
pub fn count_calls(told: &[ToldLine], tree: u32) -> usize
    ensures { result ≡ length (calls_told tree told.now) }
{
    told.iter().filter_map(|one| numbered_on(one, tree)).count()
}

/// Puts a call in the place of its number. Returns whether there is one, and it is free.
fn put<'t>(places: &mut [Option<Numbered<'t>>], number: u64, call: Numbered<'t>) -> bool
    ensures put { OnTrue result
        (IsPermutation (filled_from 1 places.new) ((number, call.entry) ∷ filled_from 1 places.old)) }
    ensures not { OnFalse result (HasNoPlace number places.old) }
{
    if number == 0 || number > places.len() as u64 {
        return false;
    }
    let place = number as usize - 1;
    if places[place].is_some() {
        return false;
    }
    places[place] = Some(call);
    true
}

/// Puts each call on a tree in the place of its number. Returns whether each had one.
fn fill<'t>(told: &[ToldLine<'t>], tree: u32, places: &mut [Option<Numbered<'t>>]) -> bool
    requires { filled_from 1 places.old ≡ [] }
    ensures filled { OnTrue result (IsPermutation (filled_from 1 places.new) (calls_told tree told.now)) }
    ensures not { OnFalse result ((list : List Numbered) → length list ≡ length places.old
        → AreCallsOf tree told.now list → ⊥) }
{
    for one in told {
        if let Some((number, call)) = numbered_on(one, tree) {
            if !put(places, number, call) {
                return false;
            }
        }
    }
    true
}

/// The calls in the places, if none is free.
fn all_of<'t>(
    alloc: Global,
    places: &[Option<Numbered<'t>>],
) -> Result<Option<Vec<Numbered<'t>>>, NoMemory>
    ensures { IfOk result
        (λ found. MatchOption found (Contains places.now None) (λ calls. places.now ≡ map Some calls.items)) }
{
    let mut calls = Vec::new(alloc);
    for place in places {
        match place {
            Some(call) => calls.push(*call)?,
            None => return Ok(None),
        }
    }
    Ok(Some(calls))
}

/// So many free places.
#[tactic(auto, using(crate::proofs::Placed::filled_free))]
fn places<'t>(alloc: Global, count: usize) -> Result<Vec<Option<Numbered<'t>>>, NoMemory>
    ensures { IfOk result (λ places. (length places.items ≡ count) × (filled_from 1 places.items ≡ [])) }
{
    let mut places = Vec::with_capacity(alloc, count)?;
    for _ in 0..count {
        places.push(None)?;
    }
    Ok(places)
}

/// The calls on a tree that the text reports, found by putting them into as many free places.
fn calls_in<'t>(
    alloc: Global,
    told: &[ToldLine<'t>],
    tree: u32,
    places: &mut [Option<Numbered<'t>>],
) -> Result<Option<Vec<Numbered<'t>>>, NoMemory>
    requires free { filled_from 1 places.old ≡ [] }
    requires count { length places.old ≡ length (calls_told tree told.now) }
    ensures { IfOk result (λ found. MatchOption found
        ((list : List Numbered) → AreCallsOf tree told.now list → ⊥)
        (λ calls. AreCallsOf tree told.now calls.items)) }
{
    if !fill(told, tree, places) {
        return Ok(None);
    }
    all_of(alloc, places)
}

/// The calls on a tree that the text reports, in the order of their numbers, from 1 on. None if their numbers are others.
pub fn calls_on<'t>(
    alloc: Global,
    told: &[ToldLine<'t>],
    tree: u32,
) -> Result<Option<Vec<Numbered<'t>>>, NoMemory>
    ensures { IfOk result (λ found. MatchOption found
        ((list : List Numbered) → AreCallsOf tree told.now list → ⊥)
        (λ calls. AreCallsOf tree told.now calls.items)) }
{
    let mut places = places(alloc, count_calls(told, tree))?;
    calls_in(alloc, told, tree, &mut places)
}
