//! The whole of a shared tree, which is looked at under its lock where that is free.

ghost use Rattle.std.specs.Prelude.{◌≡◌};
ghost use Rattle.mt_tree.specs.Looks.{IsFormBehind, IsOldest, IsStatsOf};
ghost use Rattle.mt_tree.specs.Trees.{IsPassOf};
ghost use Rattle.mt_c.specs.Looks as defined;
ghost use Rattle.mt_c.specs.Looks.{HasFoundOrTaken, IsFoundIn, SharedChecked, SharedOldest, SharedStats, TellsCalls, TellsForm, TellsStats, when_found};
ghost use Rattle.mt_c.specs.Users.{common_of, known_to, rested, user_tree};
ghost use Rattle.mt_c.specs.Walkers.{IsPaused, TriedShut, knows, shut};

use crate::forms::{OutForm, no_form, out_form};
use crate::receipts::Receipts;
use crate::shared_told::EAGAIN;
use crate::stats::{OutStats, no_stats};
use crate::user::User;
use crate::user_handle::UserHandle;
use crate::walker::Walker;
use mt_check::Form;
use mt_tree::{Busy, Look, Stats, Tree};
use std::alloc::Global;

impl Walker {
    /// The form of the tree's words, if the lock is free.
    #[tactic(auto, using(crate::proofs::Looking::form_found, crate::proofs::Using::tried_shut))]
    fn try_check(&mut self, tree: &Tree) -> Result<(Form, Look), Busy>
        requires { IsPassOf tree.now self.old.pass }
        ensures of { IsPassOf tree.now self.new.pass }
        ensures found { IsFoundIn IsFormBehind tree.now (shut self.old) result (knows self.new) }
        ensures once { TriedShut self.old self.new }
        ensures paused { IsPaused self.new }
    {
        self.rest(tree);
        tree.try_check(&mut self.pass)
    }

    /// How the tree uses its nodes, if the lock is free.
    #[tactic(auto, using(crate::proofs::Looking::stats_found, crate::proofs::Using::tried_shut))]
    fn try_stats(&mut self, tree: &Tree) -> Result<(Stats, Look), Busy>
        requires { IsPassOf tree.now self.old.pass }
        ensures of { IsPassOf tree.now self.new.pass }
        ensures found { IsFoundIn IsStatsOf tree.now (shut self.old) result (knows self.new) }
        ensures once { TriedShut self.old self.new }
        ensures paused { IsPaused self.new }
    {
        self.rest(tree);
        tree.try_stats(&mut self.pass)
    }

    /// How many calls had ended at least when a section that is open was opened, if the lock is free.
    #[tactic(auto, using(crate::proofs::Looking::calls_found, crate::proofs::Using::tried_shut))]
    fn try_oldest(&mut self, tree: &Tree) -> Result<(u64, Look), Busy>
        requires { IsPassOf tree.now self.old.pass }
        ensures of { IsPassOf tree.now self.new.pass }
        ensures found { IsFoundIn IsOldest tree.now (shut self.old) result (knows self.new) }
        ensures once { TriedShut self.old self.new }
        ensures paused { IsPaused self.new }
    {
        self.rest(tree);
        tree.try_oldest(&mut self.pass)
    }
}

impl User {
    /// The form of its tree's words, if the lock is free.
    fn try_check(&mut self) -> Result<(Form, Look), Busy>
        ensures common { common_of self.new ≡ common_of self.old }
        ensures chair { self.new.chair ≡ self.old.chair }
        ensures receipts { self.new.receipts ≡ self.old.receipts }
        ensures found { IsFoundIn IsFormBehind
            (user_tree self.old) (rested self.old) result (known_to self.new) }
        ensures once { TriedShut self.old.walker self.new.walker }
        ensures paused { IsPaused self.new.walker }
    {
        self.walker.try_check(&self.common.tree)
    }

    /// How its tree uses its nodes, if the lock is free.
    fn try_stats(&mut self) -> Result<(Stats, Look), Busy>
        ensures common { common_of self.new ≡ common_of self.old }
        ensures chair { self.new.chair ≡ self.old.chair }
        ensures receipts { self.new.receipts ≡ self.old.receipts }
        ensures found { IsFoundIn IsStatsOf
            (user_tree self.old) (rested self.old) result (known_to self.new) }
        ensures once { TriedShut self.old.walker self.new.walker }
        ensures paused { IsPaused self.new.walker }
    {
        self.walker.try_stats(&self.common.tree)
    }

    /// How many calls had ended at least when a section of its tree that is open was opened, if the lock is free.
    fn try_oldest(&mut self) -> Result<(u64, Look), Busy>
        ensures common { common_of self.new ≡ common_of self.old }
        ensures chair { self.new.chair ≡ self.old.chair }
        ensures receipts { self.new.receipts ≡ self.old.receipts }
        ensures found { IsFoundIn IsOldest
            (user_tree self.old) (rested self.old) result (known_to self.new) }
        ensures once { TriedShut self.old.walker self.new.walker }
        ensures paused { IsPaused self.new.walker }
    {
        self.walker.try_oldest(&self.common.tree)
    }
}

/// What C gets of a check under the lock. The receipt of it is kept.
fn form_told(found: Result<(Form, Look), Busy>, receipts: &mut Receipts) -> (OutForm, u32)
    ensures tells { TellsForm result.1 result.0 found }
    ensures kept { receipts.new ≡ when_found found receipts.old }
{
    match found {
        Ok((form, look)) => {
            receipts.looked = Some(look);
            (out_form(&form), 0)
        }
        Err(busy) => {
            receipts.locked = Some(busy);
            (no_form(), EAGAIN)
        }
    }
}

/// How nodes are used, as C has it.
fn out_stats(stats: Stats) -> OutStats
    ensures { result ≡ defined.out_stats stats }
{
    OutStats {
        rows: stats.rows,
        free: stats.free,
        live: stats.live,
        held: stats.held,
        height: stats.height,
        calls: stats.calls,
    }
}

/// What C gets of how nodes are used. The receipt of the look is kept.
fn stats_told(found: Result<(Stats, Look), Busy>, receipts: &mut Receipts) -> (OutStats, u32)
    ensures tells { TellsStats result.1 result.0 found }
    ensures kept { receipts.new ≡ when_found found receipts.old }
{
    match found {
        Ok((stats, look)) => {
            receipts.looked = Some(look);
            (out_stats(stats), 0)
        }
        Err(busy) => {
            receipts.locked = Some(busy);
            (no_stats(), EAGAIN)
        }
    }
}

/// What C gets of a number of calls. The receipt of the look is kept.
fn calls_told(found: Result<(u64, Look), Busy>, receipts: &mut Receipts) -> (u64, u32)
    ensures tells { TellsCalls result.1 result.0 found }
    ensures kept { receipts.new ≡ when_found found receipts.old }
{
    match found {
        Ok((calls, look)) => {
            receipts.looked = Some(look);
            (calls, 0)
        }
        Err(busy) => {
            receipts.locked = Some(busy);
            (0, EAGAIN)
        }
    }
}

impl User {
    /// What C gets of a check, if the lock is free.
    #[tactic(auto, using(crate::proofs::Looking::form_told))]
    fn check_told(&mut self) -> (OutForm, u32)
        ensures common { common_of self.new ≡ common_of self.old }
        ensures found { HasFoundOrTaken IsFormBehind
            (TellsForm result.1 result.0) self.old self.new }
    {
        let found = self.try_check();
        form_told(found, &mut self.receipts)
    }

    /// What C gets of how nodes are used, if the lock is free.
    #[tactic(auto, using(crate::proofs::Looking::stats_told))]
    fn stats_told(&mut self) -> (OutStats, u32)
        ensures common { common_of self.new ≡ common_of self.old }
        ensures found { HasFoundOrTaken IsStatsOf (TellsStats result.1 result.0) self.old self.new }
    {
        let found = self.try_stats();
        stats_told(found, &mut self.receipts)
    }

    /// What C gets of the sections that are open, if the lock is free.
    #[tactic(auto, using(crate::proofs::Looking::calls_told))]
    fn oldest_told(&mut self) -> (u64, u32)
        ensures common { common_of self.new ≡ common_of self.old }
        ensures found { HasFoundOrTaken IsOldest (TellsCalls result.1 result.0) self.old self.new }
    {
        let found = self.try_oldest();
        calls_told(found, &mut self.receipts)
    }
}

/// Tests the words of a shared tree, and returns its form, if its lock is free.
#[tactic(auto, using(crate::proofs::Looking::checked_open, crate::proofs::Looking::checked_closed))]
#[unsafe(no_mangle)]
pub extern "C" fn maple_shared_check(
    alloc: Global,
    user: &mut UserHandle,
    form: &mut OutForm,
) -> u32
    ensures { SharedChecked user.old user.new result form.new }
{
    let Some(mut whole) = user.take(alloc) else {
        *form = no_form();
        return user.refusal();
    };
    let (told, status) = whole.check_told();
    user.put(whole);
    *form = told;
    status
}

/// Tells how a shared tree uses its nodes, if its lock is free.
#[tactic(auto, using(crate::proofs::Looking::stats_open, crate::proofs::Looking::stats_closed))]
#[unsafe(no_mangle)]
pub extern "C" fn maple_shared_stats(
    alloc: Global,
    user: &mut UserHandle,
    stats: &mut OutStats,
) -> u32
    ensures { SharedStats user.old user.new result stats.new }
{
    let Some(mut whole) = user.take(alloc) else {
        *stats = no_stats();
        return user.refusal();
    };
    let (told, status) = whole.stats_told();
    user.put(whole);
    *stats = told;
    status
}

/// Returns how many calls had ended at least when a section that is open was opened, if the lock is free. If none is open, it
/// is the number of all calls.
#[tactic(auto, using(crate::proofs::Looking::oldest_open, crate::proofs::Looking::oldest_closed))]
#[unsafe(no_mangle)]
pub extern "C" fn maple_oldest(alloc: Global, user: &mut UserHandle, calls: &mut u64) -> u32
    ensures { SharedOldest user.old user.new result calls.new }
{
    let Some(mut whole) = user.take(alloc) else {
        *calls = 0;
        return user.refusal();
    };
    let (told, status) = whole.oldest_told();
    user.put(whole);
    *calls = told;
    status
}
