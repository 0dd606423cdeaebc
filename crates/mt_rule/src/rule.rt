//! The rule of a tree's table, how its seats' views are split and joined, and what a step shows.

ghost use Rattle.std.specs.Prelude.{◌≡◌, ℕ};
ghost use Rattle.mt_base.specs.declared.calls.Call.{Call};
ghost use Rattle.mt_base.specs.declared.calls.Call.TheVariants as calls;
ghost use Rattle.mt_base.specs.declared.replies.Reply.{Reply};
ghost use Rattle.mt_base.specs.declared.replies.Reply.TheVariants as replies;
ghost use Rattle.mt_rows.specs.declared.rows.Place.{Place};
ghost use Rattle.mt_rows.specs.declared.rows.Place.TheVariants.{Root};

use crate::views::{TableStart, View};
use atomic_table::{Join, Play, Split, TableRule};
use std::marker::{Brand, PhantomData};

/// A tree has one history, of which every handle and every note knows a beginning. Its words represent the map after it. The
/// nodes that a section holds have the pivots and the empty slots that they had when it reached them.
pub struct Ruled;

impl TableRule<(), View, TableStart> for Ruled {
    ghost use Rattle.mt_rule.specs.Rule.{IsKept};
    ghost use Rattle.mt_rule.specs.Seats.{opening_view};

    ghost holds = { IsKept };

    ghost first = { opening_view };
}

/// What a step announces.
pub trait Announced {
    ghost call: { Call };

    ghost reply: { Reply };

    ghost place: { Place };

    ghost number: { ℕ };

    ghost column: { ℕ };

    ghost word: { ℕ };
}

impl Announced for Brand {
    ghost call = { calls.Clear };

    ghost reply = { replies.Ok };

    ghost place = { Root };

    ghost number = { 0 };

    ghost column = { 0 };

    ghost word = { 0 };
}

/// The pen deals the next handle.
pub(crate) struct Deals;

impl Split<View> for Deals {
    ghost use Rattle.mt_rule.specs.Seats.{dealing_view, dealt_view};

    ghost left = { dealing_view };

    ghost right = { dealt_view };
}

/// A handle's part is laid beside the pen's.
pub(crate) struct JoinsPass;

impl Join<View> for JoinsPass {
    ghost use Rattle.mt_rule.specs.Seats.{with_pass, no_view};

    ghost both = { with_pass };

    ghost spent = { no_view };
}

/// And taken away again.
pub(crate) struct PartsPass;

impl Split<View> for PartsPass {
    ghost use Rattle.mt_rule.specs.Seats.{without_pass, pass_alone};

    ghost left = { without_pass };

    ghost right = { pass_alone };
}

/// A note copies what a handle has seen.
pub(crate) struct CopiesSeen;

impl Split<View> for CopiesSeen {
    ghost use Rattle.mt_rule.specs.Seats.{note_alone};

    ghost left = { λ v. v };

    ghost right = { note_alone };
}

/// A note's part is laid beside a handle's.
pub(crate) struct JoinsNote;

impl Join<View> for JoinsNote {
    ghost use Rattle.mt_rule.specs.Seats.{with_note, no_view};

    ghost both = { with_note };

    ghost spent = { no_view };
}

/// A handle beside the pen sees the whole history.
pub(crate) struct SeesAll;

impl Play<(), View> for SeesAll {
    ghost use Rattle.mt_rule.specs.Steps.{sees_all};

    ghost then = { sees_all };
}

/// A handle learns what the note beside it holds.
pub(crate) struct Learns;

impl Play<(), View> for Learns {
    ghost use Rattle.mt_rule.specs.Steps.{learns};

    ghost then = { learns };
}

/// The pen loads a column.
pub(crate) struct Looks;

impl Play<(), View> for Looks {
    ghost use Rattle.mt_rule.specs.Steps.{looks};

    ghost then = { looks };
}

/// The pen loads the root word.
pub(crate) struct LooksAtRoot;

impl Play<(), View> for LooksAtRoot {
    ghost use Rattle.mt_rule.specs.Steps.{looks_at_root};

    ghost then = { looks_at_root };
}

/// The pen loads the section word of a handle.
pub(crate) struct LoadsSection<M> {
    announced: PhantomData<M>,
}

impl<M: Announced> Play<(), View> for LoadsSection<M> {
    ghost use Rattle.mt_rule.specs.Steps.{loads_section};

    ghost then = { loads_section M.number };
}

/// A call begins.
pub(crate) struct BeginsCall;

impl Play<(), View> for BeginsCall {
    ghost use Rattle.mt_rule.specs.Steps.{begins_call};

    ghost then = { begins_call };
}

/// A column of a draft is loaded, which may hold its word already.
pub(crate) struct FindsDrafted<M> {
    announced: PhantomData<M>,
}

impl<M: Announced> Play<(), View> for FindsDrafted<M> {
    ghost use Rattle.mt_rule.specs.Steps.{finds_drafted};

    ghost then = { finds_drafted M.number M.column M.word };
}

/// A column of a draft is written.
pub(crate) struct Drafts<M> {
    announced: PhantomData<M>,
}

impl<M: Announced> Play<(), View> for Drafts<M> {
    ghost use Rattle.mt_rule.specs.Steps.{drafts};

    ghost then = { drafts M.number M.column };
}

/// A live node is given its dead mark.
pub(crate) struct Buries<M> {
    announced: PhantomData<M>,
}

impl<M: Announced> Play<(), View> for Buries<M> {
    ghost use Rattle.mt_rule.specs.Steps.{buries};

    ghost then = { buries M.number };
}

/// A parent word or a gap word of a live node is written.
pub(crate) struct Tends<M> {
    announced: PhantomData<M>,
}

impl<M: Announced> Play<(), View> for Tends<M> {
    ghost use Rattle.mt_rule.specs.Steps.{tends};

    ghost then = { tends M.number M.column };
}

/// A call publishes.
pub(crate) struct Publishes<M> {
    announced: PhantomData<M>,
}

impl<M: Announced> Play<(), View> for Publishes<M> {
    ghost use Rattle.mt_rule.specs.Steps.{publishes};

    ghost then = { publishes M.place M.call M.reply };
}

/// A call ends.
pub(crate) struct EndsCall<M> {
    announced: PhantomData<M>,
}

impl<M: Announced> Play<(), View> for EndsCall<M> {
    ghost use Rattle.mt_rule.specs.Steps.{ends_call};

    ghost then = { ends_call M.call M.reply };
}

/// A handle opens a section.
pub(crate) struct OpensSection;

impl Play<(), View> for OpensSection {
    ghost use Rattle.mt_rule.specs.Sections.{opens_section};

    ghost then = { opens_section };
}

/// A handle closes its section.
pub(crate) struct ClosesSection;

impl Play<(), View> for ClosesSection {
    ghost use Rattle.mt_rule.specs.Sections.{closes_section};

    ghost then = { closes_section };
}

/// What a handle loads, and what it then knows: by the word's place, what was found there, and the handle before and after.
pub(crate) trait Loads {
    ghost use Rattle.mt_rule.specs.declared.views.PassPart.{PassPart};

    ghost tells: { ℕ → ℕ → PassPart → PassPart → Type 0 };
}

/// A handle loads a word.
pub(crate) struct LoadsWord<T> {
    loaded: PhantomData<T>,
}

impl<T: Loads> Play<(), View> for LoadsWord<T> {
    ghost use Rattle.mt_rule.specs.Sections.{loads_word};

    ghost then = { loads_word T.tells };
}

impl Loads for Brand {
    ghost use Rattle.mt_rule.specs.Sections.{touches};

    ghost tells = { touches };
}

/// The parent word of a node.
pub(crate) struct ParentWord<M> {
    announced: PhantomData<M>,
}

impl<M: Announced> Loads for ParentWord<M> {
    ghost use Rattle.mt_rule.specs.Sections.{LoadedParent};

    ghost tells = { LoadedParent M.number };
}
