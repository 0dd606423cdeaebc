//! The steps of the pen, by which a call of the joined handle works on the nodes.

ghost use Rattle.std.specs.Prelude.{◌≡◌, ◌+◌, ◌<◌, false, if◌then◌else◌};
ghost use Rattle.mt_base.specs.Width.{kind_width};
ghost use Rattle.mt_rows.specs.Publish.{MayPublish, Published};
ghost use Rattle.mt_rows.specs.Sheet.{IsFree, IsPlace, IsWhole, MayBury, MayTend, life_of};
ghost use Rattle.mt_rule.specs.Ends.{MayEnd};
ghost use Rattle.mt_rule.specs.Places.{IsSectionWord, IsWordPlace, section_word, word_of_place};
ghost use Rattle.mt_rule.specs.Seats.{rooted_in, pen_sheet, least_number};
ghost use Rattle.mt_rule.specs.Steps.{pen_begun, pen_buried, pen_drafted, pen_ended, pen_scanned, pen_tended, pass_ended, quiet_moment, WasPublished};
ghost use Rattle.mt_rule.specs.Tokens.{identity_of, pen_in, IsPenOf, IsJoined, KeepsPassOf, joined_part, joined_turn};
ghost use Rattle.mt_base.specs.Limits.{most_calls};

use crate::pens::Pen;
use crate::rule::{
    Announced, BeginsCall, Buries, Drafts, EndsCall, FindsDrafted, LoadsSection, Looks,
    LooksAtRoot, Publishes, Tends,
};
use crate::table::{BEGUN, COMMITS, MtTable, ROOT, section_index};
use crate::wide::OfWidth;
use mt_base::{Call, Reply};
use mt_layout::parent_word;
use mt_rows::Place;
use std::marker::Brand;

/// Loads, which change nothing but what the pen knows of sections.
impl MtTable {
    /// The word at a place, which may be any column of a node.
    pub fn load_word<K: OfWidth>(&self, pen: &mut Pen, at: Place) -> u64
        requires wide { K.wide ≡ kind_width (identity_of self.now).shape.kind }
        requires pen { IsPenOf (identity_of self.now) pen.old }
        requires joined { IsJoined pen.old }
        requires place { IsWordPlace (rooted_in (pen_in pen.old)) at }
        ensures on { KeepsPassOf (identity_of self.now) pen.old pen.new }
        ensures pen { pen_in pen.new ≡ pen_in pen.old }
        ensures word { result ≡ word_of_place (rooted_in (pen_in pen.old)) at }
    {
        match at {
            Place::Root => self.table.shared.load::<LooksAtRoot>(&mut pen.seat, ROOT),
            Place::Slot { row, col } => {
                let word = self.column_index::<K>(row, col);
                self.table.shared.load::<Looks>(&mut pen.seat, word)
            }
        }
    }

    /// The section word of a handle: 0 if its section is closed, else twice its epoch and one.
    pub fn load_section(&self, pen: &mut Pen, pass: u32) -> u64
        requires pen { IsPenOf (identity_of self.now) pen.old }
        requires joined { IsJoined pen.old }
        requires pass { pass < (pen_in pen.old).shape.passes }
        ensures on { KeepsPassOf (identity_of self.now) pen.old pen.new }
        ensures pen { pen_in pen.new ≡ pen_scanned pass result (pen_in pen.old) }
        ensures epoch { IsSectionWord (pen_in pen.old).ended result }
        ensures own { (joined_part pen.old).number ≡ pass → result ≡ section_word (joined_part pen.old).standing }
    {
        self.load_section_of::<Brand>(pen, pass)
    }

    fn load_section_of<M: Announced>(&self, pen: &mut Pen, pass: u32) -> u64
        requires pen { IsPenOf (identity_of self.now) pen.old }
        requires joined { IsJoined pen.old }
        requires pass { pass < (pen_in pen.old).shape.passes }
        requires announced { M.number ≡ pass }
        ensures on { KeepsPassOf (identity_of self.now) pen.old pen.new }
        ensures pen { pen_in pen.new ≡ pen_scanned pass result (pen_in pen.old) }
        ensures epoch { IsSectionWord (pen_in pen.old).ended result }
        ensures own { (joined_part pen.old).number ≡ pass → result ≡ section_word (joined_part pen.old).standing }
    {
        self.table
            .shared
            .load::<LoadsSection<M>>(&mut pen.seat, section_index(pass))
    }
}

/// Stores.
impl MtTable {
    /// Begins a call, and gives its number.
    pub fn store_begun(&self, pen: &mut Pen) -> u64
        requires pen { IsPenOf (identity_of self.now) pen.old }
        requires joined { IsJoined pen.old }
        requires idle { (pen_in pen.old).in_flight ≡ false }
        requires room { (pen_in pen.old).ended < most_calls }
        ensures on { KeepsPassOf (identity_of self.now) pen.old pen.new }
        ensures pen { pen_in pen.new ≡ pen_begun (pen_in pen.old) }
        ensures number { result ≡ (pen_in pen.old).ended + 1 }
    {
        let number = pen.ended + 1;
        self.table
            .shared
            .store::<BeginsCall>(&mut pen.seat, BEGUN, number);
        number
    }

    /// Writes a column of a node that no reader can be at. The node is then a draft. A column that holds the word already is
    /// only loaded, which is quicker.
    pub fn draft<K: OfWidth>(&self, pen: &mut Pen, row: u32, col: u32, word: u64)
        requires wide { K.wide ≡ kind_width (identity_of self.now).shape.kind }
        requires pen { IsPenOf (identity_of self.now) pen.old }
        requires joined { IsJoined pen.old }
        requires place { IsPlace (rooted_in (pen_in pen.old)) row col }
        requires free { IsFree (least_number (pen_in pen.old).cleared) (life_of (pen_in pen.old).lives row) }
        ensures on { KeepsPassOf (identity_of self.now) pen.old pen.new }
        ensures pen { pen_in pen.new ≡ pen_drafted row col word (pen_in pen.old) }
    {
        if !self.finds_drafted::<Brand, K>(pen, row, col, word) {
            self.draft_at::<Brand, K>(pen, row, col, word);
        }
    }

    /// Whether a column of a node that no reader can be at holds a word already. Where it does, the node is then a draft.
    fn finds_drafted<M: Announced, K: OfWidth>(
        &self,
        pen: &mut Pen,
        row: u32,
        col: u32,
        word: u64,
    ) -> bool
        requires wide { K.wide ≡ kind_width (identity_of self.now).shape.kind }
        requires pen { IsPenOf (identity_of self.now) pen.old }
        requires joined { IsJoined pen.old }
        requires place { IsPlace (rooted_in (pen_in pen.old)) row col }
        requires free { IsFree (least_number (pen_in pen.old).cleared) (life_of (pen_in pen.old).lives row) }
        requires announced { (M.number ≡ row) × (M.column ≡ col) × (M.word ≡ word) }
        ensures on { KeepsPassOf (identity_of self.now) pen.old pen.new }
        ensures pen { pen_in pen.new ≡ (if result then pen_drafted row col word (pen_in pen.old) else pen_in pen.old) }
    {
        let at = self.column_index::<K>(row, col);
        let found = self.table.shared.load::<FindsDrafted<M>>(&mut pen.seat, at);
        found == word
    }

    fn draft_at<M: Announced, K: OfWidth>(&self, pen: &mut Pen, row: u32, col: u32, word: u64)
        requires wide { K.wide ≡ kind_width (identity_of self.now).shape.kind }
        requires pen { IsPenOf (identity_of self.now) pen.old }
        requires joined { IsJoined pen.old }
        requires place { IsPlace (rooted_in (pen_in pen.old)) row col }
        requires free { IsFree (least_number (pen_in pen.old).cleared) (life_of (pen_in pen.old).lives row) }
        requires announced { (M.number ≡ row) × (M.column ≡ col) }
        ensures on { KeepsPassOf (identity_of self.now) pen.old pen.new }
        ensures pen { pen_in pen.new ≡ pen_drafted row col word (pen_in pen.old) }
    {
        let at = self.column_index::<K>(row, col);
        self.table
            .shared
            .store::<Drafts<M>>(&mut pen.seat, at, word);
    }

    /// Stores the dead mark of a live node that the call in flight replaces.
    pub fn bury<K: OfWidth>(&self, pen: &mut Pen, row: u32)
        requires wide { K.wide ≡ kind_width (identity_of self.now).shape.kind }
        requires pen { IsPenOf (identity_of self.now) pen.old }
        requires joined { IsJoined pen.old }
        requires may { MayBury (pen_sheet (pen_in pen.old)) row }
        ensures on { KeepsPassOf (identity_of self.now) pen.old pen.new }
        ensures pen { pen_in pen.new ≡ pen_buried row (pen_in pen.old) }
    {
        self.bury_at::<Brand, K>(pen, row);
    }

    fn bury_at<M: Announced, K: OfWidth>(&self, pen: &mut Pen, row: u32)
        requires wide { K.wide ≡ kind_width (identity_of self.now).shape.kind }
        requires pen { IsPenOf (identity_of self.now) pen.old }
        requires joined { IsJoined pen.old }
        requires may { MayBury (pen_sheet (pen_in pen.old)) row }
        requires announced { M.number ≡ row }
        ensures on { KeepsPassOf (identity_of self.now) pen.old pen.new }
        ensures pen { pen_in pen.new ≡ pen_buried row (pen_in pen.old) }
    {
        let at = self.column_index::<K>(row, 0);
        self.table
            .shared
            .store::<Buries<M>>(&mut pen.seat, at, parent_word(row, 0));
    }

    /// Writes the parent word of a live node, or the longest hole below one of its items. A column that holds the word already
    /// is only loaded.
    pub fn tend<K: OfWidth>(&self, pen: &mut Pen, row: u32, col: u32, word: u64)
        requires wide { K.wide ≡ kind_width (identity_of self.now).shape.kind }
        requires pen { IsPenOf (identity_of self.now) pen.old }
        requires joined { IsJoined pen.old }
        requires may { MayTend (pen_sheet (pen_in pen.old)) row col word }
        ensures on { KeepsPassOf (identity_of self.now) pen.old pen.new }
        ensures pen { pen_in pen.new ≡ pen_tended row col word (pen_in pen.old) }
    {
        if self.load_word::<K>(pen, Place::Slot { row, col }) != word {
            self.tend_at::<Brand, K>(pen, row, col, word);
        }
    }

    fn tend_at<M: Announced, K: OfWidth>(&self, pen: &mut Pen, row: u32, col: u32, word: u64)
        requires wide { K.wide ≡ kind_width (identity_of self.now).shape.kind }
        requires pen { IsPenOf (identity_of self.now) pen.old }
        requires joined { IsJoined pen.old }
        requires may { MayTend (pen_sheet (pen_in pen.old)) row col word }
        requires announced { (M.number ≡ row) × (M.column ≡ col) }
        ensures on { KeepsPassOf (identity_of self.now) pen.old pen.new }
        ensures pen { pen_in pen.new ≡ pen_tended row col word (pen_in pen.old) }
    {
        let at = self.column_index::<K>(row, col);
        self.table.shared.store::<Tends<M>>(&mut pen.seat, at, word);
    }

    /// Stores a word at a place, which is the event of the call in flight: it is the next of the history.
    pub fn publish<K: OfWidth>(
        &self,
        pen: &mut Pen,
        place: Place,
        word: u64,
        call: &Call,
        reply: &Reply,
    )
        requires wide { K.wide ≡ kind_width (identity_of self.now).shape.kind }
        requires pen { IsPenOf (identity_of self.now) pen.old }
        requires joined { IsJoined pen.old }
        requires may { MayPublish (pen_in pen.old).shape.kind (pen_sheet (pen_in pen.old)) place word call.now reply.now }
        ensures of { IsPenOf (identity_of self.now) pen.new }
        ensures joined { IsJoined pen.new }
        ensures rows { Published (pen_sheet (pen_in pen.old)) (pen_sheet (pen_in pen.new)) place word call.now reply.now }
        ensures whole { IsWhole (pen_sheet (pen_in pen.new)) }
        ensures recorded { WasPublished call.now reply.now (pen_in pen.old) (joined_part pen.old) (pen_in pen.new) (joined_part pen.new) }
        ensures turn { joined_turn pen.new ≡ joined_turn pen.old }
    {
        self.publish_announced::<Brand, K>(pen, place, word, call, reply);
    }

    fn publish_announced<M: Announced, K: OfWidth>(
        &self,
        pen: &mut Pen,
        place: Place,
        word: u64,
        call: &Call,
        reply: &Reply,
    )
        requires wide { K.wide ≡ kind_width (identity_of self.now).shape.kind }
        requires pen { IsPenOf (identity_of self.now) pen.old }
        requires joined { IsJoined pen.old }
        requires may { MayPublish (pen_in pen.old).shape.kind (pen_sheet (pen_in pen.old)) place word call.now reply.now }
        requires announced { (M.place ≡ place) × (M.call ≡ call.now) × (M.reply ≡ reply.now) }
        ensures of { IsPenOf (identity_of self.now) pen.new }
        ensures joined { IsJoined pen.new }
        ensures rows { Published (pen_sheet (pen_in pen.old)) (pen_sheet (pen_in pen.new)) place word call.now reply.now }
        ensures whole { IsWhole (pen_sheet (pen_in pen.new)) }
        ensures recorded { WasPublished call.now reply.now (pen_in pen.old) (joined_part pen.old) (pen_in pen.new) (joined_part pen.new) }
        ensures turn { joined_turn pen.new ≡ joined_turn pen.old }
    {
        let at = match place {
            Place::Root => ROOT,
            Place::Slot { row, col } => self.column_index::<K>(row, col),
        };
        self.table
            .shared
            .store::<Publishes<M>>(&mut pen.seat, at, word);
    }

    /// Ends the call in flight. Where nothing was published this is its event: its reply is what the map answers, which it
    /// leaves, or says that nodes are short, as a scan has found.
    pub fn store_commits(&self, pen: &mut Pen, call: &Call, reply: &Reply)
        requires pen { IsPenOf (identity_of self.now) pen.old }
        requires joined { IsJoined pen.old }
        requires may { MayEnd (pen_in pen.old) call.now reply.now }
        ensures of { IsPenOf (identity_of self.now) pen.new }
        ensures joined { IsJoined pen.new }
        ensures pen { pen_in pen.new ≡ pen_ended (quiet_moment (pen_in pen.old) (joined_part pen.old) call.now reply.now) (pen_in pen.old) }
        ensures pass { joined_part pen.new
            ≡ pass_ended (quiet_moment (pen_in pen.old) (joined_part pen.old) call.now reply.now) (pen_in pen.old) (joined_part pen.old) }
        ensures turn { joined_turn pen.new ≡ joined_turn pen.old }
    {
        self.store_announced::<Brand>(pen, call, reply);
    }

    fn store_announced<M: Announced>(&self, pen: &mut Pen, call: &Call, reply: &Reply)
        requires pen { IsPenOf (identity_of self.now) pen.old }
        requires joined { IsJoined pen.old }
        requires may { MayEnd (pen_in pen.old) call.now reply.now }
        requires announced { (M.call ≡ call.now) × (M.reply ≡ reply.now) }
        ensures of { IsPenOf (identity_of self.now) pen.new }
        ensures joined { IsJoined pen.new }
        ensures pen { pen_in pen.new ≡ pen_ended (quiet_moment (pen_in pen.old) (joined_part pen.old) call.now reply.now) (pen_in pen.old) }
        ensures pass { joined_part pen.new
            ≡ pass_ended (quiet_moment (pen_in pen.old) (joined_part pen.old) call.now reply.now) (pen_in pen.old) (joined_part pen.old) }
        ensures turn { joined_turn pen.new ≡ joined_turn pen.old }
    {
        pen.ended += 1;
        self.table
            .shared
            .store::<EndsCall<M>>(&mut pen.seat, COMMITS, pen.ended);
    }
}
