ghost use Rattle.std.specs.Prelude.{◌≡◌, length};
ghost use Rattle.mt_rows.specs.Plain.{IsPlainState};

use crate::fates::{Fate, Fates};
use crate::reads::Reads;
use crate::row_widths::RowWidth;
use crate::rows::{Place, Rows, Scan};
use crate::words::{Words, clear_first};
use mt_base::{Call, FIRST_ROW, NoMemory, Reply, Width, cols};
use mt_layout::parent_word;
use std::alloc::Global;

/// What rows in memory keep.
#[derive(Drop)]
struct State {
    rows: u64,
    width: RowWidth,
    words: Words,
    root: u64,
    fates: Fates,
    ended: u64,
    in_flight: bool,
    published: bool,
    cleared: u64,
    scan: Scan,
    scans: u64,
    reads: Reads,
}

/// Nodes in memory that nobody else reads.
#[derive(Drop)]
pub struct PlainRows {
    state: State,
    ghost plain: { IsPlainState state },
}

impl PlainRows {
    ghost use Rattle.std.specs.Prelude.{◌≡◌, ℕ, ◌+◌, ◌*◌, ◌/◌, ◌%◌, ◌<◌, ◌≤◌, IfOk, true, false, length, slice_index};
    ghost use Rattle.mt_base.specs.declared.kinds.Kind.{Kind};
    ghost use Rattle.mt_base.specs.declared.widths.Width.TheVariants.{Long};
    ghost use Rattle.mt_base.specs.Width.{columns, first_row, most_rows};
    ghost use Rattle.mt_rows.specs.OfWords.{IsMadeOf};
    ghost use Rattle.mt_rows.specs.Plain.{new_sheet, IsPlaceOfTree};
    ghost use Rattle.mt_rows.specs.Drafts.{AreDrafted};
    ghost use Rattle.mt_rows.specs.Memory.{sheet_in};
    ghost use Rattle.mt_rows.specs.Publish.{MayPlant, Planted, with_published};
    ghost use Rattle.mt_rows.specs.Sheet.{IsPlace, IsFree, life_of};

    /// So many wide nodes, none of which was ever used, and an empty tree. There are `MOST_ROWS` at most.
    ///
    /// # Errors
    ///
    /// `NoMemory` where memory ran out.
    pub fn new(alloc: Global, rows: u64) -> Result<PlainRows, NoMemory>
        requires { rows ≤ most_rows }
        ensures { IfOk result (λ p. sheet_in p ≡ new_sheet Long rows) }
    {
        PlainRows::of_width(alloc, Width::Long, rows)
    }

    /// As `new`, but of nodes of this width.
    ///
    /// # Errors
    ///
    /// `NoMemory` where memory ran out.
    pub fn of_width(alloc: Global, width: Width, rows: u64) -> Result<PlainRows, NoMemory>
        requires { rows ≤ most_rows }
        ensures { IfOk result (λ p. sheet_in p ≡ new_sheet width rows) }
    {
        let numbers = FIRST_ROW as usize + rows as usize;
        let wide = RowWidth::of_width(width);
        let state = State {
            rows,
            width: wide,
            words: Words::new(alloc, cols(width) as usize * numbers)?,
            root: 0,
            fates: Fates::new(numbers),
            ended: 0,
            in_flight: false,
            published: false,
            cleared: 0,
            scan: Scan { least: 0, by: None },
            scans: 0,
            reads: Reads::new(),
        };
        Ok(PlainRows { state })
    }

    /// Nodes with these words, and this root word. Where the words are well-formed, the nodes that are reached are live.
    ///
    /// # Errors
    ///
    /// `NoMemory` where memory ran out.
    pub fn of_words(
        alloc: Global,
        width: Width,
        root: u64,
        words: &[u64],
    ) -> Result<PlainRows, NoMemory>
        requires whole { length words.now % columns width ≡ 0 }
        requires few { length words.now / columns width ≤ most_rows }
        ensures { IfOk result (λ p. IsMadeOf width root words.now (sheet_in p)) }
    {
        let rows = words.len() / cols(width) as usize;
        let mut made = PlainRows::of_width(alloc, width, rows as u64)?;
        made.put_words(width, root, words);
        Ok(made)
    }

    /// Puts words over all nodes of a new table, and a root word. Where the words are well-formed, the nodes that are reached
    /// are live.
    pub fn put_words(&mut self, width: Width, root: u64, words: &[u64])
        requires whole { length words.now % columns width ≡ 0 }
        requires new { sheet_in self.old ≡ new_sheet width (length words.now / columns width) }
        ensures { IsMadeOf width root words.now (sheet_in self.new) }
    {
        let before = cols(width) as usize * FIRST_ROW as usize;
        self.state.words.set_last(before, words);
        self.state.root = root;
        self.state.fates.open(width, &self.state.words, root);
    }

    /// Sets the root word before the first call. The nodes that are reached from it are live then.
    pub fn plant(&mut self, root: u64)
        requires { (kind : Kind) × MayPlant kind (sheet_in self.old) root }
        ensures { Planted (sheet_in self.old) (sheet_in self.new) root }
    {
        let width = self.state.width.width();
        self.state.root = root;
        self.state.fates.open(width, &self.state.words, root);
    }

    /// Writes these words into the columns of a node that may be written again, from a column on. The node is then a draft (not
    /// yet published).
    pub fn draft_columns(&mut self, row: u32, col: u32, words: &[u64])
        requires place { IsPlace (sheet_in self.old).tree row col }
        requires columns { col + length words.now ≤ columns (sheet_in self.old).tree.table.width }
        requires free { IsFree (sheet_in self.old).cleared (life_of (sheet_in self.old).lives row) }
        ensures { AreDrafted row col words.now (sheet_in self.old) (sheet_in self.new) }
    {
        let at = self.state.width.place_of(row, col);
        self.state.words.put(at, words);
        self.state.fates.turn(row, Fate::Draft);
    }

    /// The words of all nodes at their places among a table's words. Those before them are 0.
    pub fn into_words(self) -> Vec<u64>
        ensures size { length result.items ≡ length (sheet_in self).tree.table.words }
        ensures before { (at : ℕ) → at < columns (sheet_in self).tree.table.width * first_row → slice_index result.items at ≡ 0 }
        ensures rows { (at : ℕ) → columns (sheet_in self).tree.table.width * first_row ≤ at
            → slice_index result.items at ≡ slice_index (sheet_in self).tree.table.words at }
    {
        let PlainRows { state } = self;
        let first = cols(state.width.width()) as usize * FIRST_ROW as usize;
        let mut words = state.words.into_vec();
        clear_first(words.as_mut_slice(), first);
        words
    }

    /// Stores a word at a place.
    fn store(&mut self, place: Place, word: u64)
        requires place { IsPlaceOfTree (sheet_in self.old).tree place }
        requires in_flight { (sheet_in self.old).in_flight ≡ true }
        requires before { (sheet_in self.old).published ≡ false }
        ensures { sheet_in self.new ≡ record (sheet_in self.old) { tree = with_published (sheet_in self.old).tree place word } }
    {
        match place {
            Place::Root => self.state.root = word,
            Place::Slot { row, col } => {
                let slot = self.state.width.place_of(row, col);
                self.state.words.set(slot, word);
            }
        }
    }
}

impl Rows for PlainRows {
    ghost use Rattle.std.specs.Prelude.{◌≡◌, ◌≤◌, None, min};
    ghost use Rattle.mt_rows.specs.Sheet.{scanned};
    ghost use Rattle.mt_rows.specs.Memory.{sheet_in};
    ghost use Rattle.mt_rows.specs.PlainWhole.{rows_whole};

    ghost sheet = { sheet_in };

    ghost whole = { rows_whole };

    fn size(&self) -> u64 {
        self.state.rows
    }

    fn width(&self) -> Width {
        self.state.width.width()
    }

    fn load(&mut self, row: u32, col: u32) -> u64 {
        self.state.reads.tick();
        let begin = self.state.width.place_of(row, 0);
        self.state
            .words
            .get_in(begin, self.state.width.cols(), col as usize)
    }

    fn root(&mut self) -> u64 {
        self.state.reads.tick();
        self.state.root
    }

    fn begin(&mut self) -> u64 {
        self.state.in_flight = true;
        self.state.published = false;
        self.state.scans = 0;
        self.state.ended + 1
    }

    fn scan(&mut self) -> Scan
        // As of all rows.
        ensures rest { sheet_in self.new ≡ scanned (sheet_in self.old) result (sheet_in self.new).cleared }
        ensures kept { (sheet_in self.old).cleared ≤ (sheet_in self.new).cleared }
        ensures cleared { min result.least (sheet_in self.old).ended ≤ (sheet_in self.new).cleared }

        // Nobody else reads these rows.
        ensures found { result ≡ record { least = u64.MAX; by = None } }
    {
        self.state.scan = Scan {
            least: u64::MAX,
            by: None,
        };
        self.state.scans = self.state.scans.saturating_add(1);
        self.state.cleared = self.state.ended;
        self.state.scan
    }

    fn draft(&mut self, row: u32, col: u32, word: u64) {
        let at = self.state.width.place_of(row, col);
        self.state.words.set(at, word);
        self.state.fates.turn(row, Fate::Draft);
    }

    fn draft_row(&mut self, row: u32, words: &[u64]) {
        self.draft_columns(row, 0, words);
    }

    fn bury(&mut self, row: u32) {
        // A dead row is its own parent.
        let at = self.state.width.place_of(row, 0);
        self.state.words.set(at, parent_word(row, 0));
        self.state
            .fates
            .turn(row, Fate::Buried(self.state.ended + 1));
    }

    fn tend(&mut self, row: u32, col: u32, word: u64) {
        let at = self.state.width.place_of(row, col);
        self.state.words.set(at, word);
    }

    fn publish(&mut self, place: Place, word: u64, _call: &Call, _reply: &Reply) {
        self.store(place, word);
        let width = self.state.width.width();
        let root = self.state.root;
        self.state.fates.enliven(width, &self.state.words, root);
        self.state.published = true;
    }

    fn finish(&mut self, _call: &Call, _reply: &Reply) {
        self.state.ended += 1;
        self.state.in_flight = false;
        self.state.published = false;
    }
}
