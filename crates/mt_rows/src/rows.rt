ghost use Rattle.std.specs.Prelude.{◌≡◌, ◌≤◌, ◌+◌, length, min};
ghost use Rattle.mt_base.specs.declared.kinds.Kind.{Kind};
ghost use Rattle.mt_base.specs.Width.{columns};
ghost use Rattle.mt_rows.specs.Drafts.{AreDrafted};
ghost use Rattle.mt_rows.specs.Publish.{MayPublish, Published, MayFinish, finished};
ghost use Rattle.mt_rows.specs.Sheet.{Sheet, IsWhole, IsPlace, word_at, loaded, MayBegin, begun, IsScan, scanned};
ghost use Rattle.mt_rows.specs.Sheet.{IsFree, life_of, drafted, MayBury, after_bury, MayTend, tended};

use mt_base::{Call, Holder, Reply, Width};

/// Where a word is published: the root word, or a slot column of a live node.
#[derive(Clone, Copy, Debug, PartialEq, Eq)]
pub enum Place {
    Root,
    Slot { row: u32, col: u32 },
}

/// What has become of a node.
#[derive(Clone, Copy, Debug, PartialEq, Eq)]
pub enum Life {
    /// It was never used.
    New,
    /// It is being written, and no reader can reach it.
    Draft,
    /// It was published.
    Live,
    /// The call of this number took it out of the tree.
    Dead(u64),
}

/// What a scan of all section words found: the least epoch at which a section is open, and whose it is.
#[derive(Clone, Copy, Debug, PartialEq, Eq)]
pub struct Scan {
    pub least: u64,
    pub by: Option<Holder>,
}

/// The words of a tree's nodes, and what has become of each node. No call is refused.
///
/// All meanings are one record, the `sheet`, and what a call leaves is one equation on it.
pub trait Rows {
    ghost sheet: { Self → Sheet };

    /// The number of nodes.
    fn size(&self) -> u64
        ensures { result ≡ (sheet self.now).tree.rows };

    /// How wide the words are.
    fn width(&self) -> Width
        ensures { result ≡ (sheet self.now).tree.table.width };

    /// A column of a node.
    fn load(&mut self, row: u32, col: u32) -> u64
        requires { IsPlace (sheet self.old).tree row col }
        ensures word { result ≡ word_at (sheet self.old).tree row col }
        ensures rest { sheet self.new ≡ loaded (sheet self.old) };

    /// The root word.
    fn root(&mut self) -> u64
        ensures word { result ≡ (sheet self.old).tree.root }
        ensures rest { sheet self.new ≡ loaded (sheet self.old) };

    /// Begins a call, and gives its number.
    fn begin(&mut self) -> u64
        requires { MayBegin (sheet self.old) }
        ensures number { result ≡ (sheet self.old).ended + 1 }
        ensures rest { sheet self.new ≡ begun (sheet self.old) };

    /// Loads every section word, and raises `cleared` by what was found. Where nobody else reads, no section is open.
    fn scan(&mut self) -> Scan
        ensures answer { IsScan (sheet self.old).shared (sheet self.old).told result }
        ensures rest { sheet self.new ≡ scanned (sheet self.old) result (sheet self.new).cleared }
        ensures kept { (sheet self.old).cleared ≤ (sheet self.new).cleared }
        ensures cleared { min result.least (sheet self.old).ended ≤ (sheet self.new).cleared };

    /// Writes a column of a node that may be written again. The node is then a draft (not yet published).
    fn draft(&mut self, row: u32, col: u32, word: u64)
        requires place { IsPlace (sheet self.old).tree row col }
        requires free { IsFree (sheet self.old).cleared (life_of (sheet self.old).lives row) }
        ensures { sheet self.new ≡ drafted (sheet self.old) row col word };

    /// Writes all columns of a node that may be written again. The node is then a draft (not yet published).
    fn draft_row(&mut self, row: u32, words: &[u64])
        requires place { IsPlace (sheet self.old).tree row 0 }
        requires columns { length words.now ≡ columns (sheet self.old).tree.table.width }
        requires free { IsFree (sheet self.old).cleared (life_of (sheet self.old).lives row) }
        ensures { AreDrafted row 0 words.now (sheet self.old) (sheet self.new) };

    /// Stores the dead mark of a live node that the call in flight replaces.
    fn bury(&mut self, row: u32)
        requires { MayBury (sheet self.old) row }
        ensures { sheet self.new ≡ after_bury (sheet self.old) row };

    /// Writes the parent word of a live node, or the longest hole below one of its items.
    fn tend(&mut self, row: u32, col: u32, word: u64)
        requires { MayTend (sheet self.old) row col word }
        ensures { sheet self.new ≡ tended (sheet self.old) row col word };

    /// Publishes the call in flight: stores a word at a place. With this one store (the linearization point of the write) the
    /// words represent the map after the call. The drafts that are then reached are live, and the nodes marked dead are dead by
    /// this call.
    fn publish(&mut self, place: Place, word: u64, call: &Call, reply: &Reply)
        requires { (kind : Kind) × MayPublish kind (sheet self.old) place word call.now reply.now }
        ensures { Published (sheet self.old) (sheet self.new) place word call.now reply.now };

    /// Ends the call in flight. Where nothing was published this is its event, and it left the map as it was: by its reply, or
    /// since it was refused for lack of nodes.
    fn finish(&mut self, call: &Call, reply: &Reply)
        requires { (kind : Kind) × MayFinish kind (sheet self.old) call.now reply.now }
        ensures { sheet self.new ≡ finished (sheet self.old) call.now reply.now };

    // Every table of rows is whole.
    ghost whole: { (rows : Self) → IsWhole (sheet rows) };
}
