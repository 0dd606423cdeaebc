//! The climb from the leaves to the level at which a replacement ends: nodes are read and drafted, and none is buried.

ghost use Rattle.std.specs.Prelude.{◌≡◌, ◌≢◌, ◌<◌, ◌≤◌, ◌+◌, ◌-◌, ◌*◌, ◌++◌, [], length};
ghost use Rattle.mt_base.specs.Width.{deepest};
ghost use Rattle.mt_layout.specs.Columns.{slot_column};
ghost use Rattle.mt_layout.specs.declared.names.RowKind.TheVariants.{Leaf};
ghost use Rattle.mt_layout.specs.Sizes.{slots_of};
ghost use Rattle.mt_layout.specs.Spans.{spans_from, Apart};
ghost use Rattle.mt_path.specs.Paths.{step_at};
ghost use Rattle.mt_rows.specs.declared.rows.Place.TheVariants.{Slot};
ghost use Rattle.mt_splice.specs.declared.decisions.Next.TheVariants.{Up};
ghost use Rattle.mt_splice.specs.Fewest.{IsCutOf};
ghost use Rattle.mt_splice.specs.steps.Climbing.{HasClimbed, IsClimbing, IsLevelDone, windows_over};

use crate::begun::Begun;
use crate::decisions::{Next, next_of};
use crate::drafting::{Heads, draft_piece, draft_rows};
use crate::gathers::gather_above;
use crate::ways::{Gathered, Level, Pieces, Ways, Windows, step_on, window_on};
use crate::widening::widen;
use crate::writes::NewRows;
use arrayvec::ArrayVec;
use mt_base::Width;
use mt_free::RowBook;
use mt_layout::{Item, RowKind, Run, least_items, slots};
use mt_leaf::{Towards, cut_towards};
use mt_path::Path;
use mt_rows::{Place, Rows};

/// A replacement under way: what will be in the place of a level's window, the kind of the tree's inner nodes, the paths to the
/// window, the windows so far, and the inner nodes that were written.
#[derive(Drop)]
pub struct Climb {
    pub gathered: Gathered,
    pub inner: RowKind,
    pub ways: Ways,
    pub windows: Windows,
    pub made: NewRows,
}

/// Where a replacement is to be published, by which word, and the longest hole below the node that this names.
#[derive(Clone, Copy, Debug, PartialEq, Eq)]
pub struct Top {
    pub place: Place,
    pub word: u64,
    pub gap: u64,
    pub row: u32,
}

/// The nodes of a level, as the items that they are one level up, and how the replacement goes on.
#[derive(Drop)]
struct Drafted {
    heads: Heads,
    next: Next,
}

/// A climb in a tree with inner nodes of this kind. No path is known yet, and nothing is gathered.
pub fn new_climb(inner: RowKind) -> Climb
    ensures left { result.ways.left.items ≡ [] }
    ensures right { result.ways.right.items ≡ [] }
    ensures run { result.gathered.run.items ≡ [] }
    ensures inner { result.inner ≡ inner }
    ensures windows { result.windows.items ≡ [] }
    ensures made { result.made.items ≡ [] }
{
    let (left, right) = (Path::new(), Path::new());
    let run = Run::new();
    // The variant that is 0: so all parts are cleared where they stand, and none is copied.
    let towards = Towards::First;
    Climb {
        gathered: Gathered { run, towards },
        inner,
        ways: Ways { left, right },
        windows: Windows::new(),
        made: NewRows::new(),
    }
}

/// Notes the windows of all levels above this one, from the lowest up.
pub fn push_above(windows: &mut Windows, ways: &Ways, depth: u32)
    requires left { depth ≤ length ways.now.left.items }
    requires right { depth ≤ length ways.now.right.items }
    requires room { length windows.old.items + depth ≤ deepest }
    ensures { windows.new.items ≡ windows.old.items ++ windows_over ways.now.left.items ways.now.right.items depth }
{
    let mut upper = depth;
    while upper > 0 {
        upper -= 1;
        windows.push(window_on(ways, upper));
    }
}

/// The places at which the items are cut into the fewest nodes of this kind.
fn ends_of(width: Width, gathered: &Gathered, kind: RowKind) -> ArrayVec<u32, 3>
    requires some { 1 ≤ length gathered.now.run.items }
    requires few { length gathered.now.run.items + 3 ≤ 3 * slots_of width kind }
    requires apart { kind ≡ Leaf → Apart (spans_from 0 gathered.now.run.items) }
    ensures cut { IsCutOf width kind gathered.now.run.items result.items }
    ensures some { 1 ≤ length result.items }
    ensures few { length result.items ≤ 3 }
{
    cut_towards(
        gathered.run.as_slice(),
        slots(width, kind),
        least_items(width, kind),
        kind == RowKind::Leaf,
        gathered.towards,
    )
}

/// The slot of a path's node on a level above the leaves.
fn slot_on(width: Width, path: &Path, depth: u32, inner: RowKind) -> Place
    requires deep { depth < length path.now.items }
    requires fits { (step_at path.now.items depth).slot < slots_of width inner }
    ensures { result ≡ Slot (step_at path.now.items depth).row (slot_column (slots_of width inner) (step_at path.now.items depth).slot) }
{
    let step = step_on(path, depth);
    Place::Slot {
        row: step.row,
        col: slots(width, inner) + step.slot,
    }
}

/// Drafts the nodes of a level, which it widens where its items are too few.
fn draft_level<R: Rows, B: Begun>(
    rows: &mut R,
    book: &mut RowBook,
    climb: &mut Climb,
    depth: u32,
    kind: RowKind,
) -> Drafted
    requires { IsClimbing B.before B.start (R.sheet rows.old) book.old kind depth climb.old }
    ensures level { IsLevelDone B.before B.start (R.sheet rows.new) book.new depth climb.new result.heads.rows.items result.heads.items.items result.next }
    ensures none_buried { (R.sheet rows.new).buried ≡ (R.sheet rows.old).buried }
    ensures none_retired { book.new.held ≡ book.old.held }
{
    widen::<R, B>(rows, &mut climb.ways, &mut climb.gathered, depth, kind);
    let width = rows.width();
    let window = window_on(&climb.ways, depth);
    let ends = ends_of(width, &climb.gathered, kind);
    let run = &climb.gathered.run;
    let next = next_of(width, &climb.ways, run, depth, kind, ends.len());
    climb.windows.push(window);
    if next == Next::Empty {
        let heads = Heads {
            rows: ArrayVec::new(),
            items: ArrayVec::new(),
        };
        return Drafted { heads, next };
    }
    let level = Level {
        kind,
        above: climb.inner,
    };
    let pieces = Pieces {
        first: window.first.min,
        ends,
    };
    let items = climb.gathered.run.as_slice();
    let heads = draft_rows(rows, book, level, items, &pieces, &mut climb.made);
    Drafted { heads, next }
}

/// What is to be published if the climb ends so. A new node holds the nodes that replace the root, and is drafted too.
fn top_of<R: Rows, B: Begun>(
    rows: &mut R,
    book: &mut RowBook,
    climb: &mut Climb,
    drafted: &Drafted,
    depth: u32,
) -> Top
    requires level { IsLevelDone B.before B.start
        (R.sheet rows.old) book.old depth climb.old drafted.now.heads.rows.items drafted.now.heads.items.items drafted.now.next }
    requires ends { drafted.now.next ≢ Up }
    ensures climbed { HasClimbed B.before B.start (R.sheet rows.new) book.new climb.new result }
    ensures none_buried { (R.sheet rows.new).buried ≡ (R.sheet rows.old).buried }
    ensures none_retired { book.new.held ≡ book.old.held }
{
    let new = drafted.heads.items.as_slice();
    let numbers = drafted.heads.rows.as_slice();
    let place = Place::Root;
    match drafted.next {
        Next::Empty => {
            push_above(&mut climb.windows, &climb.ways, depth);
            let (word, gap, row) = (0, 0, 0);
            Top {
                place,
                word,
                gap,
                row,
            }
        }
        Next::Root => {
            push_above(&mut climb.windows, &climb.ways, depth);
            let (word, gap, row) = (new[0].word, 0, numbers[0]);
            Top {
                place,
                word,
                gap,
                row,
            }
        }
        Next::RootAbove => {
            let (kind, above) = (climb.inner, climb.inner);
            let level = Level { kind, above };
            let root = draft_piece(rows, book, level, 0, new, &mut climb.made);
            let (word, gap, row) = (root.item.word, 0, root.row);
            Top {
                place,
                word,
                gap,
                row,
            }
        }
        Next::Slot => {
            let place = slot_on(rows.width(), &climb.ways.left, depth - 1, climb.inner);
            let (word, gap, row) = (new[0].word, new[0].gap, numbers[0]);
            Top {
                place,
                word,
                gap,
                row,
            }
        }
        Next::Up => unreachable!(),
    }
}

/// Climbs from the leaves up, and drafts the nodes of each level, to the one at which the replacement ends. No node is buried.
pub fn climb_up<R: Rows, B: Begun>(rows: &mut R, book: &mut RowBook, climb: &mut Climb) -> Top
    requires { IsClimbing B.before B.start (R.sheet rows.old) book.old Leaf (length climb.old.ways.left.items - 1) climb.old }
    ensures climbed { HasClimbed B.before B.start (R.sheet rows.new) book.new climb.new result }
    ensures none_buried { (R.sheet rows.new).buried ≡ (R.sheet rows.old).buried }
    ensures none_retired { book.new.held ≡ book.old.held }
{
    let mut depth = climb.ways.left.len() as u32 - 1;
    let mut kind = RowKind::Leaf;
    loop {
        let drafted = draft_level::<R, B>(rows, book, climb, depth, kind);
        if drafted.next != Next::Up {
            return top_of::<R, B>(rows, book, climb, &drafted, depth);
        }
        depth -= 1;
        kind = climb.inner;
        let new = drafted.heads.items.as_slice();
        gather_above::<R, B>(rows, &climb.ways, new, depth, kind, &mut climb.gathered);
    }
}
