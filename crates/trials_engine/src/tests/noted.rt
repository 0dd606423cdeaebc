//! The order in which a store treats its nodes. All new nodes are written before the first replaced one is marked dead. All of
//! these are marked before the one store that publishes. Parent words and gap words follow after it.

ghost use Rattle.std.specs.Prelude.{◌≡◌, ◌≤◌, ◌+◌, IfOk};
ghost use Rattle.mt_base.specs.Width.{most_rows};
ghost use Rattle.mt_rows.specs.Memory.{sheet_in};
ghost use Rattle.mt_rows.specs.Plain.{new_sheet};
ghost use Rattle.mt_rows.specs.PlainWhole.{rows_whole};

use crate::tests::{TOP, same};
use arrayvec::ArrayVec;
use mt_base::{Call, Kind, NoMemory, Reply, Width, width_of};
use mt_engine::Engine;
use mt_free::RowBook;
use mt_rows::{Place, PlainRows, Rows, Scan};
use std::alloc::Global;
use std::process::Abort;
use std::test::Fail;

/// What is done to a node.
#[derive(Clone, Copy, Debug, Default, PartialEq, Eq)]
enum Step {
    #[default]
    Draft,
    Bury,
    Publish,
    Tend,
}

/// So many changes from one step to another are noted of a call.
const MOST_STEPS: usize = 8;

/// Nodes in memory that note the steps of the last call, those of a kind that follow one another as one.
#[derive(Drop)]
struct Noted {
    rows: PlainRows,
    steps: ArrayVec<Step, MOST_STEPS>,
}

impl Noted {
    /// So many nodes of a width, none of which was ever used.
    fn new(alloc: Global, width: Width, rows: u64) -> Result<Self, NoMemory>
        requires { rows ≤ most_rows }
        ensures { IfOk result (λ n. sheet_in n.rows ≡ new_sheet width rows) }
    {
        Ok(Noted {
            rows: PlainRows::of_width(alloc, width, rows)?,
            steps: ArrayVec::new(),
        })
    }
}

/// Notes a step that is not of the kind of the last one.
fn note(steps: &mut ArrayVec<Step, MOST_STEPS>, step: Step) {
    if steps.last() != Some(&step) && !steps.is_full() {
        steps.push(step);
    }
}

impl Rows for Noted {
    ghost sheet = { λ n. sheet_in n.rows };

    ghost whole = { λ n. rows_whole n.rows };

    fn size(&self) -> u64 {
        self.rows.size()
    }

    fn width(&self) -> Width {
        self.rows.width()
    }

    fn load(&mut self, row: u32, col: u32) -> u64 {
        self.rows.load(row, col)
    }

    fn root(&mut self) -> u64 {
        self.rows.root()
    }

    fn begin(&mut self) -> u64 {
        self.steps.clear();
        self.rows.begin()
    }

    fn scan(&mut self) -> Scan {
        self.rows.scan()
    }

    fn draft(&mut self, row: u32, col: u32, word: u64) {
        note(&mut self.steps, Step::Draft);
        self.rows.draft(row, col, word);
    }

    fn draft_row(&mut self, row: u32, words: &[u64]) {
        note(&mut self.steps, Step::Draft);
        self.rows.draft_row(row, words);
    }

    fn bury(&mut self, row: u32) {
        note(&mut self.steps, Step::Bury);
        self.rows.bury(row);
    }

    fn tend(&mut self, row: u32, col: u32, word: u64) {
        note(&mut self.steps, Step::Tend);
        self.rows.tend(row, col, word);
    }

    fn publish(&mut self, place: Place, word: u64, call: &Call, reply: &Reply) {
        note(&mut self.steps, Step::Publish);
        self.rows.publish(place, word, call, reply);
    }

    fn finish(&mut self, call: &Call, reply: &Reply) {
        self.rows.finish(call, reply);
    }
}

/// An engine of an empty tree of this kind over this many nodes, which note each step.
fn fresh_noted(alloc: Global, kind: Kind, rows: u64) -> Result<Engine<Noted>, NoMemory>
    requires { rows ≤ most_rows }
    ensures { IfOk result (λ engine. engine.sheet.ended ≡ 0) }
{
    let book = RowBook::new(alloc, rows)?;
    let rows = Noted::new(alloc, width_of(kind), rows)?;
    Ok(Engine::new(rows, book, kind))
}

/// A call after this many stores at the even indexes, and its steps.
struct Steps {
    kind: Kind,
    stores: u32,
    call: Call,
    steps: &'static [Step],
}

/// A word of a node is another.
const IN_PLACE: &[Step] = &[Step::Publish];

/// A node is written, and none is marked.
const FIRST: &[Step] = &[Step::Draft, Step::Publish];

/// Nodes are marked, and none is written.
const EMPTIED: &[Step] = &[Step::Bury, Step::Publish];

/// Nodes are written, and then those that they replace are marked.
const REPLACED: &[Step] = &[Step::Draft, Step::Bury, Step::Publish];

/// Nodes are written, those that they replace are marked, and after the publication nodes get their parent words, or their gap
/// words.
const TENDED: &[Step] = &[Step::Draft, Step::Bury, Step::Publish, Step::Tend];

macro_rules! steps {
    ($kind:expr, $stores:expr, $call:expr, $steps:expr) => {
        Steps { kind: $kind, stores: $stores, call: $call, steps: $steps }
    };
}

/// Each way in which a store ends, on trees of one to three levels.
const ALL_STEPS: &[Steps] = &[
    // a first leaf
    steps!(Kind::Range, 0, call!(store 5, 9, 1), FIRST),
    // one word
    steps!(Kind::Range, 8, call!(store 0, 0, 9), IN_PLACE),
    // a leaf that is the root
    steps!(Kind::Range, 8, call!(store 1, 1, 9), REPLACED),
    steps!(Kind::Range, 118, call!(store 0, TOP, 8), REPLACED),
    // a root above two leaves, and above two inner rows
    steps!(Kind::Range, 8, call!(store 16, 16, 1), TENDED),
    steps!(Kind::Range, 83, call!(store 166, 166, 1), TENDED),
    // a child in a slot: a leaf, and an inner row
    steps!(Kind::Range, 23, call!(store 1, 1, 9), TENDED),
    steps!(Kind::Range, 118, call!(store 236, 236, 1), TENDED),
    // a root of three levels, with two new rows and more on each
    steps!(Kind::Range, 118, call!(store 0, 64, 3), TENDED),
    steps!(Kind::Alloc, 83, call!(store 0, 44, 3), TENDED),
    // no leaf
    steps!(Kind::Range, 118, call!(store 0, TOP, 0), EMPTIED),
    steps!(Kind::Range, 118, Call::Clear, EMPTIED),
];

/// The call has these steps.
fn expect_steps(rt: &impl Abort, alloc: Global, want: &Steps) -> Result<(), NoMemory> {
    let mut engine = fresh_noted(alloc, want.kind, 400)?;
    for n in 0..want.stores {
        let index = 2 * u64::from(n);
        engine.apply(&call!(store index, index, 1));
    }
    engine.apply(&want.call);
    let (rows, _book) = engine.parts();
    same(rt, rows.steps.as_slice(), want.steps, want.call);
    Ok(())
}

#[test]
fn rows_are_written_then_marked_then_published(rt: HostRuntime) -> Result<(), Fail> {
    for want in ALL_STEPS {
        expect_steps(&rt, rt.alloc(), want)?;
    }
    Ok(())
}
