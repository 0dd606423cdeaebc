//! What is done with a tree that one thread at a time uses.

ghost use Rattle.std.specs.Prelude.{◌≡◌, ◌↔◌, ◌≤◌, false, IfOk, IfSome, IsTrue, length, option_map};
ghost use Rattle.mt_base.specs.Call.{acted};
ghost use Rattle.mt_base.specs.declared.calls.Query.TheVariants.{Load};
ghost use Rattle.mt_base.specs.declared.calls.Call.TheVariants.{StorePre};
ghost use Rattle.mt_base.specs.Width.{most_rows};
ghost use Rattle.mt_rows.specs.Publish.{map_by};
ghost use Rattle.mt_c.specs.Calls.{MadeOrSpent, IsAsked, answered};
ghost use Rattle.mt_c.specs.Opening.{IsNewEngine};
ghost use Rattle.mt_c.specs.Preparing.{IsPrepared, PreMade};
ghost use Rattle.mt_tree.specs.Behind.{IsReady};

use crate::own_tree::OwnTree;
use crate::steps::ended;
use mt_base::{Call, Kind, MOST_CALLS, NoMemory, Query, Range, Reply, width_of};
use mt_engine::Engine;
use mt_free::RowBook;
use mt_rows::PlainRows;
use mt_tree::counted;
use std::alloc::Global;

impl OwnTree {
    /// An empty tree with `rows` nodes, before its first call.
    ///
    /// # Errors
    ///
    /// `NoMemory` where memory ran out.
    pub fn new(alloc: Global, kind: Kind, rows: u64) -> Result<OwnTree, NoMemory>
        requires { rows ≤ most_rows }
        ensures { IfOk result (λ t. IsNewEngine kind rows t.engine) }
    {
        let book = RowBook::new(alloc, rows)?;
        let rows = PlainRows::of_width(alloc, width_of(kind), rows)?;
        Ok(OwnTree::begun(Engine::of_height(rows, book, kind, 0), kind))
    }

    /// A tree of which no call was made.
    pub fn begun(engine: Engine<PlainRows>, kind: Kind) -> OwnTree
        requires kind { kind ≡ engine.kind }
        requires first { engine.sheet.ended ≡ 0 }
        requires alone { engine.sheet.shared ≡ false }
        ensures { result.engine ≡ engine }
    {
        OwnTree {
            engine,
            kind,
            calls: 0,
            place: ended(),
            ranges: None,
        }
    }

    /// Makes one call; none where the tree has had all its calls. `after` is how many ranges there are after it, if that is
    /// known.
    pub fn act_counted(&mut self, call: &Call, after: Option<u64>) -> Option<Reply>
        requires { IfSome after (λ n. n ≡ length
            (acted self.old.engine.kind (map_by self.old.engine.sheet.tree) call.now).0) }
        ensures { MadeOrSpent self.old.engine self.new.engine call.now result }
    {
        if self.calls >= MOST_CALLS {
            return None;
        }
        self.engine.lawful();
        self.place = ended();
        let reply = self.engine.apply(call);
        self.calls += 1;
        self.ranges = counted(after, self.ranges, call, reply);
        Some(reply)
    }

    /// Makes one call; none where the tree has had all its calls.
    pub fn act(&mut self, call: &Call) -> Option<Reply>
        ensures { MadeOrSpent self.old.engine self.new.engine call.now result }
    {
        self.act_counted(call, None)
    }

    /// Answers one query.
    #[tactic(auto, unfolding(crate::specs::Calls::answered))]
    pub fn ask(&mut self, query: &Query) -> Option<Range>
        ensures answer { result ≡ answered self.old.engine query.now }
        ensures rest { IsAsked self.old.engine self.new.engine }
    {
        self.engine.ask(query)
    }

    /// The entry that an index holds.
    #[tactic(auto, unfolding(crate::specs::Calls::answered))]
    pub fn load(&mut self, index: u64) -> Option<u64>
        ensures entry { result ≡ option_map (λ r. r.entry) (answered self.old.engine (Load index)) }
        ensures rest { IsAsked self.old.engine self.new.engine }
    {
        self.engine.load(index)
    }

    /// Makes it ready for a store, if the nodes that no section holds are enough.
    #[tactic(auto, using(crate::proofs::Walking::alone_if_scanned))]
    pub fn preallocate(&mut self) -> bool
        ensures prepared { IsPrepared self.old.engine self.new.engine }
        ensures ready { IsTrue result ↔ IsReady self.new.engine }
    {
        // that many calls fit into 64 bits
        let _calls = self.calls;
        self.place = ended();
        self.ranges = None;
        self.engine.preallocate().is_ok()
    }

    /// Makes one store for which it is ready; none where it is not, and the inner none where the tree has had all its calls.
    #[tactic(auto, using(crate::proofs::Walking::alone_if_ended))]
    pub fn store_prealloc(&mut self, first: u64, last: u64, entry: u64) -> Option<Option<Reply>>
        ensures { PreMade self.old.engine self.new.engine (StorePre first last entry) result }
    {
        if !self.engine.ready() {
            return None;
        }
        if self.calls >= MOST_CALLS {
            return Some(None);
        }
        self.place = ended();
        self.ranges = None;
        let reply = self.engine.store_prealloc(first, last, entry);
        self.calls += 1;
        Some(Some(reply))
    }
}
