//! What is known of nodes from call to call. Each law is the contract of a function that does nothing.

ghost use Rattle.std.specs.Prelude.{◌≡◌, ◌≢◌, ℕ, suc, ◌+◌, ◌*◌, ◌<◌, ◌≤◌, ◌==◌, false, List, Some, length};
ghost use Rattle.std.specs.List.{AllByRecursion, flat_map, slice_get};
ghost use Rattle.mt_base.specs.declared.calls.Call.{Call};
ghost use Rattle.mt_base.specs.declared.kinds.Kind.{Kind};
ghost use Rattle.mt_base.specs.declared.replies.Reply.{Reply};
ghost use Rattle.mt_base.specs.Width.{deepest, first_row, kind_width, most_rows};
ghost use Rattle.mt_layout.specs.declared.spans.Span.{Span};
ghost use Rattle.mt_layout.specs.Rows.{dead_mark, named_kind, row_in};
ghost use Rattle.mt_layout.specs.Columns.{slot_column};
ghost use Rattle.mt_layout.specs.Sizes.{slots_of};
ghost use Rattle.mt_layout.specs.Spans.{Fills, leaf_range};
ghost use Rattle.mt_rows.specs.declared.rows.Life.TheVariants.{Dead, Live};
ghost use Rattle.mt_rows.specs.declared.rows.Place.{Place};
ghost use Rattle.mt_rows.specs.declared.rows.Scan.{Scan};
ghost use Rattle.mt_rows.specs.Laws.{IsTree, NameLaw, Stands, kind_at};
ghost use Rattle.mt_rows.specs.Publish.{IsLawfulOf, IsTreeOf, LiveAreReached, MayFinish, MayPublish, NoneBuried};
ghost use Rattle.mt_rows.specs.Publish.{Published, StandsAt, finished, tree_as, with_published};
ghost use Rattle.mt_rows.specs.Sheet.{IsFree, IsPlace, MayBegin, MayBury, MayTend, Rooted, Sheet, after_bury};
ghost use Rattle.mt_rows.specs.Sheet.{begun, drafted, life_of, scanned, tended, word_at};
ghost use Rattle.mt_rows.specs.Spans.{Table, column, inner_kind, root_span, spans_in};
ghost use Rattle.mt_life.specs.declared.views.Extent.{Extent};
ghost use Rattle.mt_life.specs.declared.views.Held.{Held};
ghost use Rattle.mt_life.specs.declared.views.Moment.{Moment};
ghost use Rattle.mt_life.specs.Holding.{HoldsRow, LeadsTo, Snapshot, LeafTells, as_known_now};
ghost use Rattle.mt_life.specs.Known.{Child, HasExtentsOf, Goes, HasRow, IsFull, IsLive, Known, SameForm, Shape, State};
ghost use Rattle.mt_life.specs.Known.{begun_calls, calls, extent_at, extent_of, with_cleared, spans_at, state_of};
ghost use Rattle.mt_life.specs.Moments.{PartOf, moment_of};

/// A tree has at most nine levels. A leaf lies between two cuts and has what the map has there. What an inner node holds fills
/// it, and is one level lower.
pub fn a_tree_is_in_parts()
    ensures low { (kind : Kind) (h : ℕ) (t : Rooted) → Stands (tree_as kind t) h → h < deepest }
    ensures leaf { (kind : Kind) (h : ℕ) (t : Rooted) (x : Span)
        → Stands (tree_as kind t) h → StandsAt t 0 x → PartOf (moment_of t) x.first x.last (flat_map leaf_range (spans_in t.table x)) }
    ensures inner { (kind : Kind) (h k : ℕ) (t : Rooted) (x : Span) → Stands (tree_as kind t) h → StandsAt t (suc k) x
        → Fills x.first (x.last + 1) (spans_in t.table x) × AllByRecursion (λ (y : Span). StandsAt t k y × NameLaw (tree_as kind t) k y) (spans_in t.table x) }
    ensures shape { (kind : Kind) (h k : ℕ) (t : Rooted) (x : Span)
        → Stands (tree_as kind t) h → StandsAt t k x → Shape kind t.table (row_in x.word) (extent_at x k) }
{}

/// The extents that are known are those of nodes.
pub fn extents_are_places()
    ensures { (kind : Kind) (s : State) (e : ℕ → Extent) (m : ℕ → Moment) (h k : ℕ) (x : Span)
        → Known kind s e m → Stands (tree_as kind s.tree) h → StandsAt s.tree k x → Child kind s.tree.rows s.lives e IsLive k x }
{}

/// The root's level is known to be so low that the inner nodes on a way from it have few slots together, of whatever kind.
pub fn a_way_from_the_root_has_few_slots()
    ensures { (kind : Kind) (s : State) (e : ℕ → Extent) (m : ℕ → Moment)
        → Known kind s e m → IsTree (tree_as kind s.tree) → s.tree.rows ≤ most_rows → s.tree.root ≢ 0
        → slots_of (kind_width kind) (inner_kind kind) * (e (row_in s.tree.root)).level ≤ 128 }
{}

/// Each tree has extents of its nodes, also as a list.
pub fn extents_follow()
    ensures each { (kind : Kind) (t : Rooted) (before : ℕ → Extent) → IsTree (tree_as kind t) → (after : ℕ → Extent) × HasExtentsOf t before after }
    ensures listed { (kind : Kind) (t : Rooted) (before : List Extent) → length before ≡ first_row + t.rows → IsTree (tree_as kind t)
        → (after : List Extent) × (length after ≡ first_row + t.rows) × HasExtentsOf t (extent_of before) (extent_of after) }
{}

/// The kind of a name agrees with the level of the node that it names: of the root word, and of each word in an inner node that
/// is live, or dead and may still be read.
pub fn names_agree_with_levels()
    ensures root { (kind : Kind) (s : State) (e : ℕ → Extent) (m : ℕ → Moment)
        → Known kind s e m → s.tree.root ≢ 0 → named_kind s.tree.root ≡ Some (kind_at kind (e (row_in s.tree.root)).level) }
    ensures live { (kind : Kind) (s : State) (e : ℕ → Extent) (m : ℕ → Moment) (row level : ℕ)
        → Known kind s e m → HasRow s.tree.rows row → life_of s.lives row ≡ Live → (e row).level ≡ suc level
        → AllByRecursion (λ (y : Span). (named_kind y.word ≡ Some (kind_at kind level)) × ((e (row_in y.word)).level ≡ level))
        (spans_at kind s.tree.table row (e row)) }
    ensures dead { (kind : Kind) (s : State) (e : ℕ → Extent) (m : ℕ → Moment) (row level d : ℕ)
        → Known kind s e m → HasRow s.tree.rows row → life_of s.lives row ≡ Dead d → s.cleared < d → (e row).level ≡ suc level
        → AllByRecursion (λ (y : Span). (named_kind y.word ≡ Some (kind_at kind level)) × ((e (row_in y.word)).level ≡ level))
        (spans_at kind s.tree.table row (e row)) }
{}

/// What a node holds has the word of its slot. Nodes of the same form have the same slots, each with a word of its own, and the
/// same slots are holes.
pub fn rows_of_a_form_have_the_same_slots()
    ensures word { (kind : Kind) (t : Table) (row i : ℕ) (e : Extent) (x : Span) → slice_get (spans_at kind t row e) i ≡ Some x
        → (i < slots_of t.width (kind_at kind e.level)) × (x.word ≡ column t row (slot_column (slots_of t.width (kind_at kind e.level)) i)) }
    ensures slot { (kind : Kind) (t t' : Table) (row i : ℕ) (e : Extent) (x : Span)
        → t'.width ≡ t.width → SameForm t t' (kind_at kind e.level) row → slice_get (spans_at kind t row e) i ≡ Some x
        → slice_get (spans_at kind t' row e) i
        ≡ Some (record { first = x.first; last = x.last; word = column t' row (slot_column (slots_of t'.width (kind_at kind e.level)) i) }) }
    ensures hole { (kind : Kind) (t t' : Table) (row i : ℕ) (e : Extent) (x x' : Span) → t'.width ≡ t.width → SameForm t t' (kind_at kind e.level) row
        → slice_get (spans_at kind t row e) i ≡ Some x → slice_get (spans_at kind t' row e) i ≡ Some x' → (x'.word == 0) ≡ (x.word == 0) }
{}

/// What is known of nodes before a publishing store is known after it, and what handles rely on stays.
pub fn a_publishing_store_carries_what_is_known()
    ensures { (kind : Kind) (s s' : Sheet) (place : Place) (word : ℕ) (call : Call) (reply : Reply) (e e' : ℕ → Extent) (m m' : ℕ → Moment)
        → MayPublish kind s place word call reply
        → Published s s' place word call reply → Known kind (state_of s) e m → HasExtentsOf (with_published s.tree place word) e e'
        → ((k : ℕ) → k ≤ s.ended → m' k ≡ m k) → m' (s.ended + 1) ≡ moment_of (with_published s.tree place word)
        → Known kind (state_of s') e' m' × Goes kind (state_of s) (state_of s') e e' m m' }
{}

/// A draft of a free node, a burying and a tending leave what is known of nodes.
pub fn writes_leave_what_is_known()
    ensures draft { (kind : Kind) (s : Sheet) (row col word : ℕ) (e : ℕ → Extent) (m : ℕ → Moment)
        → IsFull (state_of s) → IsPlace s.tree row col → IsFree s.cleared (life_of s.lives row) → Known kind (state_of s) e m
        → Known kind (state_of (drafted s row col word)) e m × Goes kind (state_of s) (state_of (drafted s row col word)) e e m m }
    ensures bury { (kind : Kind) (s : Sheet) (row : ℕ) (e : ℕ → Extent) (m : ℕ → Moment) → IsFull (state_of s) → MayBury s row → Known kind (state_of s) e m
        → Known kind (state_of (after_bury s row)) e m × Goes kind (state_of s) (state_of (after_bury s row)) e e m m }
    ensures tend { (kind : Kind) (s : Sheet) (row col word : ℕ) (e : ℕ → Extent) (m : ℕ → Moment)
        → IsFull (state_of s) → MayTend s row col word → Known kind (state_of s) e m
        → Known kind (state_of (tended s row col word)) e m × Goes kind (state_of s) (state_of (tended s row col word)) e e m m }
{}

/// The begin and the end of a call, and a scan, leave what is known of nodes. A call that published nothing leaves the map and
/// its cuts.
pub fn ends_leave_what_is_known()
    ensures begin { (kind : Kind) (s : Sheet) (e : ℕ → Extent) (m : ℕ → Moment) → MayBegin s → Known kind (state_of s) e m
        → Known kind (state_of (begun s)) e m × Goes kind (state_of s) (state_of (begun s)) e e m m }
    ensures scan { (kind : Kind) (s : Sheet) (answer : Scan) (cleared : ℕ) (e : ℕ → Extent) (m : ℕ → Moment) → s.cleared ≤ cleared → Known kind (state_of s) e m
        → Known kind (state_of (scanned s answer cleared)) e m × Goes kind (state_of s) (state_of (scanned s answer cleared)) e e m m }
    ensures raise { (kind : Kind) (s : State) (cleared : ℕ) (e : ℕ → Extent) (m : ℕ → Moment)
        → s.cleared ≤ cleared → Known kind s e m → Known kind (with_cleared s cleared) e m × Goes kind s (with_cleared s cleared) e e m m }
    ensures finish { (kind : Kind) (s : Sheet) (call : Call) (reply : Reply) (e : ℕ → Extent) (m m' : ℕ → Moment) → MayFinish kind s call reply
        → ((k : ℕ) → k ≤ calls (state_of s) → m' k ≡ m k) → (s.published ≡ false → m' (s.ended + 1) ≡ m s.ended) → Known kind (state_of s) e m
        → Known kind (state_of (finished s call reply)) e m' × Goes kind (state_of s) (state_of (finished s call reply)) e e m m' }
{}

/// Before the first call all is known of the nodes of well-formed words.
pub fn all_is_known_at_the_start()
    ensures { (kind : Kind) (s : State) (before e : ℕ → Extent) (m : ℕ → Moment)
        → IsLawfulOf s.tree kind → LiveAreReached s.tree s.lives → NoneBuried s.tree.rows s.buried
        → ((row d : ℕ) → HasRow s.tree.rows row → life_of s.lives row ≢ Dead d)
        → s.ended ≡ 0 → s.published ≡ false → HasExtentsOf s.tree before e → m 0 ≡ moment_of s.tree → Known kind s e m }
{}

/// What a section knows of a node that it holds stays true by each step, as long as no node is cleared that died after the load
/// of the root from which it was reached.
pub fn a_held_row_stays_known()
    ensures { (kind : Kind) (s s' : State) (e e' : ℕ → Extent) (m m' : ℕ → Moment) (x : Held)
        → Known kind s e m → Known kind s' e' m' → Goes kind s s' e e' m m' → s'.cleared ≤ x.since
        → HoldsRow kind s e m x → HoldsRow kind s' e' m' x }
{}

/// The root may be held at the load of its word, and a child at the load of the slot of a held node that names it. A leaf that
/// is held has what the map had after some number of calls, no fewer than at the load of the root. If its parent word is the
/// dead mark, more calls have begun than the map had seen then. If not, the node is live.
pub fn held_rows_tell()
    ensures root { (kind : Kind) (s : State) (e : ℕ → Extent) (m : ℕ → Moment) → Known kind s e m → s.cleared ≤ calls s → s.tree.root ≢ 0
        → (level : ℕ) × (level < deepest) × LeadsTo kind s e m s.tree.root (calls s) (extent_at (root_span s.tree.table s.tree.root) level) }
    ensures child { (kind : Kind) (s : State) (e : ℕ → Extent) (m : ℕ → Moment) (x : Held) (level i : ℕ) (y : Span)
        → Known kind s e m → HoldsRow kind s e m x → x.extent.level ≡ suc level
        → slice_get (spans_at kind s.tree.table x.row x.extent) i ≡ Some y → LeadsTo kind s e m y.word x.since (extent_at y level) }
    ensures leaf { (kind : Kind) (s : State) (e : ℕ → Extent) (m : ℕ → Moment) (x : Held)
        → Known kind s e m → HoldsRow kind s e m x → x.extent.level ≡ 0 → LeafTells kind s m x }
    ensures renewed { (kind : Kind) (s : State) (e : ℕ → Extent) (m : ℕ → Moment) (x : Held)
        → Known kind s e m → HoldsRow kind s e m x → HoldsRow kind s e m (as_known_now s x) }
    ensures marked { (kind : Kind) (s : State) (e : ℕ → Extent) (m : ℕ → Moment) (x : Held)
        → Known kind s e m → HoldsRow kind s e m x → word_at s.tree x.row 0 ≡ dead_mark x.row → x.since + 1 ≤ begun_calls s }
    ensures unmarked { (kind : Kind) (s : State) (e : ℕ → Extent) (m : ℕ → Moment) (x : Held)
        → Known kind s e m → HoldsRow kind s e m x → word_at s.tree x.row 0 ≢ dead_mark x.row
        → (life_of s.lives x.row ≡ Live) × (x.extent.level ≡ 0 → (k : ℕ) → x.met ≤ k → k ≤ calls s → Snapshot kind x (m k)) }
{}

/// After a publishing store live nodes are again those that are reached.
pub fn live_rows_are_reached()
    ensures { (kind : Kind) (s s' : Sheet) (place : Place) (word : ℕ) (call : Call) (reply : Reply)
        → MayPublish kind s place word call reply → Published s s' place word call reply → LiveAreReached s'.tree s'.lives }
{}

/// A draft of a free node, a burying and a tending leave the words a tree.
pub fn writes_leave_a_tree()
    ensures draft { (kind : Kind) (s : Sheet) (row col word : ℕ) (e : ℕ → Extent) (m : ℕ → Moment)
        → Known kind (state_of s) e m → IsPlace s.tree row col → IsFree s.cleared (life_of s.lives row)
        → IsTreeOf s.tree kind → IsTreeOf (drafted s row col word).tree kind }
    ensures bury { (kind : Kind) (s : Sheet) (row : ℕ) (e : ℕ → Extent) (m : ℕ → Moment) → Known kind (state_of s) e m → MayBury s row
        → IsTreeOf s.tree kind → IsTreeOf (after_bury s row).tree kind }
    ensures tend { (kind : Kind) (s : Sheet) (row col word : ℕ) (e : ℕ → Extent) (m : ℕ → Moment)
        → Known kind (state_of s) e m → IsFull (state_of s) → MayTend s row col word
        → IsTreeOf s.tree kind → IsTreeOf (tended s row col word).tree kind }
{}
