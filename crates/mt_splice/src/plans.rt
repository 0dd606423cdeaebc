//! What holds when a plan is drafted. Each law (lemma) is the contract of a function that does nothing.

ghost use Rattle.std.specs.Prelude.{◌≡◌, ◌≢◌, ℕ, suc, ◌+◌, ◌-◌, ◌<◌, ◌≤◌, Bool, true, List, [], ◌∷◌, Some, length, slice_set};
ghost use Rattle.mt_base.specs.Width.{deepest, greatest};
ghost use Rattle.mt_base.specs.declared.calls.Call.{Call};
ghost use Rattle.mt_base.specs.declared.kinds.Kind.{Kind};
ghost use Rattle.mt_base.specs.declared.replies.Reply.{Reply};
ghost use Rattle.mt_base.specs.declared.widths.Width.{Width};
ghost use Rattle.mt_free.specs.Book.{Book};
ghost use Rattle.mt_layout.specs.Columns.{slot_column};
ghost use Rattle.mt_layout.specs.Rows.{row_in};
ghost use Rattle.mt_layout.specs.Sizes.{slots_of};
ghost use Rattle.mt_layout.specs.Spans.{spans_from};
ghost use Rattle.mt_layout.specs.declared.items.Item.{Item};
ghost use Rattle.mt_layout.specs.declared.names.RowKind.{RowKind};
ghost use Rattle.mt_layout.specs.declared.names.RowKind.TheVariants.{Leaf};
ghost use Rattle.mt_layout.specs.declared.spans.Span.{Span};
ghost use Rattle.mt_path.specs.Handles.{last_step};
ghost use Rattle.mt_path.specs.Paths.{path_in, slot_for};
ghost use Rattle.mt_path.specs.declared.paths.PathStep.{PathStep};
ghost use Rattle.mt_rows.specs.Laws.{GapLaw, HasWords, IsRow, Stands, kind_on, top_of};
ghost use Rattle.mt_rows.specs.Levels.{Levels, expand, one_if, times};
ghost use Rattle.mt_rows.specs.Replacement.{root_of, with_child};
ghost use Rattle.mt_rows.specs.Sheet.{IsWhole, OnlyReads, Sheet};
ghost use Rattle.mt_rows.specs.Spans.{base_of, inner_kind, spans_in};
ghost use Rattle.mt_rows.specs.declared.rows.Place.TheVariants.{Root};
ghost use Rattle.mt_splice.specs.Splice.{MayClear, MaySplice};
ghost use Rattle.mt_splice.specs.declared.climbing.Climb.{Climb};
ghost use Rattle.mt_splice.specs.declared.climbing.Top.{Top};
ghost use Rattle.mt_splice.specs.declared.drafting.Head.{Head};
ghost use Rattle.mt_splice.specs.declared.writes.NewRow.{NewRow};
ghost use Rattle.mt_splice.specs.steps.Climbing.{HasClimbed, IsClimbing, windows_over};
ghost use Rattle.mt_splice.specs.steps.Drafting.{IsPieceDrafted};
ghost use Rattle.mt_splice.specs.steps.Ends.{IsReadyToPublish};
ghost use Rattle.mt_splice.specs.steps.Entries.{IsBegunBy, IsFirstStore};
ghost use Rattle.mt_splice.specs.steps.Layers.{Beside, Stand};
ghost use Rattle.mt_splice.specs.steps.Plans.{AreAllHeld, IsPlanned, Layer, depth_at, gone_by, level_of, taken_by};
ghost use Rattle.mt_splice.specs.steps.Ledgers.{Before, IsStartOf, IsLedger};
ghost use Rattle.mt_splice.specs.steps.Replaced.{IsReplaced, with_root};
ghost use Rattle.mt_splice.specs.steps.Seen.{Seen, passing, was_seen};
ghost use Rattle.mt_splice.specs.steps.Telling.{AreAllFromBelow};
ghost use Rattle.mt_splice.specs.steps.Told.{HadGaps};
ghost use Rattle.mt_splice.specs.steps.Windows.{in_place, row_at};
ghost use Rattle.mt_splice.specs.steps.Starts.{Start, rows_at, tree_with};
ghost use Rattle.mt_splice.specs.steps.Writes.{items_of_row};

/// A climb begins with nothing done yet: at the leaves of a store, over the empty tree with one leaf, or with all levels of a
/// tree that is to be emptied.
pub fn a_climb_begins()
    ensures store { (b : Before) (start : Start) (kind : Kind)
        (s : Sheet) (book : Book) (left right : List PathStep) (items : List Item) (number : ℕ) (call : Call) (reply : Reply) (c : Climb)
        → IsBegunBy b start kind s book number call (last_step left).min (last_step right).max → MaySplice kind s book left right items number call reply
        → IsWhole s → left ≢ [] → c.ways.left.items ≡ left → c.ways.right.items ≡ right → c.gathered.run.items ≡ items → c.windows.items ≡ []
        → c.made.items ≡ [] → c.inner ≡ inner_kind kind → IsClimbing b start s book Leaf (length c.ways.left.items - 1) c }
    ensures first { (b : Before) (start : Start) (s s' : Sheet) (book book' : Book)
        (above : RowKind) (items : List Item) (call : Call) (reply : Reply) (made made' inner : List NewRow) (head : Head) (gap : ℕ)
        → IsFirstStore b start s book items call reply → IsWhole s → made ≡ [] → IsPieceDrafted s s' book book' above Leaf 0 items made made' head
        → inner ≡ made' → IsReadyToPublish b start s' book' inner (record { place = Root; word = head.item.word; gap = gap; row = head.row }) call reply }
    ensures clear { (b : Before) (start : Start) (kind : Kind)
        (s s₁ s₂ : Sheet) (book : Book) (number : ℕ) (call : Call) (reply : Reply) (width : Width) (index depth : ℕ) (c : Climb) (top : Top)
        → IsBegunBy b start kind s book number call 0 (greatest s.tree.table.width) → MayClear kind s book number call reply → IsWhole s → OnlyReads s s₁
        → OnlyReads s₁ s₂ → c.ways.left.items ≡ path_in s.tree.table s.tree.root 0 → width ≡ s₁.tree.table.width → index ≡ greatest width
        → c.ways.right.items ≡ path_in s₁.tree.table s₁.tree.root index
        → depth + 1 ≡ length c.ways.left.items → c.windows.items ≡ windows_over c.ways.left.items c.ways.right.items (depth + 1)
        → c.made.items ≡ [] → c.inner ≡ inner_kind kind → top.place ≡ Root → top.word ≡ 0 → top.gap ≡ 0 → top.row ≡ 0
        → HasClimbed b start s₂ book c top }
{}

/// While nodes are drafted, the tree's nodes are beside them and are read as they were.
pub fn the_old_rows_stand_beside()
    ensures beside { (b : Before) (start : Start) (s : Sheet) (book : Book) (taken gone : List Seen) → IsStartOf b start
        → IsLedger b s book taken gone → Stands start.tree start.height → Beside start s.tree.table.words (was_seen taken) 0 }
    ensures items { (b : Before) (start : Start) (s : Sheet) (book : Book) (taken gone : List Seen) → IsStartOf b start → IsLedger b s book taken gone
        → Stands start.tree start.height → (i d h : ℕ) → i ≤ top_of start.tree → start.height ≡ d + h → (kind : RowKind) (max : ℕ)
        → items_of_row s.tree.table kind (row_in (row_at start.tree d i).word) max
        ≡ items_of_row start.tree.table kind (row_in (row_at start.tree d i).word) max }
{}

/// When the nodes of all layers are drafted, the level of the top layer represents the map instead of the old one.
pub fn drafted_layers_stand()
    ensures { (start : Start) (words : List ℕ) (is_new : ℕ → Bool) (top : ℕ) → Beside start words is_new top → (l : Layer) (lower : List Layer)
        → IsPlanned start (l ∷ lower) → AreAllHeld start words is_new (l ∷ lower) → top ≤ depth_at start (length lower)
        → Stand start words is_new (λ p. passing p (taken_by start (l ∷ lower)))
        (λ p. passing p (gone_by start (l ∷ lower))) (depth_at start (length lower)) (length lower) (level_of start (l ∷ lower)) }
{}

/// All nodes of that level, and all below, keep the law of gaps, where those of the tree did.
pub fn drafted_layers_keep_gaps()
    ensures { (start : Start) (words : List ℕ) (is_new : ℕ → Bool) (top : ℕ) → Beside start words is_new top → HadGaps start
        → (l : Layer) (lower : List Layer) → IsPlanned start (l ∷ lower) → AreAllFromBelow start (l ∷ lower) → AreAllHeld start words is_new (l ∷ lower)
        → top ≤ depth_at start (length lower)
        → Levels (GapLaw (tree_with start.tree words)) (tree_with start.tree words).table (length lower) (level_of start (l ∷ lower)) }
{}

/// A node that takes the place of one is stored in the slot of the node above. The new nodes then make up the tree to its root.
pub fn a_store_in_a_slot_stands()
    ensures { (start : Start) (words : List ℕ) (is_new : ℕ → Bool)
        → Beside start words is_new 0 → Stands (tree_with start.tree words) start.height → HasWords (tree_with start.tree words)
        → ((d k : ℕ) → start.height ≡ d + k → rows_at (tree_with start.tree words) d ≡ rows_at start.tree d)
        → (i depth h : ℕ) → i ≤ top_of start.tree → start.height ≡ depth + suc h → (word : ℕ) (taken gone : (ℕ → Span → Bool) → ℕ)
        → let t = start.tree in let parent = row_at t depth i in
        let then = slice_set words
        (base_of t.table (row_in parent.word) + slot_column (slots_of t.table.width (kind_on t.gapped (suc h))) (slot_for (spans_in t.table parent) i)) word in
        Stand start then is_new taken gone (suc depth) h (in_place t (suc depth) i i (with_child (row_at t (suc depth) i) word ∷ []))
        → Stand start then is_new taken gone 0 start.height (root_of t) }
{}

/// What represents the map up to the root replaces the tree: in place, by one node as the root, or by several in a new root.
pub fn what_stands_replaces_the_tree()
    ensures slot { (start : Start) (words : List ℕ) (taken gone : List Seen) → Stands start.tree start.height
        → Stand start words (was_seen taken) (λ p. passing p taken) (λ p. passing p gone) 0 start.height (root_of start.tree)
        → IsReplaced start.tree (tree_with start.tree words) start.map taken gone (Some start.height) (Some start.height) }
    ensures root { (start : Start) (words : List ℕ) (taken gone : List Seen) (low_gone : (ℕ → Span → Bool) → ℕ) (d h : ℕ) (x : Span)
        → Stands start.tree start.height → start.height ≡ d + h → x.first ≡ 0 → x.last ≡ top_of start.tree
        → Stand start words (was_seen taken) (λ p. passing p taken) low_gone d h (x ∷ [])
        → ((p : ℕ → Span → Bool)
        → passing p gone + times p start.tree.table h (rows_at start.tree d) ≡ low_gone p + times p start.tree.table start.height (root_of start.tree))
        → IsReplaced start.tree (with_root (tree_with start.tree words) x.word) start.map taken gone (Some start.height) (Some h) }
    ensures above { (start : Start) (words : List ℕ) (taken gone : List Seen) (low_taken : (ℕ → Span → Bool) → ℕ)
        (new : List Span) (x : Span) (items : List Item) → x.first ≡ 0 → x.last ≡ top_of start.tree → suc start.height < deepest
        → Stand start words (was_seen taken) low_taken (λ p. passing p gone) 0 start.height new
        → IsRow (tree_with start.tree words) (suc start.height) x → expand (tree_with start.tree words).table (x ∷ []) ≡ new → new ≡ spans_from 0 items
        → length items ≤ slots_of start.tree.table.width (kind_on start.tree.gapped (suc start.height))
        → was_seen taken (row_in x.word) ≡ true → ((p : ℕ → Span → Bool) → passing p taken ≡ one_if (p (suc start.height) x) + low_taken p)
        → IsReplaced start.tree (with_root (tree_with start.tree words) x.word) start.map taken gone (Some start.height) (Some (suc start.height)) }
{}
