//! What well-formed words represent. Each law (lemma) is the contract of a function that does nothing.

ghost use Rattle.std.specs.Prelude.{◌≡◌, ◌≢◌, ℕ, suc, ◌+◌, ◌*◌, ◌/◌, ◌^◌, ◌<◌, ◌≤◌, ◌==◌, Bool, true, false, List, [], ◌∷◌, ◌++◌, length};
ghost use Rattle.std.specs.List.{AllByRecursion};
ghost use Rattle.mt_base.specs.declared.calls.Call.TheVariants.{Store};
ghost use Rattle.mt_base.specs.declared.kinds.Kind.{Kind};
ghost use Rattle.mt_base.specs.Call.{acted};
ghost use Rattle.mt_base.specs.Entry.{reserved};
ghost use Rattle.mt_base.specs.Map.{IsMap};
ghost use Rattle.mt_base.specs.Width.{columns, deepest, kind_width, most_rows};
ghost use Rattle.mt_layout.specs.declared.spans.Span.{Span};
ghost use Rattle.mt_layout.specs.Spans.{Fills};
ghost use Rattle.mt_layout.specs.Rows.{row_in};
ghost use Rattle.mt_layout.specs.Sizes.{slots_of};
ghost use Rattle.mt_layout.specs.Columns.{slot_column};
ghost use Rattle.mt_rows.specs.declared.rows.Place.TheVariants.{Slot};
ghost use Rattle.mt_rows.specs.Spans.{Table, inner_of};
ghost use Rattle.mt_rows.specs.Levels.{map_of, Levels, tally, times, is_row_of, SameColumns, SameSpans};
ghost use Rattle.mt_rows.specs.Trees.{ranges_of, rows_of, height_of, map_in, reached_in};
ghost use Rattle.mt_rows.specs.Laws.{Tree, IsRow, IsTree, Stands, HasWords, top_of, kind_at};
ghost use Rattle.mt_rows.specs.Sheet.{Sheet, IsPlace, IsWhole, drafted, after_bury, tended};
ghost use Rattle.mt_rows.specs.Publish.{tree_as, IsToldKind, LiveAreReached, NoneBuried, MayPublish, map_by};
ghost use Rattle.mt_rows.specs.Replacement.{root_of, IsSlotAt, with_slot, with_child, IsNewBelow, ReplacesChild, ReplacesEntry};

/// Depth and levels agree on what is below a node: the ranges, how often each node is reached, and the height.
pub fn depth_and_levels_agree()
    ensures ranges { (t : Tree) (depth h : ℕ) (x : Span)
        → h < depth → Levels (IsRow t) t.table h (x ∷ []) → ranges_of t.table depth x ≡ map_of t.table h (x ∷ []) }
    ensures rows { (t : Tree) (depth h row : ℕ) (x : Span) → h < depth → Levels (IsRow t) t.table h (x ∷ [])
        → tally (λ (r : ℕ). r == row) (rows_of t.table depth x) ≡ times (is_row_of row) t.table h (x ∷ []) }
    ensures height { (t : Tree) (depth h : ℕ) (x : Span) → h < depth → Levels (IsRow t) t.table h (x ∷ []) → height_of t.table depth x ≡ h + 1 }
{}

/// No node of a tree is reached twice.
pub fn no_row_is_reached_twice()
    ensures levels { (t : Tree) (h row : ℕ) (root : Span)
        → Levels (IsRow t) t.table h (root ∷ []) → Fills 0 (top_of t + 1) (root ∷ []) → times (is_row_of row) t.table h (root ∷ []) ≤ 1 }
    ensures depth { (t : Tree) (h row : ℕ) → Stands t h → tally (λ (r : ℕ). r == row) (reached_in t.table t.root) ≤ 1 }
{}

/// The words of nodes that are not reached do not count, nor do parent words, in tables of one width.
pub fn rows_not_reached_do_not_count()
    ensures { (t t' : Table) (depth : ℕ) (x : Span) → t'.width ≡ t.width
        → AllByRecursion (SameColumns t t' (columns t.width)) (rows_of t depth x) → ranges_of t' depth x ≡ ranges_of t depth x }
{}

/// A tree represents a map of its kind, and an empty one the empty map.
pub fn words_stand_for_maps()
    ensures empty { (t : Table) → map_in t 0 ≡ [] }
    ensures tree { (kind : Kind) (t : Tree) (h : ℕ) → Stands t h → t.table.width ≡ kind_width kind → IsMap kind (map_in t.table t.root) }
{}

/// Adjacent nodes of one height represent the map of the first, followed by that of the others.
pub fn rows_stand_side_by_side()
    ensures ranges { (t : Table) (h : ℕ) (xs ys : List Span) → map_of t h (xs ++ ys) ≡ map_of t h xs ++ map_of t h ys }
    ensures rows { (p : ℕ → Span → Bool) (t : Table) (h : ℕ) (xs ys : List Span) → times p t h (xs ++ ys) ≡ times p t h xs + times p t h ys }
{}

/// Tables with the same spans in each node that is reached represent the same.
pub fn same_spans_stand_for_the_same()
    ensures ranges { (t t' : Table) (h : ℕ) (xs : List Span) → Levels (λ (_ : ℕ) (x : Span). SameSpans t t' x) t h xs → map_of t' h xs ≡ map_of t h xs }
    ensures rows { (p : ℕ → Span → Bool) (t t' : Table) (h : ℕ) (xs : List Span)
        → Levels (λ (_ : ℕ) (x : Span). SameSpans t t' x) t h xs → times p t' h xs ≡ times p t h xs }
{}

/// One store of a slot's word replaces what is below the slot. The new child is known by the words after the store. Or it is
/// known by those before it, if its nodes were not reached, or were reached from the old child.
pub fn one_store_replaces_a_child()
    ensures by_words_after { (t : Tree) (h k depth slot word : ℕ) (row child : Span)
        → HasWords t → Stands t h → h ≡ depth + suc k → IsSlotAt t depth row slot child
        → let t' = with_slot t (suc k) row slot word in let child' = with_child child word in
        Levels (IsRow t') t'.table k (child' ∷ []) → ReplacesChild t t' h k (suc depth) child child' }
    ensures by_words_before { (t : Tree) (h k depth slot word : ℕ) (row child : Span)
        → HasWords t → Stands t h → h ≡ depth + suc k → IsSlotAt t depth row slot child
        → let t' = with_slot t (suc k) row slot word in let child' = with_child child word in
        Levels (IsRow t) t.table k (child' ∷ []) → IsNewBelow t h k child child'
        → ReplacesChild t t' h k (suc depth) child child' × (map_of t'.table k (child' ∷ []) ≡ map_of t.table k (child' ∷ [])) }
{}

/// An entry is replaced by another by one store of its slot, and nothing else changes.
pub fn one_store_replaces_an_entry()
    ensures { (t : Tree) (h slot entry : ℕ) (row item : Span)
        → HasWords t → Stands t h → IsSlotAt t h row slot item → item.word ≢ 0 → entry ≢ 0 → reserved entry ≡ false
        → ReplacesEntry t (with_slot t 0 row slot entry) h item entry }
{}

/// One store of the root word replaces what is below it, by a tree of any height.
pub fn one_store_replaces_the_root()
    ensures grown { (t : Tree) (h word : ℕ) → h < deepest → let t' = record t { root = word } in Levels (IsRow t') t'.table h (root_of t')
        → Stands t' h × (map_in t'.table t'.root ≡ map_of t.table h (root_of t')) }
    ensures emptied { (t : Tree) → let t' = record t { root = 0 } in IsTree t' × (map_in t'.table t'.root ≡ []) }
{}

/// A draft, a dead mark and a new parent word leave what every other node holds. A dead mark and a parent word also leave what
/// the node itself holds.
pub fn writes_leave_other_rows()
    ensures draft { (s : Sheet) (row col word : ℕ) (x : Span)
        → IsPlace s.tree row col → row_in x.word ≢ row → SameSpans s.tree.table (drafted s row col word).tree.table x }
    ensures bury { (s : Sheet) (row : ℕ) (x : Span) → IsPlace s.tree row 0 → SameSpans s.tree.table (after_bury s row).tree.table x }
    ensures tend { (s : Sheet) (row word : ℕ) (x : Span) → IsPlace s.tree row 0 → SameSpans s.tree.table (tended s row 0 word).tree.table x }
{}

/// A store of an entry over just the indexes of a range may be published by one store of its slot, and takes no node.
pub fn an_exact_store_may_be_published()
    ensures { (kind : Kind) (s : Sheet) (h slot entry row col : ℕ) (leaf item : Span) → IsWhole s → s.in_flight ≡ true → s.published ≡ false
        → LiveAreReached s.tree s.lives → NoneBuried s.tree.rows s.buried → IsToldKind s.kind kind → s.tree.table.width ≡ kind_width kind
        → Stands (tree_as kind s.tree) h → IsSlotAt (tree_as kind s.tree) h leaf slot item
        → row ≡ row_in leaf.word → col ≡ slot_column (slots_of s.tree.table.width (kind_at kind 0)) slot
        → item.word ≢ 0 → entry ≢ 0 → reserved entry ≡ false
        → let call = Store item.first item.last entry in MayPublish kind s (Slot row col) entry call (acted kind (map_by s.tree) call).1 }
{}

/// A tree of as many nodes as can be named has nine levels at most; and the inner nodes on a way from the root to a leaf have
/// 128 slots at most, whatever the width.
pub fn a_tree_has_nine_levels_at_most()
    ensures levels { (t : Tree) (h : ℕ) → t.rows ≤ most_rows → Levels (IsRow t) t.table h (root_of t) → h < deepest }
    ensures slots { (t : Tree) (h : ℕ) → t.rows ≤ most_rows → Levels (IsRow t) t.table h (root_of t) → slots_of t.table.width (inner_of t.gapped) * h ≤ 128 }
{}

/// A tree has at most half as many nodes as ranges, rounded down, and two more. It has a node on each level, and at least half
/// of 3 * 4 ^ h ranges for the height h, rounded down.
pub fn a_tree_has_few_rows()
    ensures rows { (t : Tree) (h : ℕ) → Stands t h → length (reached_in t.table t.root) ≤ length (map_in t.table t.root) / 2 + 2 }
    ensures levels { (t : Tree) (h : ℕ) → Stands t h → h + 1 ≤ length (reached_in t.table t.root) }
    ensures tall { (t : Tree) (h : ℕ) → Stands t h → 3 * 4 ^ h ≤ 2 * length (map_in t.table t.root) + 1 }
{}
