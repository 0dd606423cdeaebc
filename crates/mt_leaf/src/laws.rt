//! What a store on the items of leaves does. Each law is the contract of a function that does nothing.

ghost use Rattle.std.specs.Prelude.{◌≡◌, ◌+◌, ◌*◌, ◌<◌, ◌≤◌, ℕ, Bool, true, List, [], ◌∷◌, ◌++◌, length};
ghost use Rattle.std.specs.List.{flat_map};
ghost use Rattle.mt_base.specs.Map.{over};
ghost use Rattle.mt_layout.specs.declared.items.Item.{Item};
ghost use Rattle.mt_layout.specs.declared.spans.Span.{Span};
ghost use Rattle.mt_layout.specs.Columns.{end_of, NoGaps};
ghost use Rattle.mt_layout.specs.Spans.{spans_from, leaf_range, Fills, Apart, EndsFull};
ghost use Rattle.mt_leaf.specs.declared.cuts.Towards.TheVariants.{First, Last};
ghost use Rattle.mt_leaf.specs.Cuts.{ArePieces, MeetAt};
ghost use Rattle.mt_leaf.specs.Edits.{edited, stored, holes_joined, starting, ends_with_hole};

/// A store on the spans of leaves is a store on the map that they represent.
pub fn an_edit_is_a_store()
    ensures ranges { (xs : List Span) (first last entry : ℕ)
        → flat_map leaf_range (edited xs first last entry) ≡ over (flat_map leaf_range xs) first last entry }
    ensures fills { (lo hi first last entry : ℕ) (xs : List Span) → Fills lo hi xs → lo ≤ first → first ≤ last → last < hi
        → Fills lo hi (edited xs first last entry) }
    ensures apart { (xs : List Span) (first last entry : ℕ) → Apart (edited xs first last entry) }
    ensures count { (lo hi first last entry : ℕ) (xs : List Span) → Fills lo hi xs → first ≤ last → length (edited xs first last entry) ≤ length xs + 2 }
{}

/// What lies between the leaf where a store begins and the leaf where it ends does not count.
pub fn leaves_between_do_not_count()
    ensures { (lo middle behind hi first last entry : ℕ) (left between right : List Span) → Fills lo middle left
        → Fills middle behind between → Fills behind hi right → first < middle → behind ≤ last → last < hi
        → stored (left ++ starting middle right) first last entry ≡ stored (left ++ (between ++ right)) first last entry }
{}

/// Holes are joined where leaves meet, and nowhere else in well-formed leaves.
pub fn leaves_are_joined()
    ensures ranges { (xs : List Span) → flat_map leaf_range (holes_joined xs) ≡ flat_map leaf_range xs }
    ensures fills { (lo hi : ℕ) (xs : List Span) → Fills lo hi xs → Fills lo hi (holes_joined xs) }
    ensures apart { (xs : List Span) → Apart (holes_joined xs) }
    ensures count { (xs ys : List Span) → Apart xs → Apart ys → length xs + length ys ≤ length (holes_joined (xs ++ ys)) + 1 }
    ensures most { (xs : List Span) → length (holes_joined xs) ≤ length xs }
{}

/// Spans determine their items. Equal spans have equal items if none has a gap, and items that follow others begin at their
/// end.
pub fn spans_tell_the_items()
    ensures same { (first : ℕ) (xs ys : List Item) → NoGaps xs → NoGaps ys → spans_from first xs ≡ spans_from first ys → xs ≡ ys }
    ensures append { (first : ℕ) (xs ys : List Item) → 1 ≤ length xs → spans_from first (xs ++ ys) ≡ spans_from first xs ++ spans_from (end_of 0 xs + 1) ys }
{}

/// A store on one leaf, or on two leaves with the leaves between them left out, gives few enough items for two nodes and a
/// hole.
pub fn an_edit_is_short()
    ensures one { (lo hi first last entry n : ℕ) (xs : List Span) → Fills lo hi xs → lo ≤ first → first ≤ last → last < hi
        → length xs ≤ n → length (edited xs first last entry) ≤ n + 2 }
    ensures one_to_a_hole { (lo hi first last entry n : ℕ) (xs : List Span) → Fills lo hi xs → lo ≤ first → first ≤ last → last < hi → length xs ≤ n
        → ends_with_hole (edited xs first last entry) ≡ true → EndsFull xs → length (edited xs first last entry) ≤ n + 1 }
    ensures two { (lo middle behind hi first last entry n : ℕ) (left right : List Span) → Fills lo middle left
        → Fills behind hi right → first < middle → middle ≤ behind → behind ≤ last → last < hi → length left ≤ n
        → length right ≤ n
        → length (edited (left ++ starting middle right) first last entry) ≤ 2 * n + 1 }
    ensures two_to_a_hole { (lo middle behind hi first last entry n : ℕ) (left right : List Span) → Fills lo middle left
        → Fills behind hi right → first < middle → middle ≤ behind → behind ≤ last → last < hi → length left ≤ n
        → length right ≤ n
        → ends_with_hole (edited (left ++ starting middle right) first last entry) ≡ true → EndsFull right
        → length (edited (left ++ starting middle right) first last entry) ≤ n + 1 }
{}

/// A cut towards an end is as near to it as may be: no other two nodes have fewer items at that end.
pub fn a_cut_towards_an_end_is_nearest()
    ensures first { (leaf : Bool) (least most : ℕ) (items : List Item) (to other : ℕ) → MeetAt First leaf least most items to
        → ArePieces leaf least most items 0 (other ∷ length items ∷ []) → to ≤ other }
    ensures last { (leaf : Bool) (least most : ℕ) (items : List Item) (to other : ℕ) → MeetAt Last leaf least most items to
        → ArePieces leaf least most items 0 (other ∷ length items ∷ []) → other ≤ to }
{}
