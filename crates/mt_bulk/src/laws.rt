//! What holds of the tree that is built of ranges. Each law is the contract of a function that does nothing.

ghost use Rattle.std.specs.Prelude.{◌≡◌, ℕ, ◌+◌, ◌*◌, ◌<◌, ◌≤◌, List, [], ◌∷◌, None, length, map};
ghost use Rattle.std.specs.List.{flat_map};
ghost use Rattle.mt_base.specs.declared.kinds.Kind.{Kind};
ghost use Rattle.mt_base.specs.declared.kinds.Kind.TheVariants as trees;
ghost use Rattle.mt_base.specs.declared.ranges.Range.{Range};
ghost use Rattle.mt_base.specs.Map.{IsMap};
ghost use Rattle.mt_base.specs.Width.{greatest_of, kind_width, most_rows};
ghost use Rattle.mt_layout.specs.declared.items.Item.{Item};
ghost use Rattle.mt_layout.specs.Spans.{spans_from, leaf_range, Fills, Apart};
ghost use Rattle.mt_rows.specs.OfWords.{tree_made};
ghost use Rattle.mt_rows.specs.Publish.{IsLawfulOf, map_by};
ghost use Rattle.mt_bulk.specs.Bulk.{bulk, rows_in};
ghost use Rattle.mt_bulk.specs.Cuts.{cut, leaf_size, inner_size, AreCut, EndsWithEntry, EndsAnyhow};
ghost use Rattle.mt_bulk.specs.Examples.{worked_ranges};
ghost use Rattle.mt_bulk.specs.Items.{items_of, misplaced};

/// The items of a map fill all indexes, no two holes follow each other, and their ranges are the map.
#[tactic(auto, using(crate::proofs::ItemLaws::map_items_fill, crate::proofs::ItemLaws::map_items_apart, crate::proofs::ItemLaws::map_items_ranges))]
pub fn items_stand_for_their_map()
    ensures fill { (kind : Kind) (m : List Range) → IsMap kind m → Fills 0 (greatest_of kind + 1) (spans_from 0 (items_of kind m)) }
    ensures apart { (kind : Kind) (m : List Range) → IsMap kind m → Apart (spans_from 0 (items_of kind m)) }
    ensures ranges { (kind : Kind) (m : List Range) → IsMap kind m → flat_map leaf_range (spans_from 0 (items_of kind m)) ≡ m }
{}

/// Leaves have as many items as a node of a well-formed tree, and none but the last ends with a hole.
pub fn leaves_are_cut()
    ensures any { (least most : ℕ) → 2 ≤ least → 2 * least + 2 ≤ most → (items : List Item) → Apart (spans_from 0 items)
        → AreCut least most EndsWithEntry items (cut (leaf_size most) items) }
    ensures wide { (items : List Item) → Apart (spans_from 0 items) → AreCut 6 16 EndsWithEntry items (cut (leaf_size 16) items) }
    ensures narrow { (items : List Item) → Apart (spans_from 0 items) → AreCut 14 32 EndsWithEntry items (cut (leaf_size 32) items) }
{}

/// Inner nodes have as many items as a node of a well-formed tree.
pub fn inner_rows_are_cut()
    ensures any { (least most : ℕ) → 2 ≤ least → 2 * least ≤ most + 1 → (items : List Item) → AreCut least most EndsAnyhow items (cut (inner_size most) items) }
    ensures wide { (items : List Item) → AreCut 6 16 EndsAnyhow items (cut (inner_size 16) items) }
    ensures wide_gapped { (items : List Item) → AreCut 4 10 EndsAnyhow items (cut (inner_size 10) items) }
    ensures narrow { (items : List Item) → AreCut 14 32 EndsAnyhow items (cut (inner_size 32) items) }
    ensures narrow_gapped { (items : List Item) → AreCut 9 21 EndsAnyhow items (cut (inner_size 21) items) }
{}

/// Worked cut: the ranges K..K for K = 0, 2 to 38 are 40 items with a hole last, in leaves of 15, 14 and 11.
#[tactic(auto, unfolding(crate::specs::Bulk::built_up))]
pub fn worked_build()
    ensures items { length (items_of trees.Range worked_ranges) ≡ 40 }
    ensures leaves { map length (cut (leaf_size 16) (items_of trees.Range worked_ranges)) ≡ 15 ∷ 14 ∷ 11 ∷ [] }
    ensures root { (bulk trees.Range worked_ranges).root ≡ 4884 }
    ensures rows { rows_in trees.Range worked_ranges ≡ 4 }
{}

/// A tree that is built from ranges in good order is well-formed and represents the ranges, if it has no more nodes than can be
/// named.
pub fn what_is_built_is_lawful()
    ensures { (tree : Kind) (m : List Range) → misplaced tree m ≡ None → rows_in tree m ≤ most_rows
        → IsLawfulOf (tree_made (kind_width tree) (bulk tree m).root (bulk tree m).words) tree
        × (map_by (tree_made (kind_width tree) (bulk tree m).root (bulk tree m).words) ≡ m) }
{}
