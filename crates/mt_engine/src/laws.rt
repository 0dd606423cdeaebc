//! What holds of trees and of what they hold. Each law (lemma) is the contract of a function that does nothing.

ghost use Rattle.std.specs.Prelude.{◌≡◌, ◌≢◌, ◌≤◌, ℕ, List, [], ◌∷◌, Some, None, take};
ghost use Rattle.mt_base.specs.declared.kinds.Kind.{Kind};
ghost use Rattle.mt_base.specs.Map.{IsMap};
ghost use Rattle.mt_base.specs.Width.{greatest};
ghost use Rattle.mt_rows.specs.Publish.{IsTreeOf, map_by};
ghost use Rattle.mt_rows.specs.Sheet.{Rooted};
ghost use Rattle.mt_path.specs.Handles.{handle_in};
ghost use Rattle.mt_base.specs.declared.ranges.Range.{Range};
ghost use Rattle.mt_engine.specs.Batches.{Stepped, entries_at, put_first, steps_from, three_ranges};
ghost use Rattle.mt_engine.specs.MapSpans.{IsSpanAt};

/// The words of a tree represent a map of its kind: its ranges rise, none is empty, and none ends above the greatest index.
pub fn words_stand_for_a_map()
    ensures { (t : Rooted) (kind : Kind) → IsTreeOf t kind → IsMap kind (map_by t) }
{}

/// The slot of an index has what the map has there: the range that holds it, or the whole hole around it.
pub fn a_slot_has_what_the_map_has()
    ensures { (t : Rooted) (kind : Kind) (index : ℕ) → IsTreeOf t kind
        → t.root ≢ 0 → index ≤ greatest t.table.width → IsSpanAt (map_by t) (greatest t.table.width) index (handle_in t index).span }
{}

/// Batches of three ranges, 10 to 19, 20 to 29 and 40, below a greatest index of 99. A batch of no step leaves the walk. One of
/// two steps finds two ranges, and the walk goes on right after the second. A full one of three does not know yet that it has
/// reached the end; one of four does. After the end there is no range.
#[tactic(auto, unfolding(crate::specs::Batches::steps_from))]
pub fn batches_are_so_many_steps()
    ensures none { steps_from three_ranges 99 0 (Some 15) ≡ record { found = []; next = Some 15 } }
    ensures two { steps_from three_ranges 99 2 (Some 15)
        ≡ record { found = record { first = 10; last = 19; entry = 1 } ∷ record { first = 20; last = 29; entry = 2 } ∷ []; next = Some 30 } }
    ensures full { steps_from three_ranges 99 3 (Some 0) ≡ record { found = three_ranges; next = Some 41 } }
    ensures more { steps_from three_ranges 99 4 (Some 0) ≡ record { found = three_ranges; next = None } }
    ensures last { steps_from three_ranges 40 3 (Some 30) ≡ record { found = record { first = 40; last = 40; entry = 3 } ∷ []; next = None } }
    ensures behind { (n : ℕ) → 1 ≤ n → steps_from three_ranges 99 n (Some 41) ≡ record { found = []; next = None } }
    ensures ended { (m : List Range) (top n : ℕ) → (steps_from m top n None).found ≡ [] }
{}

/// Look-ups in these ranges: as many as there are both indexes and places, 0 for a hole.
pub fn look_ups_are_put_in_order()
    ensures all { put_first (entries_at three_ranges (15 ∷ 30 ∷ 40 ∷ [])) (7 ∷ 7 ∷ 7 ∷ 7 ∷ []) ≡ 1 ∷ 0 ∷ 3 ∷ 7 ∷ [] }
    ensures few { put_first (entries_at three_ranges (take 1 (15 ∷ 30 ∷ 40 ∷ []))) (7 ∷ []) ≡ 1 ∷ [] }
    ensures none { put_first (entries_at three_ranges []) (7 ∷ 7 ∷ []) ≡ 7 ∷ 7 ∷ [] }
{}
