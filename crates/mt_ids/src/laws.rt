//! What draws do to a map. Each law (lemma) is the contract of a function that does nothing.

ghost use Rattle.std.specs.Prelude.{◌≡◌, ℕ, ◌+◌, ◌≤◌, true, false, List, [], Some, None, length};
ghost use Rattle.mt_base.specs.declared.kinds.Kind.{Kind};
ghost use Rattle.mt_base.specs.declared.kinds.Kind.TheVariants as kinds;
ghost use Rattle.mt_base.specs.declared.ranges.Range.{Range};
ghost use Rattle.mt_base.specs.declared.replies.Shortage.{Shortage};
ghost use Rattle.mt_base.specs.Holes.{low};
ghost use Rattle.mt_base.specs.Map.{IsMap, over, is_held};
ghost use Rattle.mt_base.specs.Width.{most_rows};
ghost use Rattle.mt_ids.specs.Allocation.{Allocation};
ghost use Rattle.mt_ids.specs.Draws.{IsDrawShort, position_behind, drawn};
ghost use Rattle.mt_ids.specs.Window.{Draws, new_draws};

/// A number that is drawn was free, and its entry adds at most one range.
#[tactic(auto, using(crate::proofs::FewRanges::found_is_free, crate::proofs::FewRanges::one_range_more))]
pub fn a_draw_adds_one_range_at_most()
    ensures free { (kind : Kind) (m : List Range) (lo hi s : ℕ) → IsMap kind m → low kind m 1 lo hi ≡ Some s → is_held m s s ≡ false }
    ensures more { (m : List Range) (s entry : ℕ) → is_held m s s ≡ false → length (over m s s entry) ≤ length m + 1 }
{}

/// A tree of 65,504 nodes with at most 100,001 ranges refuses no draw because nodes are short, if no other reader may hold
/// nodes back.
#[tactic(auto, using(crate::proofs::FewRanges::none_lacked))]
pub fn no_draw_of_few_ranges_lacks_rows()
    ensures { (d : Draws) (s : Allocation) (entry : ℕ) (shortage : Shortage) (s' : Allocation) → s.rows ≡ most_rows
        → length s.map ≤ 100001 → s.alone ≡ true → IsDrawShort d s entry shortage s' → ⊥ }
{}

/// Worked draws from the window 5 to 6. The empty map gives 5. After the window's last index the search has to begin again. A
/// full window gives none.
pub fn draws_worked()
    ensures first { drawn kinds.Alloc [] (new_draws 5 6) ≡ Some (record { at = 5; wrapped = false }) }
    ensures behind { (position_behind (new_draws 5 6) 5).at ≡ Some 6 }
    ensures ends { (position_behind (new_draws 5 6) 6).at ≡ None }
    ensures anew { drawn kinds.Alloc (over [] 6 6 4097) (position_behind (new_draws 5 6) 6) ≡ Some (record { at = 5; wrapped = true }) }
    ensures full { drawn kinds.Alloc (over [] 5 6 4097) (position_behind (new_draws 5 6) 6) ≡ None }
{}
