//! What follows from the definition of a check. Each law (lemma) is the contract of a function that does nothing.

ghost use Rattle.std.specs.Prelude.{◌≡◌, Ok, Err, []};
ghost use Rattle.mt_base.specs.declared.widths.Width.TheVariants.{Long};
ghost use Rattle.mt_base.specs.Width.{greatest};
ghost use Rattle.mt_rows.specs.Laws.{Tree, IsLawful};
ghost use Rattle.mt_check.specs.declared.faults.Law.TheVariants.{Name, Parent, Pivots, Count, Entries, Holes, Gaps};
ghost use Rattle.mt_check.specs.Check.{faults_in, checked};
ghost use Rattle.mt_check.specs.Examples.{one_leaf, one_child, two_leaves, narrow_leaf, narrow_leaves, with_column};

/// Words have no fault exactly if they are well-formed (well-formed).
pub fn words_without_faults_are_lawful()
    ensures sound { (t : Tree) → faults_in t ≡ [] → IsLawful t }
    ensures complete { (t : Tree) → IsLawful t → faults_in t ≡ [] }
{}

/// Trees worked by hand are checked as they should be.
pub fn worked_trees_are_checked_by_hand()
    ensures leaf { checked one_leaf ≡ Ok (record { height = 1; rows = 1; ranges = 1 }) }
    ensures leaves { checked two_leaves ≡ Ok (record { height = 2; rows = 3; ranges = 11 }) }
    ensures name { checked (record one_leaf { root = 4109 }) ≡ Err (record { row = 0; law = Name }) }
    ensures parent { checked (with_column one_leaf 16 0 2) ≡ Err (record { row = 16; law = Parent }) }
    ensures pivots { checked (with_column one_leaf 16 2 9) ≡ Err (record { row = 16; law = Pivots }) }
    ensures count { checked one_child ≡ Err (record { row = 16; law = Count }) }
    ensures entries { checked (with_column one_leaf 16 17 6) ≡ Err (record { row = 16; law = Entries }) }
    ensures holes { checked (with_column one_leaf 16 17 0) ≡ Err (record { row = 16; law = Holes }) }
    ensures gaps { checked (with_column two_leaves 16 21 0) ≡ Err (record { row = 16; law = Gaps }) }
    ensures narrow { checked narrow_leaf ≡ Ok (record { height = 1; rows = 1; ranges = 1 }) }
    ensures narrow_top { checked (with_column narrow_leaf 16 3 (greatest Long)) ≡ Err (record { row = 16; law = Pivots }) }
    ensures narrow_unused { checked (with_column narrow_leaf 16 63 1) ≡ Err (record { row = 16; law = Pivots }) }
    ensures narrow_leaves { checked (narrow_leaves 14) ≡ Ok (record { height = 2; rows = 3; ranges = 27 }) }
    ensures narrow_count { checked (narrow_leaves 13) ≡ Err (record { row = 17; law = Count }) }
    ensures narrow_gaps { checked (with_column (narrow_leaves 14) 16 43 0) ≡ Err (record { row = 16; law = Gaps }) }
{}
