//! What holds of paths. Each law is the contract of a function that does nothing.

ghost use Rattle.std.specs.Prelude.{◌≡◌, ◌+◌, ◌-◌, ◌<◌, ◌≤◌, ℕ, length};
ghost use Rattle.mt_rows.specs.Laws.{Tree, Stands, top_of};
ghost use Rattle.mt_path.specs.Paths.{path_in, step_at};

/// A path has a step for each level, and each node on it covers the index.
pub fn a_path_leads_to_its_index()
    ensures levels { (t : Tree) (h index : ℕ) → Stands t h → index ≤ top_of t → length (path_in t.table t.root index) ≡ h + 1 }
    ensures from { (t : Tree) (h index level : ℕ) → Stands t h → index ≤ top_of t → level ≤ h → (step_at (path_in t.table t.root index) level).min ≤ index }
    ensures to { (t : Tree) (h index level : ℕ) → Stands t h → index ≤ top_of t → level ≤ h → index ≤ (step_at (path_in t.table t.root index) level).max }
{}

/// The node right of another begins after its last index, and the node left of it ends before its first.
pub fn neighbours_stand_side_by_side()
    ensures right { (t : Tree) (h index level : ℕ) → Stands t h → index ≤ top_of t → level ≤ h → (step_at (path_in t.table t.root index) level).max < top_of t
        → (step_at (path_in t.table t.root ((step_at (path_in t.table t.root index) level).max + 1)) level).min
        ≡ (step_at (path_in t.table t.root index) level).max + 1 }
    ensures left { (t : Tree) (h index level : ℕ) → Stands t h → index ≤ top_of t → level ≤ h → 0 < (step_at (path_in t.table t.root index) level).min
        → (step_at (path_in t.table t.root ((step_at (path_in t.table t.root index) level).min - 1)) level).max + 1
        ≡ (step_at (path_in t.table t.root index) level).min }
{}
