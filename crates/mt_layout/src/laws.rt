//! Laws (lemmas) of names and nodes.
ghost use Rattle.std.specs.Prelude.{◌≡◌, ℕ, ◌+◌, ◌<◌, List, Some, None, slice_index};
ghost use Rattle.mt_layout.specs.declared.names.RowKind.{RowKind};
ghost use Rattle.mt_layout.specs.Rows.{IsRowNumber, Names, name_at, row_in, named_row, named_kind};
ghost use Rattle.mt_layout.specs.Columns.{IsLayout, items_at};

/// A name reads back as the node and the kind that it was made from.
pub fn names_are_read_back()
    ensures row { (row : ℕ) (kind : RowKind) → IsRowNumber row → named_row (name_at row kind) ≡ Some row }
    ensures kind { (row : ℕ) (kind : RowKind) → IsRowNumber row → named_kind (name_at row kind) ≡ Some kind }
{}

/// What is read as the name of a node is its name.
pub fn what_is_read_is_a_name()
    ensures row { (word row : ℕ) → named_row word ≡ Some row → ((kind : RowKind) × Names word row kind) }
    ensures kind { (word : ℕ) (kind : RowKind) → named_kind word ≡ Some kind → Names word (row_in word) kind }
{}

/// What is not read as a name is no node's name.
pub fn what_is_not_read_is_no_name()
    ensures row { (word : ℕ) → named_row word ≡ None → (row : ℕ) (kind : RowKind) → Names word row kind → ⊥ }
    ensures kind { (word : ℕ) → named_kind word ≡ None → (row : ℕ) (kind : RowKind) → Names word row kind → ⊥ }
{}

/// The items of a node are in its own columns, and not in that of its parent word.
pub fn items_are_in_own_columns()
    ensures { (words slots gaps base base' : ℕ) (w w' : List ℕ) → IsLayout words slots gaps
        → ((c : ℕ) → 0 < c → c < words → slice_index w (base + c) ≡ slice_index w' (base' + c))
        → (max : ℕ) → items_at slots gaps w base max ≡ items_at slots gaps w' base' max }
{}
