//! What the rule of a tree's table says of its seats together. Each law (lemma) is the contract of a function that does
//! nothing.

ghost use Rattle.std.specs.Prelude.{◌≡◌, ℕ, ◌+◌, Some};
ghost use mathlib.Core.Option.{some};
ghost use lib.ListN.{get_elem?};
ghost use Rattle.atomic_table.specs.Table.{State};
ghost use Rattle.mt_life.specs.declared.views.Held.{Held};
ghost use Rattle.mt_rows.specs.Sheet.{IsFree, life_of};
ghost use Rattle.mt_rule.specs.declared.views.PassPart.{PassPart};
ghost use Rattle.mt_rule.specs.declared.views.PenPart.{PenPart};
ghost use Rattle.mt_rule.specs.declared.views.TableStart.{TableStart};
ghost use Rattle.mt_rule.specs.declared.views.View.{View};
ghost use Rattle.mt_rule.specs.Rule.{IsKept};
ghost use Rattle.mt_rule.specs.Seats.{least_number};

/// A node that the section of a handle holds is not free for the pen, whichever seats they have. No call writes it again while
/// the section holds it.
pub fn a_held_row_is_not_free()
    ensures { (told : TableStart) (s : State (Unit {0}) View) (writer reader : ℕ) (v w : View) (p : PenPart) (q : PassPart) (j : ℕ) (x : Held)
        → IsKept told s → get_elem? s.views writer ≡ some v → v.pen ≡ Some p → get_elem? s.views reader ≡ some w → w.pass ≡ Some q
        → get_elem? q.held j ≡ some x → ¬ IsFree (least_number p.cleared) (life_of p.lives x.row) }
{}
