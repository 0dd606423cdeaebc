//! What the lines of a phase ask is of that phase, of the log's lanes, and names trees that are declared. Each law is the
//! contract of a function that does nothing.

ghost use Rattle.std.specs.Prelude.{◌≡◌, ◌<◌, ◌≤◌, ℕ, false, List, ◌++◌, length};
ghost use Rattle.std.specs.List.{AllByRecursion};
ghost use Rattle.mt_log.specs.declared.lines.Line.{Line};
ghost use Rattle.mt_log.specs.Phases.{AreInPlaceFrom, stepped_from};
ghost use Rattle.mt_log.specs.Run.{Asked, asked_from, steps_of};
ghost use Rattle.mt_log.specs.Trees.{AreNamedFrom, Declared, IsReadable, NamesBelow, trees_from, trees_of};
ghost use Rattle.mt_base.specs.Limits.{most_lanes};
ghost use Rattle.mt_linearize.specs.Lines.{lane_behind};
ghost use Rattle.mt_desks.specs.Dealing.{counts_in, lanes_in, lines_of_lane, steps_in};
ghost use Rattle.mt_desks.specs.Desks.{AreLines};

/// What the lines of a phase ask is of this phase, and of lanes below any number that is not below the log's.
pub fn what_is_asked_is_of_its_phase()
    ensures steps { (here phase : ℕ) (lines : List Line) → AllByRecursion (λ (a : Asked). a.phase ≡ phase) (steps_in here phase lines) }
    ensures counts { (phase : ℕ) (lines : List Line) → AllByRecursion (λ (a : Asked). (a.phase ≡ phase) × (a.lane ≡ 0)) (counts_in phase lines) }
    ensures placed { (passes here phase : ℕ) (lines : List Line) → lanes_in here lines ≤ passes
        → AllByRecursion (λ (a : Asked). (a.phase ≡ phase) × (a.lane < passes)) (counts_in phase lines ++ steps_in here phase lines) }
{}

/// Each lane that a log asks is below the number of its lanes, which is at least 1. A part of a log has no more lanes than the
/// whole. If lines name only lanes that there may be, their number is at most `most_lanes`.
pub fn lanes_are_counted()
    ensures asked { (lines : List Line) → AllByRecursion (λ (a : Asked). a.lane < lanes_in 0 lines) (steps_of lines) }
    ensures onward { (here phase : ℕ) (lines : List Line) → AllByRecursion (λ (a : Asked). a.lane < lanes_in here lines) (asked_from here phase lines) }
    ensures steps { (here phase : ℕ) (lines : List Line) → AllByRecursion (λ (a : Asked). a.lane < lanes_in here lines) (steps_in here phase lines) }
    ensures some { (here : ℕ) (lines : List Line) → 1 ≤ lanes_in here lines }
    ensures few { (count here : ℕ) (lines : List Line) → AreNamedFrom count lines → here < most_lanes → lanes_in here lines ≤ most_lanes }
    ensures behind { (here : ℕ) (front lines : List Line) → lanes_in (lane_behind here front) lines ≤ lanes_in here (front ++ lines) }
    ensures before { (here : ℕ) (lines rest : List Line) → lanes_in here lines ≤ lanes_in here (lines ++ rest) }
{}

/// What the lines of a phase ask names trees that are declared when its lanes start.
pub fn what_is_asked_is_declared()
    ensures named { (trees : List Declared) (here phase : ℕ) (lines : List Line) → AreNamedFrom (length trees) lines
        → AllByRecursion (λ (a : Asked). NamesBelow (length (trees_from trees phase lines)) a.item) (counts_in phase lines ++ steps_in here phase lines) }
    ensures lines { (trees : List Declared) (lane here phase : ℕ) (lines : List Line) → AreNamedFrom (length trees) lines
        → AreLines (length (trees_from trees phase lines)) (lines_of_lane lane here lines) }
{}

/// Lines of a readable log name trees that are declared before them, and are in their places.
pub fn lines_of_a_readable_log()
    ensures named { (front lines rest : List Line) → IsReadable (front ++ (lines ++ rest)) → AreNamedFrom (length (trees_of front)) lines }
    ensures placed { (front lines rest : List Line) → IsReadable (front ++ (lines ++ rest)) → AreInPlaceFrom (stepped_from false front) lines }
{}
