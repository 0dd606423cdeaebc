//! A log line by line: what one more line asks for and declares, and what a log that can be read says at each line. Each law is
//! the contract of a function that does nothing.

ghost use Rattle.std.specs.Prelude.{◌≡◌, ◌≢◌, ◌<◌, ℕ, Bool, false, All, List, [], ◌∷◌, ◌++◌, length};
ghost use Rattle.std.specs.List.{AllByRecursion};
ghost use Rattle.std.specs.Option.{option_to_list};
ghost use Rattle.mt_log.specs.declared.lines.Line.{Line};
ghost use Rattle.mt_log.specs.Phases.{IsInPlace, phase_after, stepped_after, stepped_from};
ghost use Rattle.mt_log.specs.Run.{Asked, Step, AreDone, asked_from, lane_after, steps_of};
ghost use Rattle.mt_log.specs.Trees.{IsReadable, NamesBelow, NumbersRiseFrom, declared_by, trees_from, trees_of};
ghost use Rattle.mt_base.specs.Limits.{most_lanes};
ghost use Rattle.mt_linearize.specs.Lines.{asked_by, lane_behind, phase_behind};
ghost use Rattle.mt_linearize.specs.Tracks.{Pairs};

/// Behind these lines, one line more.
pub fn one_more_line()
    ensures asked { (lines : List Line) (line : Line)
        → steps_of (lines ++ line ∷ []) ≡ steps_of lines ++ asked_by (lane_behind 0 lines) (phase_behind 0 lines) line }
    ensures trees { (lines : List Line) (line : Line)
        → trees_of (lines ++ line ∷ []) ≡ trees_of lines ++ option_to_list (declared_by (trees_of lines) (phase_behind 0 lines) line.item) }
    ensures lane { (lines : List Line) (line : Line) → lane_behind 0 (lines ++ line ∷ []) ≡ lane_after (lane_behind 0 lines) line.item }
    ensures phase { (lines : List Line) (line : Line) → phase_behind 0 (lines ++ line ∷ []) ≡ phase_after (phase_behind 0 lines) line.item }
    ensures stepped { (lines : List Line) (line : Line) → stepped_from false (lines ++ line ∷ []) ≡ stepped_after (stepped_from false lines) line.item }
{}

/// Behind these lines, some lines more, as those of a phase.
pub fn lines_behind_lines()
    ensures asked { (lines more : List Line) → steps_of (lines ++ more) ≡ steps_of lines ++ asked_from (lane_behind 0 lines) (phase_behind 0 lines) more }
    ensures trees { (lines more : List Line) → trees_of (lines ++ more) ≡ trees_from (trees_of lines) (phase_behind 0 lines) more }
    ensures lane { (lane : ℕ) (lines more : List Line) → lane_behind lane (lines ++ more) ≡ lane_behind (lane_behind lane lines) more }
    ensures phase { (phase : ℕ) (lines more : List Line) → phase_behind phase (lines ++ more) ≡ phase_behind (phase_behind phase lines) more }
    ensures stepped { (stepped : Bool) (lines more : List Line) → stepped_from stepped (lines ++ more) ≡ stepped_from (stepped_from stepped lines) more }
{}

/// The steps that came of lines are of the lines' phase and lanes, on the trees that the lines name.
pub fn steps_are_of_their_lines()
    ensures placed { (passes phase : ℕ) (asked : List Asked) (steps : List Step)
        → AllByRecursion (λ (a : Asked). (a.phase ≡ phase) × (a.lane < passes)) asked → AreDone asked steps
        → All (λ (s : Step). (s.phase ≡ phase) × (s.lane < passes)) steps }
    ensures named { (count : ℕ) (asked : List Asked) (steps : List Step)
        → AllByRecursion (λ (a : Asked). NamesBelow count a.item) asked → AreDone asked steps
        → All (λ (s : Step). s.tree < count) steps }
{}

/// The outcome of some lines, followed by the outcome of others.
pub fn steps_behind_steps()
    ensures { (asked others : List Asked) (steps more : List Step) → AreDone asked steps → AreDone others more → AreDone (asked ++ others) (steps ++ more) }
{}

/// What a line of a readable log may say after the lines before it. It names trees that they declare, it is in its place, and
/// the log is in one of the lanes there.
pub fn a_line_of_a_readable_log()
    ensures named { (lines rest : List Line) (line : Line) → IsReadable (lines ++ line ∷ rest) → NamesBelow (length (trees_of lines)) line.item }
    ensures placed { (lines rest : List Line) (line : Line) → IsReadable (lines ++ line ∷ rest) → IsInPlace (stepped_from false lines) line.item }
    ensures lane { (lines rest : List Line) → IsReadable (lines ++ rest) → lane_behind 0 lines < most_lanes }
{}

/// The numbers of any two lines differ, of a log that can be read and of each stretch of it.
pub fn lines_have_numbers_of_their_own()
    ensures rising { (least : ℕ) (lines : List Line) → NumbersRiseFrom least lines → Pairs (λ (a b : Line). b.number ≢ a.number) lines }
    ensures stretch { (front lines rest : List Line) → IsReadable (front ++ lines ++ rest) → Pairs (λ (a b : Line). b.number ≢ a.number) lines }
{}
