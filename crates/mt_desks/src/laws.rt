//! What the lanes of a phase lead to. Each law (lemma) is the contract of a function that does nothing.

ghost use Rattle.std.specs.Prelude.{◌≡◌, ◌≢◌, ◌<◌, ◌≤◌, ℕ, Bool, List, [], ◌++◌, length, map, true};
ghost use Rattle.std.specs.List.{AllByRecursion};
ghost use Rattle.mt_log.specs.declared.lines.Line.{Line};
ghost use Rattle.mt_log.specs.declared.transcripts.Entry.{Entry};
ghost use Rattle.mt_log.specs.Phases.{AreInPlaceFrom};
ghost use Rattle.mt_log.specs.Run.{Asked, Step, asked_from, entry_of};
ghost use Rattle.mt_linearize.specs.Leads.{outcomes_of};
ghost use Rattle.mt_linearize.specs.Rooms.{asked_of_lane, AreDoneEach, take_turns, lanes_of, answers_joined};
ghost use Rattle.mt_linearize.specs.Gone.{sum_below};
ghost use Rattle.mt_linearize.specs.Tracks.{Pairs, numbers_of};
ghost use Rattle.mt_base.specs.Passes.{Pass};
ghost use Rattle.mt_desks.specs.Dealing.{IsOnePhase, asked_of, counts_in, lines_of_lane, steps_in};
ghost use Rattle.mt_desks.specs.Desks.{AreAnsweredUnless, IsSomeWorn, SharedTree};
ghost use Rattle.mt_desks.specs.Turns.{in_turn, RoomsHold};

/// What the lines of a phase ask of the program itself comes before what they ask of the lanes. After a step they ask nothing
/// of the program.
pub fn copies_and_checks_come_first()
    ensures asked { (stepped : Bool) (here phase : ℕ) (lines : List Line) → IsOnePhase lines → AreInPlaceFrom stepped lines
        → asked_from here phase lines ≡ counts_in phase lines ++ steps_in here phase lines }
    ensures none { (phase : ℕ) (lines : List Line) → IsOnePhase lines → AreInPlaceFrom true lines → counts_in phase lines ≡ [] }
{}

/// Of what the lanes are asked each lane is asked its own lines.
pub fn a_lane_is_asked_its_lines()
    ensures { (lane here phase : ℕ) (lines : List Line)
        → asked_of_lane lane (steps_in here phase lines) ≡ map (asked_of lane phase) (lines_of_lane lane here lines) }
{}

/// The entries that are put back are the outcome of the lines that lanes do in a phase, in the order of the log, if each room
/// holds its lane's answers.
pub fn entries_tell_what_came()
    ensures { (phase : ℕ) (lines : List Line) (rooms : List (List Entry)) (answers : ℕ → List (List Step))
        → AllByRecursion (λ (a : Asked). a.lane < length rooms) (steps_in 0 phase lines)
        → Pairs (λ (a b : Line). b.number ≢ a.number) lines
        → ((lane : ℕ) → AreDoneEach (asked_of_lane lane (steps_in 0 phase lines)) (answers lane)) → RoomsHold rooms answers
        → in_turn 0 lines rooms ≡ map entry_of (answers_joined (take_turns (lanes_of (steps_in 0 phase lines)) answers)) }
{}

/// Where the first lane does all lines, what it was answered is in the order of the log as it is.
pub fn one_lane_is_in_order()
    ensures order { (asked : List Asked) (answers : ℕ → List (List Step)) → AllByRecursion (λ (a : Asked). a.lane < 1) asked
        → AreDoneEach asked (answers 0) → answers_joined (take_turns (lanes_of asked) answers) ≡ answers_joined (answers 0) }
    ensures all { (asked : List Asked) → AllByRecursion (λ (a : Asked). a.lane < 1) asked → asked_of_lane 0 asked ≡ asked }
{}

/// If no handle of a lane has seen as many calls as its tree takes, each line of the lane is answered.
pub fn lines_are_answered_where_no_tree_is_worn()
    ensures { (trees : List SharedTree) (passes : List Pass) (asked : List Asked) (answers : List (List Step))
        → (IsSomeWorn trees passes → ⊥) → AreAnsweredUnless (IsSomeWorn trees passes) asked answers
        → AreDoneEach asked answers }
{}

/// Each line makes one call at most, and the lanes have no more lines than there are.
pub fn lines_bound_the_calls()
    ensures calls { (trees : List SharedTree) (passes : List Pass) (number lane : ℕ) (asked : List Asked) (answers : List (List Step))
        → AreAnsweredUnless (IsSomeWorn trees passes) asked answers
        → length (numbers_of (outcomes_of number lane (answers_joined answers))) ≤ length asked }
    ensures lines { (lanes here : ℕ) (lines : List Line) → sum_below lanes (λ lane. length (lines_of_lane lane here lines)) ≤ length lines }
{}
