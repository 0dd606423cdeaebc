//! What lanes do with a log, each with a pass (handle) of its own on each tree, in threads or not. Each law (lemma) is the
//! contract of a function that does nothing.

ghost use Rattle.std.specs.Prelude.{◌≡◌, ◌<◌, ◌≤◌, ◌+◌, ℕ, Option, All, List, [], ◌∷◌, ◌++◌, Some, length, slice_get};
ghost use Rattle.mt_base.specs.declared.calls.Call.TheVariants as calls;
ghost use Rattle.mt_base.specs.declared.calls.Query.TheVariants as queries;
ghost use Rattle.mt_base.specs.declared.kinds.Kind.TheVariants as kinds;
ghost use Rattle.mt_base.specs.declared.replies.Reply.TheVariants as replies;
ghost use Rattle.mt_base.specs.History.{Record, History};
ghost use Rattle.mt_base.specs.Passes.{Begins, IsSettled, Pass, Learned, Saw, Settled, with_records};
ghost use Rattle.mt_base.specs.Width.{most_rows};
ghost use Rattle.mt_log.specs.declared.transcripts.Said.TheVariants as said;
ghost use Rattle.mt_log.specs.Run.{Asked, Outcome, Called, Looked, Counted, Step, AreDone, IsDone};
ghost use Rattle.mt_linearize.specs.Gone.{HaveGone, OnlySaw, sum_below};
ghost use Rattle.mt_linearize.specs.Laned.{IsLaned};
ghost use Rattle.mt_linearize.specs.Leads.{Learns, Does, Leads, outcomes_of};
ghost use Rattle.mt_linearize.specs.OneThread.{known_to_all, step_of_line};
ghost use Rattle.mt_linearize.specs.Phases.{Tracked, IsPhase, IsPhaseOn, Counts};
ghost use Rattle.mt_linearize.specs.Rooms.{asked_of_lane, AreDoneEach, take_turns, lanes_of, answers_joined};
ghost use Rattle.mt_linearize.specs.Tracks.{numbers_of};

/// A handle learns of others' calls by the lock, when it is settled, and from another handle. If its section is closed it has
/// made no call either.
pub fn what_a_pass_learns()
    ensures nothing { (p : Pass) → Learns p p }
    ensures saw { (tree : History) (p q : Pass) → Saw tree p q → Learns p q }
    ensures learned { (tree : History) (p : Pass) (told : List Record) (q : Pass) → Learned tree p told q → Learns p q }
    ensures closed { (p : Pass) (standing : Option ℕ) → Learns p (record p { standing = standing }) }
    ensures on { (p q r : Pass) → Learns p q → Learns q r → Learns p r }
{}

/// How a lane's handle goes on: by one step, by one stretch of steps after another, and by what it learns before and after
/// them.
pub fn a_pass_goes_on()
    ensures one { (tree : History) (p : Pass) (o : Outcome) (q : Pass) → Does tree p o q → Leads tree p (o ∷ []) q }
    ensures on { (tree : History) (p : Pass) (outcomes : List Outcome) (q : Pass) (others : List Outcome) (r : Pass)
        → Leads tree p outcomes q → Leads tree q others r → Leads tree p (outcomes ++ others) r }
    ensures first { (tree : History) (p q : Pass) (outcomes : List Outcome) (r : Pass) → Learns p q → Leads tree q outcomes r → Leads tree p outcomes r }
    ensures last { (tree : History) (p : Pass) (outcomes : List Outcome) (q r : Pass) → Leads tree p outcomes q → Learns q r → Leads tree p outcomes r }
{}

/// If the lanes have gone through their steps on a tree, and then its handles are settled, its phase is over.
pub fn a_phase_ends_where_passes_are_settled()
    ensures { (number : ℕ) (steps : List Step) (old new : History) (before between after : List Pass)
        → new ≡ with_records old new.records → length between ≡ length before
        → ((lane : ℕ) (p m : Pass) → slice_get before lane ≡ Some p → slice_get between lane ≡ Some m → Leads old p (outcomes_of number lane steps) m)
        → All (λ (s : Step). s.tree ≡ number → Counts old s.outcome) steps → Settled new between after
        → IsPhaseOn number steps (record { history = old; passes = before }) (record { history = new; passes = after }) }
{}

/// What the lanes were answered, each in its room, is put back in the order of the log: it is what came of the lines, and in
/// each lane it is what came of them there.
pub fn answers_are_put_back()
    ensures done { (asked : List Asked) (rooms : ℕ → List (List Step))
        → ((lane : ℕ) → AreDoneEach (asked_of_lane lane asked) (rooms lane))
        → AreDone asked (answers_joined (take_turns (lanes_of asked) rooms)) }
    ensures lanes { (asked : List Asked) (rooms : ℕ → List (List Step)) → ((lane : ℕ) → AreDoneEach (asked_of_lane lane asked) (rooms lane))
        → (tree lane : ℕ) → outcomes_of tree lane (answers_joined (take_turns (lanes_of asked) rooms)) ≡ outcomes_of tree lane (answers_joined (rooms lane)) }
{}

/// If a tree's handles were settled and none has made a call since, settling them again changes nothing.
pub fn settled_passes_stay()
    ensures { (tree new : History) (before between after : List Pass)
        → IsSettled tree before → OnlySaw tree before between → Settled new between after → new ≡ with_records tree new.records
        → 0 < length before
        → (new ≡ tree) × (between ≡ before) × (after ≡ before) }
{}

/// If the handles are settled after the lanes, the history has the calls of the lanes more, and no other. No handle had seen
/// more of it.
pub fn calls_are_those_of_the_lanes()
    ensures calls { (number : ℕ) (old new : History) (answers : ℕ → List (List Step)) (before between after : List Pass)
        → IsSettled old before → HaveGone number old answers before between → Settled new between after
        → new ≡ with_records old new.records
        → length new.records
        ≡ length old.records + sum_below (length before) (λ lane. length (numbers_of (outcomes_of number lane (answers_joined (answers lane))))) }
    ensures seen { (new : History) (between after : List Pass) → Settled new between after → (lane : ℕ) (m : Pass)
        → slice_get between lane ≡ Some m → length m.seen ≤ length new.records }
    ensures begins { (new : History) (between after : List Pass) → Settled new between after → (lane : ℕ) (m : Pass)
        → slice_get between lane ≡ Some m → Begins m.seen new.records }
{}

/// The steps of a phase: first what was counted as it began, and then the lanes' answers, put back in the order of the log.
/// They are the outcome of the phase's lines. The lines that are counted are not the lanes'.
pub fn lanes_make_a_phase()
    ensures { (passes phase : ℕ) (asked counted : List Asked) (csteps : List Step) (answers : ℕ → List (List Step)) (before after : List Tracked)
        → IsLaned passes phase asked counted csteps answers before after
        → IsPhase passes phase (csteps ++ answers_joined (take_turns (lanes_of asked) answers)) before after
        × AreDone (counted ++ asked) (csteps ++ answers_joined (take_turns (lanes_of asked) answers)) }
{}

/// A line makes at most one call. So no lane makes more calls than it has lines, and all lanes have no more lines than there
/// are.
pub fn lanes_make_no_more_calls_than_lines()
    ensures line { (number lane : ℕ) (a : Asked) (steps : List Step) → IsDone a a.item steps → length (numbers_of (outcomes_of number lane steps)) ≤ 1 }
    ensures on { (number lane : ℕ) (steps more : List Step) → length (numbers_of (outcomes_of number lane (steps ++ more)))
        ≡ length (numbers_of (outcomes_of number lane steps)) + length (numbers_of (outcomes_of number lane more)) }
    ensures lane { (number lane : ℕ) (asked : List Asked) (answers : List (List Step)) → AreDoneEach asked answers
        → length (numbers_of (outcomes_of number lane (answers_joined answers))) ≤ length asked }
    ensures lanes { (lanes : ℕ) (asked : List Asked) → sum_below lanes (λ lane. length (asked_of_lane lane asked)) ≤ length asked }
    ensures sums { (lanes : ℕ) (f g : ℕ → ℕ) → ((lane : ℕ) → lane < lanes → f lane ≤ g lane) → sum_below lanes f ≤ sum_below lanes g }
{}

/// A worked phase: after `tree a range / store a 0 9 1 / join`, from line 5 on `check a / lane 1 / store a 5 5 3 / lane 0 /
/// load a 5`. Lane 0 loads the entry from before lane 1's store. And a worked sum.
pub fn a_worked_phase()
    ensures phase { IsPhase 2 1
        (step_of_line 1 0 5 0 (Counted said.Lawful (record { first = 0; last = 9; entry = 1 } ∷ []))
        ∷ step_of_line 1 1 7 0 (Called 2 (calls.Store 5 5 3) (replies.Over 1))
        ∷ step_of_line 1 0 9 0 (Looked 1 1 1 (queries.Load 5) (Some (record { first = 0; last = 9; entry = 1 }))) ∷ [])
        (known_to_all 2
        (record { kind = kinds.Range; rows = most_rows; opening = []; records = record { pass = 0; call = calls.Store 0 9 1; reply = replies.Ok } ∷ [] }) ∷ [])
        (known_to_all 2
        (record {
          kind = kinds.Range;
          rows = most_rows;
          opening = [];
          records = record { pass = 0; call = calls.Store 0 9 1; reply = replies.Ok }
              ∷ record { pass = 1; call = calls.Store 5 5 3; reply = replies.Over 1 } ∷ [];
        }) ∷ []) }
    ensures sum { sum_below 3 (λ n. n + 4) ≡ 15 }
{}
