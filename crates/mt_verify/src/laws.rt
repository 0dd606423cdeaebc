//! What the checker relies on. Each law (lemma) is the contract of a function that does nothing.

ghost use Rattle.std.specs.Prelude.{◌≡◌, ◌↔◌, ◌<◌, ◌≤◌, ℕ, Bool, true, List, Some, All, AllPairs, IfSome, length, map, slice_get, slice_index, IsPermutation};
ghost use Rattle.std.specs.List.{enumerate_from, filter_map};
ghost use Rattle.mt_base.specs.declared.kinds.Kind.{Kind};
ghost use Rattle.mt_base.specs.declared.calls.Call.{Call};
ghost use Rattle.mt_base.specs.declared.ranges.Range.{Range};
ghost use Rattle.mt_base.specs.Map.{IsMap};
ghost use Rattle.mt_base.specs.Nodes.{Wants};
ghost use Rattle.mt_base.specs.History.{Record, History, IsLegal, map_at};
ghost use Rattle.mt_log.specs.declared.lines.Line.{Line};
ghost use Rattle.mt_log.specs.declared.lines.Log.{Log};
ghost use Rattle.mt_log.specs.declared.transcripts.Transcript.{Transcript};
ghost use Rattle.mt_log.specs.Run.{Step, InOrder, IsHeldRightly, IsRunBy, holder_in, numbered_on};
ghost use Rattle.mt_log.specs.Trees.{IsReadable, trees_of};
ghost use Rattle.mt_told.specs.declared.told.ToldLine.{ToldLine};
ghost use Rattle.mt_told.specs.Telling.{AreTold, IsTold};
ghost use Rattle.mt_verify.specs.declared.calls.Numbered.{Numbered};
ghost use Rattle.mt_verify.specs.declared.looks.ToldRead.{ToldRead};
ghost use Rattle.mt_verify.specs.declared.noted.Noted.{Noted};
ghost use Rattle.mt_verify.specs.Choices.{AreChosen, AreClosed, AreFirst, IsLate, IsNowhere, Passes};
ghost use Rattle.mt_verify.specs.Going.{AreAnswered};
ghost use Rattle.mt_verify.specs.Heard.{IsReader};
ghost use Rattle.mt_verify.specs.Histories.{AreHeard, AreRecordsOf, history_of, map_of_noted};
ghost use Rattle.mt_verify.specs.LaneReads.{LanesArePicked, looks_on, looks_told, points_on};
ghost use Rattle.mt_verify.specs.Looks.{ArePicked, AreLeastOf, IsStuck, MayHave};
ghost use Rattle.mt_verify.specs.Points.{points_of, AreUpTo, lo_of, hi_of, read_number, at_place, IsTrueAt, KnowsAt, AreAlike, AreToldAlike};
ghost use Rattle.mt_verify.specs.Points.{CopiesEarlier, HaveHistories, GoAlike, numbered_part};
ghost use Rattle.mt_verify.specs.PrintedOrder.{EndsInTree, InPrintedOrder};
ghost use Rattle.mt_verify.specs.ToldCalls.{AreRecordsTold, calls_told, numbered_on_told};
ghost use Rattle.mt_verify.specs.Wanting.{wants};
ghost use Rattle.mt_verify.specs.Windows as of_steps;
ghost use Rattle.mt_verify.specs.Windows.{InBoth};

/// The first numbers that suit are the least that can be chosen, even if not all reads have theirs yet. If a read can have none
/// after them, nothing can be chosen.
#[tactic(auto, using(crate::proofs::Greedy::least, crate::proofs::Greedy::late_has_none, crate::proofs::Greedy::nowhere_has_none))]
pub fn the_first_numbers_are_the_least()
    ensures least { (count : ℕ) (lo hi : ℕ → ℕ) (holds knows : ℕ → ℕ → Bool) (done : ℕ → Bool) (k l : ℕ → ℕ)
        → AreClosed count (Passes knows) done → AreFirst count lo (Passes holds) (Passes knows) done k
        → AreChosen count lo hi (Passes holds) (Passes knows) l
        → (i : ℕ) → i < count → done i ≡ true → k i ≤ l i }
    ensures late { (count : ℕ) (lo hi : ℕ → ℕ) (holds knows : ℕ → ℕ → Bool) (done : ℕ → Bool) (k l : ℕ → ℕ)
        → AreClosed count (Passes knows) done → AreFirst count lo (Passes holds) (Passes knows) done k
        → AreChosen count lo hi (Passes holds) (Passes knows) l
        → (i : ℕ) → i < count → ((j : ℕ) → j < i → Passes knows i j → done j ≡ true) → IsLate lo (Passes knows) k i
        → ⊥ }
    ensures nowhere { (count : ℕ) (lo hi : ℕ → ℕ) (holds knows : ℕ → ℕ → Bool) (done : ℕ → Bool) (k l : ℕ → ℕ)
        → AreClosed count (Passes knows) done → AreFirst count lo (Passes holds) (Passes knows) done k
        → AreChosen count lo hi (Passes holds) (Passes knows) l
        → (i : ℕ) → i < count → ((j : ℕ) → j < i → Passes knows i j → done j ≡ true)
        → IsNowhere lo hi (Passes holds) (Passes knows) k i → ⊥ }
{}

/// A lane whose looks have the first numbers that do has the least that they may have; one that is stuck can have none.
#[tactic(auto, using(crate::proofs::LeastNumbers::picked_is_least, crate::proofs::LeastNumbers::stuck_has_none))]
pub fn a_lane_has_the_least_numbers_or_none()
    ensures picked { (m : ℕ → List Range) (looks : List ToldRead) (points : List ℕ) → ArePicked m looks points
        → length points ≡ length looks → AreLeastOf m looks points }
    ensures stuck { (m : ℕ → List Range) (looks : List ToldRead) (points : List ℕ) → IsStuck m looks points → (k : ℕ → ℕ)
        → MayHave m looks k → ⊥ }
{}

/// The numbers of a run's reads are chosen as its order says. Where they are the first that do, they are the least of
/// all runs whose reads are alike.
#[tactic(auto, using(crate::proofs::Runs::chosen, crate::proofs::Runs::first_is_least))]
pub fn the_points_of_a_run_are_chosen()
    ensures chosen { (log : Log) (rows : ℕ) (t : Transcript) (steps : List Step) (trees : List History)
        → IsRunBy log rows t steps trees
        → AreChosen (length steps) (at_place lo_of steps) (at_place hi_of steps) (IsTrueAt steps trees) (KnowsAt steps)
        (at_place read_number steps) }
    ensures least { (log : Log) (rows : ℕ) (t' : Transcript) (steps steps' : List Step) (trees trees' : List History)
        → AreAlike steps trees steps' trees' → IsRunBy log rows t' steps' trees'
        → AreFirst (length steps) (at_place lo_of steps) (IsTrueAt steps trees) (KnowsAt steps)
        (λ i. true) (at_place read_number steps)
        → (i : ℕ) → i < length steps → at_place read_number steps i ≤ at_place read_number steps' i }
{}

/// Histories of the same calls, of which the same were refused for lack of nodes, go through the same maps.
#[tactic(auto, using(crate::proofs::SameMaps::same_map_at))]
pub fn maps_do_not_depend_on_who_held_rows()
    ensures { (h g : History) (k : ℕ) → h.kind ≡ g.kind → h.opening ≡ g.opening → GoAlike h.records g.records
        → map_at h k ≡ map_at g k }
{}

/// Histories that have numbered calls once each, in the order of their numbers, behave alike if the numbers, the calls and the
/// refusals because nodes are short are the same.
#[tactic(auto, using(crate::proofs::ByNumber::alike_by_number))]
pub fn calls_stand_by_their_numbers()
    ensures { (records others : List Record) (numbered numbered' : List (ℕ × Record))
        → IsPermutation (enumerate_from 1 records) numbered → IsPermutation (enumerate_from 1 others) numbered'
        → map numbered_part numbered ≡ map numbered_part numbered' → GoAlike records others }
{}

/// Two runs of a log with the same text have reads that are alike: what is not printed makes no difference.
#[tactic(auto, using(crate::proofs::Alike::told_alike))]
pub fn runs_told_alike_have_alike_reads()
    ensures { (log : Log) (rows : ℕ) (t t' : Transcript) (steps steps' : List Step) (trees trees' : List History)
        → IsRunBy log rows t steps trees → IsRunBy log rows t' steps' trees'
        → AreToldAlike steps steps' → CopiesEarlier (trees_of log.lines) → AreAlike steps trees steps' trees' }
{}

/// If the points of a run are the first that suit, they are the least. Each is at most the point at its place in every run of
/// the log with the same text.
#[tactic(auto, using(crate::proofs::PointLists::least_points))]
pub fn first_points_are_the_least()
    ensures { (log : Log) (rows : ℕ) (t t' : Transcript) (steps steps' : List Step) (trees trees' : List History)
        → IsRunBy log rows t steps trees → IsRunBy log rows t' steps' trees'
        → AreToldAlike steps steps' → CopiesEarlier (trees_of log.lines)
        → AreFirst (length steps) (at_place lo_of steps) (IsTrueAt steps trees) (KnowsAt steps)
        (λ i. true) (at_place read_number steps)
        → AreUpTo (points_of steps) (points_of steps') }
{}

/// A test of the map decides whether a call needs nodes.
pub fn a_test_tells_which_calls_want_rows()
    ensures { (kind : Kind) (m : List Range) (call : Call) → IsMap kind m → (wants kind m call ≡ true)
        ↔ Wants kind m call }
{}

/// Calls that were answered one by one by the maps before them, or rightly refused, are a legal history of their tree: its
/// records are these calls, and its maps are theirs.
pub fn answered_calls_are_a_legal_history()
    ensures legal { (kind : Kind) (version rows : ℕ) (opening : List Range) (noted : List Noted)
        → AreAnswered kind version rows opening noted (length noted)
        → IsLegal (history_of kind rows opening noted) }
    ensures records { (kind : Kind) (version rows : ℕ) (opening : List Range) (noted : List Noted)
        → AreAnswered kind version rows opening noted (length noted)
        → AreRecordsOf version noted (history_of kind rows opening noted).records }
    ensures maps { (kind : Kind) (rows : ℕ) (opening : List Range) (noted : List Noted) (k : ℕ)
        → map_at (history_of kind rows opening noted) k ≡ map_of_noted kind opening noted k }
{}

/// If a legal history can have this text, whoever held nodes back in it, then these calls were answered, one by one, and its
/// maps are theirs. So if a call was not answered, no run has this text.
pub fn a_legal_history_is_answered_calls()
    ensures answered { (version : ℕ) (h : History) (noted : List Noted) → AreHeard version noted h.records → IsLegal h
        → AreAnswered h.kind version h.rows h.opening noted (length noted) }
    ensures maps { (version : ℕ) (h : History) (noted : List Noted) (k : ℕ) → AreHeard version noted h.records
        → map_at h k ≡ map_of_noted h.kind h.opening noted k }
{}

/// The order of a run's steps is that of what is printed and that of the numbers of reads: so the windows can be tested
/// apart, before any map is made, and the choice of numbers has no part in it.
#[tactic(auto, using(crate::proofs::Ordered::order_splits, crate::proofs::Ordered::order_joins))]
pub fn windows_are_tested_apart()
    ensures splits { (steps : List Step) → AllPairs InOrder steps → InBoth steps }
    ensures joins { (steps : List Step) → All (λ s. lo_of s.outcome ≤ read_number s.outcome) steps → InBoth steps
        → AllPairs InOrder steps }
{}

/// In a log that can be read a copy is of a tree that is declared before it.
pub fn copies_are_of_earlier_trees()
    ensures { (lines : List Line) → IsReadable lines → CopiesEarlier (trees_of lines) }
{}

/// If each lane's reads on each tree have the first numbers that suit the lane by itself, then all reads of a run have the
/// first that suit. So the lanes can be gone through side by side.
pub fn lanes_are_picked_by_themselves()
    ensures { (log : Log) (rows : ℕ) (t : Transcript) (steps : List Step) (trees : List History)
        → IsRunBy log rows t steps trees → LanesArePicked steps trees
        → AreFirst (length steps) (at_place lo_of steps) (IsTrueAt steps trees) (KnowsAt steps)
        (λ i. true) (at_place read_number steps) }
{}

/// In a run each lane's reads on each tree have numbers such as the lane may have.
pub fn lanes_of_a_run_may_have_their_numbers()
    ensures { (log : Log) (rows : ℕ) (t : Transcript) (steps : List Step) (trees : List History)
        → IsRunBy log rows t steps trees
        → (tree lane : ℕ) (h : History) → slice_get trees tree ≡ Some h
        → MayHave (map_at h) (looks_on tree lane steps) (slice_index (points_on tree lane steps)) }
{}

/// If a lane can have no numbers on a tree whose history the text reports, no run of the log has this text.
pub fn a_lane_without_numbers_refuses_the_text()
    ensures { (log : Log) (rows : ℕ) (t' : Transcript) (steps steps' : List Step) (trees trees' : List History)
        → IsReadable log.lines → HaveHistories log steps trees
        → (tree lane : ℕ) (h : History) → slice_get trees tree ≡ Some h
        → ((k : ℕ → ℕ) → MayHave (map_at h) (looks_on tree lane steps) k → ⊥)
        → IsRunBy log rows t' steps' trees' → AreToldAlike steps steps' → ⊥ }
{}

/// The reads of steps with this text are those of the text.
pub fn the_looks_of_steps_are_told()
    ensures { (version tree lane : ℕ) (told : List ToldLine) (steps : List Step) → AreTold version told steps
        → looks_on tree lane steps ≡ looks_told tree lane told }
{}

/// A run whose lanes have the first numbers that suit, each lane for itself, has the least points of all runs with the same
/// text.
pub fn a_picked_run_has_the_least_points()
    ensures { (log : Log) (rows : ℕ) (t t' : Transcript) (steps steps' : List Step) (trees trees' : List History)
        → IsReadable log.lines → IsRunBy log rows t steps trees → LanesArePicked steps trees
        → IsRunBy log rows t' steps' trees' → AreToldAlike steps steps' → AreUpTo (points_of steps) (points_of steps') }
{}

/// Runs with the same lines have the same text: what is printed shows whether a call was refused because nodes are short.
pub fn runs_told_by_one_list_are_told_alike()
    ensures { (version : ℕ) (told : List ToldLine) (steps steps' : List Step) → AreTold version told steps
        → AreTold version told steps' → AreToldAlike steps steps' }
{}

/// The order of steps with this text is that of the text, and so are the ends of windows.
pub fn the_order_of_steps_is_told()
    ensures order { (version : ℕ) (told : List ToldLine) (steps : List Step) → AreTold version told steps
        → AllPairs InPrintedOrder told ↔ AllPairs of_steps.InPrintedOrder steps }
    ensures ends { (version : ℕ) (told : List ToldLine) (steps : List Step) → AreTold version told steps
        → All (EndsInTree told) told ↔ All (of_steps.EndsInTree steps) steps }
{}

/// The calls of steps with this text are those of the text, each of its lane, and with a reply that prints as in the text.
pub fn the_calls_of_steps_are_told()
    ensures { (version : ℕ) (tree : ℕ) (told : List ToldLine) (steps : List Step) → AreTold version told steps
        → AreRecordsTold version (calls_told tree told) (filter_map (numbered_on tree) steps) }
{}

/// In steps with this text a holder is named rightly exactly if the text says that it is another lane, which had read the tree.
pub fn the_holders_of_steps_are_told()
    ensures { (version : ℕ) (told : List ToldLine) (steps : List Step) (t : ToldLine) (s : Step) (number : ℕ) (call : Numbered)
        → AreTold version told steps → IsTold version t s → numbered_on_told t.tree t ≡ Some (number, call)
        → IsHeldRightly steps s ↔ IfSome (holder_in s.outcome) (λ holder. IsReader told t.tree call holder.pass) }
{}
