//! What one thread makes of a log, step by step, on trees that it alone works on. Each law is the contract of a function that
//! does nothing.

ghost use Rattle.std.specs.Prelude.{◌≡◌, ◌≢◌, ◌<◌, ◌+◌, ℕ, Bool, true, false, Option, List, [], ◌∷◌, ◌++◌, Some, length, map, slice_get, slice_set};
ghost use Rattle.mt_base.specs.declared.calls.Call.{Call};
ghost use Rattle.mt_base.specs.declared.calls.Call.TheVariants as calls;
ghost use Rattle.mt_base.specs.declared.calls.Query.{Query};
ghost use Rattle.mt_base.specs.declared.calls.Query.TheVariants as queries;
ghost use Rattle.mt_base.specs.declared.kinds.Kind.TheVariants as kinds;
ghost use Rattle.mt_base.specs.declared.ranges.Range.{Range};
ghost use Rattle.mt_base.specs.declared.replies.Reply.{Reply};
ghost use Rattle.mt_base.specs.declared.replies.Reply.TheVariants as replies;
ghost use Rattle.mt_base.specs.Call.{answer};
ghost use Rattle.mt_base.specs.History.{Record, History, IsLegal, last_map};
ghost use Rattle.mt_base.specs.Nodes.{Limits, IsMade, one_call_more};
ghost use Rattle.mt_base.specs.Passes.{IsSettled, Read, Saw, Wrote};
ghost use Rattle.mt_base.specs.Width.{most_rows};
ghost use Rattle.mt_log.specs.declared.lines.Log.{Log};
ghost use Rattle.mt_log.specs.declared.transcripts.Answer.TheVariants as answers;
ghost use Rattle.mt_log.specs.declared.transcripts.Said.{Said};
ghost use Rattle.mt_log.specs.declared.transcripts.Said.TheVariants as said;
ghost use Rattle.mt_log.specs.declared.transcripts.Transcript.{Transcript};
ghost use Rattle.mt_log.specs.declared.trees.KnownTree.{KnownTree};
ghost use Rattle.mt_log.specs.Run.{Called, Looked, Counted, Step, AreDone, IsRun, steps_of, entry_of, listings_of};
ghost use Rattle.mt_log.specs.Trees.{Declared, Empty, CopyOf, trees_of};
ghost use Rattle.mt_linearize.specs.OneThread.{HasPlayed, MayLimit, IsNext, informed, known_to_all, step_of_line, with_call};
ghost use Rattle.mt_linearize.specs.Phases.{new_history};
ghost use Rattle.mt_linearize.specs.Worked.{worked_log};

/// A call of a map with such limits is the next of its tree's history, and the limits afterwards are those of the history with
/// it.
pub fn a_call_is_the_next_of_its_tree()
    ensures next { (h : History) (limits : Option Limits) (pass : ℕ) (call : Call) (after : List Range) (reply : Reply)
        → MayLimit h limits → IsMade h.kind limits (last_map h) call after reply
        → IsNext h (record { pass = pass; call = call; reply = reply }) after }
    ensures limits { (h : History) (limits : Option Limits) (r : Record) → MayLimit h limits → MayLimit (with_call h r) (one_call_more limits) }
{}

/// A handle that has seen the whole history makes the next call of its tree, or sees another handle's. The tree's map answers
/// it. And all handles that have seen the whole history are settled.
pub fn passes_that_have_seen_all()
    ensures wrote { (h : History) (pass : ℕ) (call : Call) (reply : Reply) (after : List Range) → IsLegal h
        → IsNext h (record { pass = pass; call = call; reply = reply }) after
        → Wrote h (informed h.records pass) (length h.records + 1) call reply
        (informed (with_call h (record { pass = pass; call = call; reply = reply })).records pass) }
    ensures saw { (h : History) (r : Record) (after : List Range) (pass : ℕ) → r.pass ≢ pass → IsLegal h → IsNext h r after
        → Saw h (informed h.records pass) (informed (with_call h r).records pass) }
    ensures read { (h : History) (pass : ℕ) (query : Query) → IsLegal h
        → Read h (informed h.records pass) (length h.records) (length h.records) (length h.records) query (answer (last_map h) query)
        (informed h.records pass) }
    ensures settled { (passes : ℕ) (h : History) (r : Record) (after : List Range) → r.pass < passes
        → IsSettled h (known_to_all passes h).passes → IsNext h r after
        → IsSettled (with_call h r) (known_to_all passes (with_call h r)).passes }
{}

/// Before a log's first line nothing was played.
pub fn nothing_is_played_yet()
    ensures { (passes rows : ℕ) → 0 < passes → HasPlayed passes rows 0 false [] [] [] }
{}

/// A tree is declared: it opens empty, or, where no step of this phase was made yet, with the map of another one.
pub fn a_tree_is_played()
    ensures empty { (passes rows phase : ℕ) (stepped : Bool) (declared : List Declared) (steps : List Step) (trees : List History) (known : KnownTree)
        → HasPlayed passes rows phase stepped declared steps trees
        → HasPlayed passes rows phase stepped (declared ++ record { tree = known; opening = Empty } ∷ []) steps (trees ++ new_history known.kind rows [] ∷ []) }
    ensures copy { (passes rows phase : ℕ) (declared : List Declared) (steps : List Step) (trees : List History)
        (known : KnownTree) (tree : ℕ) (source : History) → HasPlayed passes rows phase false declared steps trees
        → slice_get trees tree ≡ Some source → known.kind ≡ source.kind
        → HasPlayed passes rows phase false (declared ++ record { tree = known; opening = CopyOf tree phase } ∷ []) steps (trees
        ++ new_history known.kind rows (last_map source) ∷ []) }
{}

/// The ranges of a tree are counted, where no step of this phase was made yet.
pub fn a_count_is_played()
    ensures { (passes rows phase : ℕ) (declared : List Declared) (steps : List Step) (trees : List History) (line tree : ℕ) (h : History)
        (tells : ℕ → Said) → HasPlayed passes rows phase false declared steps trees → slice_get trees tree ≡ Some h
        → HasPlayed passes rows phase false declared (steps ++ step_of_line phase 0 line tree (Counted tells (last_map h)) ∷ []) trees }
{}

/// A lane makes the next call of a tree.
pub fn a_call_is_played()
    ensures { (passes rows phase : ℕ) (stepped : Bool) (declared : List Declared) (steps : List Step) (trees : List History)
        (lane line tree : ℕ) (h : History) (call : Call) (reply : Reply) (after : List Range) → HasPlayed passes rows phase stepped declared steps trees
        → slice_get trees tree ≡ Some h → lane < passes → IsNext h (record { pass = lane; call = call; reply = reply }) after
        → HasPlayed passes rows phase true declared (steps ++ step_of_line phase lane line tree (Called (length h.records + 1) call reply)
        ∷ []) (slice_set trees tree (with_call h (record { pass = lane; call = call; reply = reply }))) }
{}

/// A lane reads a tree as it is: both ends of the window are the number of its calls.
pub fn a_read_is_played()
    ensures { (passes rows phase : ℕ) (stepped : Bool) (declared : List Declared) (steps : List Step) (trees : List History)
        (lane line tree : ℕ) (h : History) (query : Query) → HasPlayed passes rows phase stepped declared steps trees
        → slice_get trees tree ≡ Some h → lane < passes
        → HasPlayed passes rows phase true declared (steps
        ++ step_of_line phase lane line tree (Looked (length h.records) (length h.records) (length h.records) query (answer (last_map h) query))
        ∷ []) trees }
{}

/// A phase ends, and the next begins.
pub fn a_phase_is_played()
    ensures { (passes rows phase : ℕ) (stepped : Bool) (declared : List Declared) (steps : List Step) (trees : List History)
        → HasPlayed passes rows phase stepped declared steps trees
        → HasPlayed passes rows (phase + 1) false declared steps trees }
{}

/// The trees are those that were declared, each of its kind and with this many nodes.
pub fn the_trees_are_as_declared()
    ensures count { (passes rows phase : ℕ) (stepped : Bool) (declared : List Declared) (steps : List Step) (trees : List History)
        → HasPlayed passes rows phase stepped declared steps trees → length trees ≡ length declared }
    ensures kind { (passes rows phase : ℕ) (stepped : Bool) (declared : List Declared) (steps : List Step) (trees : List History) (tree : ℕ)
        (d : Declared) (h : History) → HasPlayed passes rows phase stepped declared steps trees
        → slice_get declared tree ≡ Some d → slice_get trees tree ≡ Some h → h.kind ≡ d.tree.kind }
    ensures rows { (passes rows phase : ℕ) (stepped : Bool) (declared : List Declared) (steps : List Step) (trees : List History) (tree : ℕ) (h : History)
        → HasPlayed passes rows phase stepped declared steps trees → slice_get trees tree ≡ Some h → h.rows ≡ rows }
{}

/// What was played of all lines of a log is a run of it.
pub fn what_was_played_is_a_run()
    ensures { (passes rows phase : ℕ) (stepped : Bool) (log : Log) (t : Transcript) (steps : List Step) (trees : List History)
        → HasPlayed passes rows phase stepped (trees_of log.lines) steps trees → AreDone (steps_of log.lines) steps
        → t.version ≡ log.version → t.entries ≡ map entry_of steps → t.lists ≡ listings_of (trees_of log.lines) trees → IsRun log rows t }
{}

/// A worked play: `tree a range / store a 0 9 1 / join / dup a b / store a 5 5 3 / load b 5`, from line 2 on, by lane 0. The
/// copy has the range that its source had when its phase began, and the transcript of this is a run of the log.
pub fn a_worked_play()
    ensures played { HasPlayed 1 most_rows 1 true
        (record { tree = record { name = 97 ∷ []; kind = kinds.Range }; opening = Empty }
        ∷ record { tree = record { name = 98 ∷ []; kind = kinds.Range }; opening = CopyOf 0 1 } ∷ [])
        (step_of_line 0 0 3 0 (Called 1 (calls.Store 0 9 1) replies.Ok)
        ∷ step_of_line 1 0 5 0 (Counted said.Copied (record { first = 0; last = 9; entry = 1 } ∷ []))
        ∷ step_of_line 1 0 6 0 (Called 2 (calls.Store 5 5 3) (replies.Over 1))
        ∷ step_of_line 1 0 7 1 (Looked 0 0 0 (queries.Load 5) (Some (record { first = 0; last = 9; entry = 1 }))) ∷ [])
        (record {
          kind = kinds.Range;
          rows = most_rows;
          opening = [];
          records = record { pass = 0; call = calls.Store 0 9 1; reply = replies.Ok }
              ∷ record { pass = 0; call = calls.Store 5 5 3; reply = replies.Over 1 } ∷ [];
        }
        ∷ record { kind = kinds.Range; rows = most_rows; opening = record { first = 0; last = 9; entry = 1 } ∷ []; records = [] } ∷ []) }
    ensures run { IsRun worked_log most_rows
        (record {
          version = 2;
          entries = record { line = 3; said = said.Wrote 1 replies.Ok } ∷ record { line = 5; said = said.Copied 1 }
              ∷ record { line = 6; said = said.Wrote 2 (replies.Over 1) } ∷ record { line = 7; said = said.Got 0 0 (answers.Entry 1) } ∷ [];
          lists = record {
            name = 97 ∷ [];
            kind = kinds.Range;
            ranges = record { first = 0; last = 4; entry = 1 }
                ∷ record { first = 5; last = 5; entry = 3 } ∷ record { first = 6; last = 9; entry = 1 } ∷ [];
          }
              ∷ record { name = 98 ∷ []; kind = kinds.Range; ranges = record { first = 0; last = 9; entry = 1 } ∷ [] } ∷ [];
        }) }
{}
