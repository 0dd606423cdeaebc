//! What holds of every map of ranges. Each law (lemma) is the contract of a function that does nothing.

ghost use Rattle.std.specs.Prelude.{◌≡◌, ◌↔◌, ◌<◌, ◌≤◌, ◌+◌, ◌-◌, ◌*◌, ◌/◌, ◌^◌, ◌==◌, ℕ, Bool, Option, true, List, [], ◌∷◌, length};
ghost use Rattle.std.specs.Prelude.{option_map, slice_get, is_some, IsPermutation, IsTrue, flat_map, if◌then◌else◌};
ghost use Rattle.std.specs.List.{range_with_len};
ghost use Rattle.mt_base.specs.declared.kinds.Kind.{Kind};
ghost use Rattle.mt_base.specs.declared.kinds.Kind.TheVariants as kinds;
ghost use Rattle.mt_base.specs.declared.ranges.Range.{Range};
ghost use Rattle.mt_base.specs.declared.calls.Call.{Call};
ghost use Rattle.mt_base.specs.declared.calls.Query.{Query};
ghost use Rattle.mt_base.specs.declared.replies.Reply.{Reply};
ghost use Rattle.mt_base.specs.declared.replies.Shortage.{Shortage};
ghost use Rattle.mt_base.specs.Call.{acted, answer};
ghost use Rattle.mt_base.specs.History.{Record, History, IsLegal, map_at, limits_after};
ghost use Rattle.mt_base.specs.Holes.{IsRoom, low, high};
ghost use Rattle.mt_base.specs.Map.{IsMap, first_met, holds, holding, is_held, over};
ghost use Rattle.mt_base.specs.Nodes.{Limits, IsShort, Wants};
ghost use Rattle.mt_base.specs.Passes.{Pass, Grows, IsSettled, Learned, Read, Saw, Wrote};
ghost use Rattle.mt_base.specs.Width.{greatest_of, most_rows, most_taken};

/// A store on a map gives a map.
pub fn store_keeps_map()
    ensures { (kind : Kind) (m : List Range) (first last entry : ℕ) → first ≤ last → last ≤ greatest_of kind → IsMap kind m
        → IsMap kind (over m first last entry) }
{}

/// Every call on a map gives a map.
pub fn call_keeps_map()
    ensures { (kind : Kind) (m : List Range) (call : Call) → IsMap kind m → IsMap kind (acted kind m call).0 }
{}

/// After a store, an index of its range has the entry that was stored (none if that is 0). Every other index has the entry that
/// it had.
#[tactic(auto, using(crate::proofs::ReadingAfterStore::entries_after))]
pub fn load_after_store()
    ensures inside { (m : List Range) (first last entry index : ℕ) → first ≤ index → index ≤ last
        → option_map (λ r. r.entry) (holding (over m first last entry) index) ≡ (if entry == 0 then None else Some entry) }
    ensures below { (m : List Range) (first last entry index : ℕ) → first ≤ last → index < first
        → option_map (λ r. r.entry) (holding (over m first last entry) index) ≡ option_map (λ r. r.entry) (holding m index) }
    ensures above { (m : List Range) (first last entry index : ℕ) → first ≤ last → last < index
        → option_map (λ r. r.entry) (holding (over m first last entry) index) ≡ option_map (λ r. r.entry) (holding m index) }
{}

/// At most one range of a map holds an index.
#[tactic(auto, using(crate::proofs::OneRange::one_range))]
pub fn one_range_holds_an_index()
    ensures { (kind : Kind) (m : List Range) (index i j : ℕ) (r s : Range) → IsMap kind m → slice_get m i ≡ Some r
        → slice_get m j ≡ Some s → IsTrue (holds index r) → IsTrue (holds index s) → i ≡ j }
{}

/// Worked stores: into the middle of a range, erasing there and across its end, and at the last index of all.
pub fn worked_stores()
    ensures split { over (over [] 0 99 1) 40 49 3
        ≡ record { first = 0; last = 39; entry = 1 } ∷ record { first = 40; last = 49; entry = 3 } ∷ record { first = 50; last = 99; entry = 1 } ∷ [] }
    ensures erased { over (over (over [] 0 99 1) 40 49 0) 45 60 0
        ≡ record { first = 0; last = 39; entry = 1 } ∷ record { first = 61; last = 99; entry = 1 } ∷ [] }
    ensures top { over (over [] 0 (2 ^ 64 - 1) 7) (2 ^ 64 - 1) (2 ^ 64 - 1) 9
        ≡ record { first = 0; last = 2 ^ 64 - 2; entry = 7 } ∷ record { first = 2 ^ 64 - 1; last = 2 ^ 64 - 1; entry = 9 } ∷ [] }
{}

/// The range that a store meets first is the one that a find from its first index to its last returns. There is one exactly if
/// some range holds one of these indexes.
#[tactic(auto, using(crate::proofs::FirstMet::met_is_found, crate::proofs::FirstMet::is_held_where_met))]
pub fn a_store_meets_what_a_find_finds()
    ensures found { (m : List Range) (first last : ℕ) → first ≤ last → first_met m first last ≡ answer m (Query.Find first last) }
    ensures met { (m : List Range) (first last : ℕ) → is_held m first last ≡ is_some (first_met m first last) }
{}

/// Worked replies: stores onto nothing, over one range, from a hole into two, and an erase of a range that was cut.
pub fn worked_replies()
    ensures hole { (acted kinds.Range [] (Call.Store 10 19 5)).1 ≡ Reply.Ok }
    ensures within { (acted kinds.Range (record { first = 10; last = 19; entry = 5 } ∷ []) (Call.Store 0 99 7)).1 ≡ Reply.Over 5 }
    ensures first { (acted kinds.Range32 (record { first = 5; last = 9; entry = 5 } ∷ record { first = 20; last = 29; entry = 6 } ∷ [])
        (Call.StorePre 6 20 0)).1 ≡ Reply.Over 5 }
    ensures behind { (acted kinds.Alloc (record { first = 20; last = 29; entry = 6 } ∷ record { first = 30; last = 39; entry = 7 } ∷ []) (Call.Store 10 30 8)).1
        ≡ Reply.Over 6 }
    ensures beside { (acted kinds.Range (record { first = 20; last = 29; entry = 6 } ∷ []) (Call.Store 10 19 8)).1 ≡ Reply.Ok }
    ensures whole { acted kinds.Range (record { first = 0; last = 49; entry = 7 } ∷ record { first = 200; last = 249; entry = 8 } ∷ []) (Call.Erase 20)
        ≡ (record { first = 200; last = 249; entry = 8 } ∷ [], Reply.Was (record { first = 0; last = 49; entry = 7 })) }
{}

/// If a search for `n` indexes finds a start, the `n` indexes from there lie in the window, and no range holds any of them.
pub fn room_is_in_the_window_and_free()
    ensures lowest { (kind : Kind) (m : List Range) (n lo hi s : ℕ) → IsMap kind m → 1 ≤ n → low kind m n lo hi ≡ Some s → IsRoom m n lo hi s }
    ensures highest { (kind : Kind) (m : List Range) (n lo hi s : ℕ) → IsMap kind m → 1 ≤ n → high kind m n lo hi ≡ Some s → IsRoom m n lo hi s }
{}

/// If a window has room for `n` indexes, a search finds a start: the lowest search none above that room, the highest none below
/// it.
pub fn a_search_finds_the_lowest_or_the_highest()
    ensures lowest { (kind : Kind) (m : List Range) (n lo hi s : ℕ) → IsMap kind m → 1 ≤ n → hi ≤ greatest_of kind
        → IsRoom m n lo hi s → (t : ℕ) × ((low kind m n lo hi ≡ Some t) × (t ≤ s)) }
    ensures highest { (kind : Kind) (m : List Range) (n lo hi s : ℕ) → IsMap kind m → 1 ≤ n → hi ≤ greatest_of kind
        → IsRoom m n lo hi s → (t : ℕ) × ((high kind m n lo hi ≡ Some t) × (s ≤ t)) }
{}

/// Worked searches: room between two ranges, at the greatest index, in no hole of a window, up to a range that ends a window,
/// below a range, above all of them, in none, and in the empty map.
pub fn worked_searches()
    ensures between { low kinds.Alloc (record { first = 0; last = 9; entry = 1 } ∷ record { first = 20; last = 29; entry = 1 } ∷ []) 10 0 (2 ^ 64 - 1)
        ≡ Some 10 }
    ensures greatest { high kinds.Alloc (record { first = 0; last = 9; entry = 1 } ∷ record { first = 10; last = 19; entry = 3 }
        ∷ record { first = 20; last = 29; entry = 1 } ∷ []) 10 0 (2 ^ 64 - 1) ≡ Some 18446744073709551606 }
    ensures clipped { low kinds.Alloc (record { first = 0; last = 9; entry = 1 } ∷ record { first = 20; last = 29; entry = 1 } ∷ []) 11 5 25 ≡ None }
    ensures short { high kinds.Alloc (record { first = 0; last = 9; entry = 1 } ∷ record { first = 20; last = 29; entry = 1 } ∷ []) 4 5 25 ≡ Some 16 }
    ensures below { high kinds.Alloc (record { first = 4194304; last = 4202495; entry = 8192 }
        ∷ record { first = 2147479552; last = 2147483647; entry = 8196 } ∷ []) 12288 65536 2147483647 ≡ Some 2147467264 }
    ensures behind { low kinds.Alloc (record { first = 0; last = 16; entry = 4096 } ∷ []) 1 0 (2 ^ 64 - 1) ≡ Some 17 }
    ensures full { low kinds.Alloc (record { first = 0; last = 16; entry = 4096 } ∷ []) 1 0 16 ≡ None }
    ensures high { high kinds.Alloc (record { first = 0; last = 16; entry = 4096 } ∷ []) 4 0 (2 ^ 64 - 1) ≡ Some 18446744073709551612 }
    ensures empty { low kinds.Alloc [] 1 0 (2 ^ 64 - 1) ≡ Some 0 }
    ensures narrow { high kinds.Alloc32 (record { first = 0; last = 9; entry = 1 } ∷ []) 10 0 (2 ^ 32 - 1) ≡ Some 4294967286 }
    ensures narrow_full { low kinds.Alloc32 (record { first = 0; last = 4294967294; entry = 1 } ∷ []) 2 0 (2 ^ 32 - 1) ≡ None }
{}

/// A call that stores an entry where it finds room needs nodes exactly if it finds some.
#[tactic(auto, using(crate::proofs::AreasWant::alloc_wants, crate::proofs::AreasWant::ralloc_wants))]
pub fn an_area_wants_rows_where_it_is_not_refused()
    ensures lowest { (kind : Kind) (m : List Range) (size lo hi entry : ℕ) → IsMap kind m
        → Wants kind m (Call.Alloc size lo hi entry) ↔ ((s : ℕ) × ((acted kind m (Call.Alloc size lo hi entry)).1 ≡ Reply.Start s)) }
    ensures highest { (kind : Kind) (m : List Range) (size lo hi entry : ℕ) → IsMap kind m
        → Wants kind m (Call.Ralloc size lo hi entry) ↔ ((s : ℕ) × ((acted kind m (Call.Ralloc size lo hi entry)).1 ≡ Reply.Start s)) }
{}

/// A shortage of nodes is also one under limits that allow more: a tree that opened with more nodes, more calls that have
/// ended, or readers that may hold nodes back.
#[tactic(auto, using(crate::proofs::Shortages::still_short))]
pub fn a_shortage_stays_one()
    ensures { (rows opened opened' ended ended' : ℕ) (may_hold : Bool) (m : List Range) (s : Shortage) → opened ≤ opened' → ended ≤ ended'
        → IsShort (record { rows = rows; opened = opened; ended = ended; may_hold = may_hold }) m s
        → IsShort (record { rows = rows; opened = opened'; ended = ended'; may_hold = true }) m s }
{}

/// What a shortage says of the number of nodes. If no node is held back, the tree has fewer than its levels and ranges need. It
/// always has fewer than it opened with and its calls so far, this one included, may have taken. So a tree of 65,504 nodes that
/// opens empty refuses none of its first 2,339 calls because nodes are short.
#[tactic(auto, using(crate::proofs::Shortages::short_of_rows))]
pub fn a_shortage_has_few_rows()
    ensures unheld { (l : Limits) (m : List Range) (s : Shortage) → (short : IsShort l m s) → s.held ≡ 0 → l.rows < 3 * short.levels + 1 + length m / 2 + 2 }
    ensures taken { (l : Limits) (m : List Range) (s : Shortage) → IsShort l m s → l.rows < most_taken * (l.ended + 1) + l.opened }
    ensures many { (h : History) (ended : ℕ) (m : List Range) (s : Shortage) → h.rows ≡ most_rows → h.opening ≡ []
        → IsShort (limits_after h ended) m s → 2339 ≤ ended }
    ensures answered { (h : History) (k : ℕ) (r : Record) → h.rows ≡ most_rows → h.opening ≡ [] → IsLegal h → k < 2339
        → slice_get h.records k ≡ Some r → r.reply ≡ (acted h.kind (map_at h k) r.call).1 }
{}

/// The numbers of the calls of all settled handles are those of the tree's calls, each once.
#[tactic(auto, using(crate::proofs::SharedCalls::each_once))]
pub fn settled_passes_share_the_calls()
    ensures { (tree : History) (passes : List Pass) → IsSettled tree passes
        → IsPermutation (range_with_len 1 (length tree.records)) (flat_map (λ q. q.mine) passes) }
{}

/// A handle that learns of other calls, by the lock or from another handle, makes no call by that.
#[tactic(auto, using(crate::proofs::Goings::saw_grows, crate::proofs::Goings::learned_grows, crate::proofs::Goings::grows_on))]
pub fn a_pass_that_is_told_of_others_makes_no_call()
    ensures saw { (tree : History) (p q : Pass) → Saw tree p q → Grows p q }
    ensures learned { (tree : History) (p : Pass) (told : List Record) (q : Pass) → Learned tree p told q → Grows p q }
    ensures on { (p q r : Pass) → Grows p q → Grows q r → Grows p r }
{}

/// A handle that sees the whole history and then makes a call has made this call from where it was before. A read too counts
/// from what the handle knew earlier.
#[tactic(auto, using(crate::proofs::Goings::saw_wrote, crate::proofs::Goings::grew_read))]
pub fn what_a_pass_saw_before_is_part_of_a_call()
    ensures wrote { (tree : History) (p q : Pass) (number : ℕ) (call : Call) (reply : Reply) (r : Pass) → Saw tree p q
        → Wrote tree q number call reply r → Wrote tree p number call reply r }
    ensures read { (tree : History) (p q : Pass) (lo hi k : ℕ) (query : Query) (value : Option Range) (r : Pass) → Grows p q
        → Read tree q lo hi k query value r → Read tree p lo hi k query value r }
{}
