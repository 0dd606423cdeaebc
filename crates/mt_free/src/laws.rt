//! What holds of every book. Each law is the contract of a function that does nothing.

ghost use Rattle.std.specs.Prelude.{◌≡◌, ◌≢◌, ◌+◌, ℕ, [], ◌∷◌, ◌++◌, length};
ghost use Rattle.mt_free.specs.Book.{Book, IsBook, IsOut, live_count, after_retire, after_reclaim};

/// Each node is free, out or held.
pub fn every_row_is_counted()
    ensures { (b : Book) → IsBook b → length b.free + live_count b + length b.held ≡ b.rows }
{}

/// A node that is out stays out while other nodes are taken or retired, and while held nodes are freed.
pub fn out_stays_out()
    ensures take { (b : Book) (taken row : ℕ) → IsOut (record b { free = b.free ++ taken ∷ [] }) row → IsOut b row × (row ≢ taken) }
    ensures retire { (b : Book) (retired stamp row : ℕ) → row ≢ retired → IsOut b row → IsOut (after_retire b retired stamp) row }
    ensures reclaim { (b : Book) (least row : ℕ) → IsOut b row → IsOut (after_reclaim b least) row }
{}
