//! Room for the nodes that a call may take.

ghost use Rattle.std.specs.Prelude.{◌≡◌, ◌↔◌, ◌+◌, ◌*◌, ◌^◌, ◌<◌, ◌≤◌, IsTrue, IfOk, IfErr, length};
ghost use Rattle.mt_base.specs.Width.{deepest};
ghost use Rattle.mt_base.specs.declared.kinds.Kind.{Kind};
ghost use Rattle.mt_rows.specs.Trees.{height_in};
ghost use Rattle.mt_engine.specs.Engine.{IsEngineState};
ghost use Rattle.mt_engine.specs.Rooms.{IsScanned, HasRoom, IsShortOf};

use mt_base::Shortage;
use mt_free::RowBook;
use mt_rows::Rows;

/// Whether three nodes for each level, and one, are free.
pub fn has_room(book: &RowBook, height: u64) -> bool
    requires { height ≤ deepest }
    ensures { IsTrue result ↔ (3 * height + 1 ≤ length book.now.free) }
{
    3 * height + 1 <= book.free()
}

/// Scans, frees the nodes that no section holds, and returns the shortage if fewer than three nodes for each level and one are
/// then free. No call need be in flight.
pub fn make_room<R: Rows>(rows: &mut R, book: &mut RowBook, height: u64) -> Result<(), Shortage>
    requires state { (kind : Kind) × IsEngineState kind (R.sheet rows.old) book.old }
    requires height { height ≡ height_in (R.sheet rows.old).tree.table (R.sheet rows.old).tree.root }
    requires few { (R.sheet rows.old).ended < 2 ^ 64 }
    ensures scanned { (kind : Kind) → IsEngineState kind (R.sheet rows.old) book.old → IsScanned kind (R.sheet rows.old) (R.sheet rows.new) book.old book.new }
    ensures room { IfOk result (λ _. HasRoom (R.sheet rows.new).tree book.new) }
    ensures short { IfErr result (λ shortage. IsShortOf (R.sheet rows.new) book.new shortage) }
{
    let scan = rows.scan();
    book.reclaim(scan.least);
    let need = 3 * height + 1;
    if need <= book.free() {
        return Ok(());
    }
    let held = book.held();
    Err(Shortage {
        need,
        free: book.free(),
        live: book.live(),
        held,
        by: if held > 0 { scan.by } else { None },
    })
}
