//! Loads of all section words.

ghost use Rattle.std.specs.Prelude.{◌≡◌, ◌<◌};
ghost use Rattle.mt_rule.specs.Tokens.{identity_of, pen_in, IsPenOf, IsJoined, KeepsPassOf, joined_part};
ghost use Rattle.mt_rule.specs.Scans.{lesser};
ghost use Rattle.mt_pen.specs.Scans.{HasScanned};

use mt_base::Holder;
use mt_rows::Scan;
use mt_rule::{MtTable, Pen};

/// The scan after one more section word. It counts if the section is open at an epoch below all earlier ones.
fn lesser(pass: u32, word: u64, scan: Scan) -> Scan
    ensures { result ≡ lesser pass word scan }
{
    let epoch = word / 2;
    if word == 0 || scan.least <= epoch {
        return scan;
    }
    Scan {
        least: epoch,
        by: Some(Holder { pass, epoch }),
    }
}

/// Loads the section word of each handle in turn. The result is the least epoch at which a section is open, and the first
/// handle that has it.
pub(crate) fn scan_sections(table: &MtTable, pen: &mut Pen) -> Scan
    requires pen { IsPenOf (identity_of table.now) pen.old }
    requires joined { IsJoined pen.old }
    ensures on { KeepsPassOf (identity_of table.now) pen.old pen.new }
    ensures scanned { HasScanned (pen_in pen.old) (joined_part pen.old) (pen_in pen.new) result (identity_of table.now).shape.passes }
{
    let mut scan = Scan {
        least: u64::MAX,
        by: None,
    };
    for pass in 0..table.passes() {
        scan = lesser(pass, table.load_section(pen, pass), scan);
    }
    scan
}
