ghost use Rattle.std.specs.Prelude.{◌≡◌};
ghost use Rattle.mt_rows.specs.Spans.{inner_kind};

use mt_base::{Kind, finds_room};
use mt_layout::RowKind;

/// The kind of the inner nodes of a tree of this kind: they have gaps where its holes are searched.
pub fn inner_kind(kind: Kind) -> RowKind
    ensures { result ≡ inner_kind kind }
{
    if finds_room(kind) {
        RowKind::Gapped
    } else {
        RowKind::Inner
    }
}
