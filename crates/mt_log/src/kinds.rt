ghost use Rattle.std.specs.Prelude.{◌≡◌, ◌≤◌, length};
ghost use Rattle.mt_base.specs.Text.{kind_text};
ghost use Rattle.mt_log.specs.Reading.{kind_read};

use crate::faults::Why;
use mt_base::Kind;

/// In the order in which a text is looked for.
const KINDS: &[Kind] = &[Kind::Range, Kind::Alloc, Kind::Range32, Kind::Alloc32];

/// The text of a kind, of at most 7 bytes.
pub fn kind_text(kind: Kind) -> &'static [u8]
    ensures text { result.now ≡ kind_text kind }
    ensures short { length result.now ≤ 7 }
{
    match kind {
        Kind::Range => b"range",
        Kind::Alloc => b"alloc",
        Kind::Range32 => b"range32",
        Kind::Alloc32 => b"alloc32",
    }
}

/// The kind of a tree that is to be declared.
#[tactic(auto, unfolding(crate::specs::Reading::kind_read))]
pub fn kind_of(field: &[u8]) -> Result<Kind, Why>
    ensures { result ≡ kind_read field.now }
{
    KINDS
        .iter()
        .copied()
        .find(|kind| field == kind_text(*kind))
        .ok_or(Why::BadKind)
}
