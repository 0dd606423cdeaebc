ghost use Rattle.std.specs.Prelude.{◌≡◌};
ghost use Rattle.mt_base.specs.Width.{columns, greatest, kind_width};

use crate::kinds::Kind;

/// The number of the first node.
pub const FIRST_ROW: u32 = 16;

/// The greatest number of nodes of a tree.
pub const MOST_ROWS: u64 = 65_504;

/// The greatest number of levels of a tree.
pub const DEEPEST: usize = 9;

/// The greatest number of nodes that a call takes: three for each level, and one.
pub const MOST_TAKEN: usize = 28;

/// The width of a tree's indexes, which fixes the size of its nodes.
#[derive(Clone, Copy, Debug, PartialEq, Eq)]
pub enum Width {
    /// Indexes of 64 bits, and nodes of 32 words (256 bytes).
    Long,
    /// Indexes of 32 bits, and nodes of 64 words (512 bytes).
    Short,
}

/// The width of a tree of this kind.
pub fn width_of(kind: Kind) -> Width
    ensures { result ≡ kind_width kind }
{
    match kind {
        Kind::Range | Kind::Alloc => Width::Long,
        Kind::Range32 | Kind::Alloc32 => Width::Short,
    }
}

/// The greatest index of a tree of this width.
pub fn top(width: Width) -> u64
    ensures { result ≡ greatest width }
{
    match width {
        Width::Long => u64::MAX,
        Width::Short => 4_294_967_295,
    }
}

/// How many words a node of this width has.
pub fn cols(width: Width) -> u32
    ensures { result ≡ columns width }
{
    match width {
        Width::Long => 32,
        Width::Short => 64,
    }
}
