//! Texts, compared with what is to be printed.

ghost use Rattle.std.specs.Prelude.{◌≡◌, ◌++◌, ◌↔◌, ℕ, List, IfNone, IfSome, IsTrue};
ghost use Rattle.std.specs.Fmt.{decimal};
ghost use Rattle.std.specs.List.{flat_map};
ghost use Rattle.mt_log.specs.Text.{listing_text, range_line, reply_text};
ghost use Rattle.mt_told.specs.Comparing.{head_line};

use crate::fronts::behind_word;
use mt_base::{Kind, Range, Reply};
use mt_log::{LineEnd, Word, put_kind, put_range, put_reply};

/// Whether these bytes are this number as it is printed.
pub fn is_number(number: u64, bytes: &[u8]) -> bool
    ensures { IsTrue result ↔ (decimal number ≡ bytes.now) }
{
    let mut line = LineEnd::new();
    line.number(number);
    line.as_bytes() == bytes
}

/// Whether they are this reply as this version prints it.
pub fn is_reply(version: u32, reply: &Reply, bytes: &[u8]) -> bool
    ensures { IsTrue result ↔ (reply_text version reply.now ≡ bytes.now) }
{
    let mut line = LineEnd::new();
    put_reply(&mut line, version, *reply);
    line.as_bytes() == bytes
}

/// Puts together the first line of the listing of a tree with `count` ranges.
#[tactic(auto, using(mt_log::proofs::Padding::name_is_short))]
fn put_head(line: &mut LineEnd, name: &Word, kind: Kind, count: u64)
    ensures { line.new ≡ head_line name.now kind count }
{
    line.begin();
    line.number(count);
    line.text(b" ");
    put_kind(line, kind);
    line.text(b" ");
    line.text(name.as_bytes());
    line.text(b"tree ");
}

/// The text after the line of a range, if it begins with that line.
fn behind_range<'t>(text: &'t [u8], line: &mut LineEnd, range: &Range) -> Option<&'t [u8]>
    ensures some { IfSome result (λ rest. text.now ≡ range_line range.now ++ rest.now) }
    ensures none { IfNone result ((rest : List ℕ) → text.now ≡ range_line range.now ++ rest → ⊥) }
{
    line.begin();
    put_range(line, range);
    behind_word(text, line.as_bytes())
}

/// The text after the lines of these ranges, if it begins with them.
fn behind_ranges<'t>(text: &'t [u8], line: &mut LineEnd, ranges: &[Range]) -> Option<&'t [u8]>
    ensures some { IfSome result (λ rest. text.now ≡ flat_map range_line ranges.now ++ rest.now) }
    ensures none { IfNone result ((rest : List ℕ) → text.now ≡ flat_map range_line ranges.now ++ rest → ⊥) }
{
    let mut rest = text;
    for range in ranges {
        rest = behind_range(rest, line, range)?;
    }
    Some(rest)
}

/// The text after the listing of a tree of this name and this kind that has these ranges, if it begins with that listing.
pub fn listing_in_front<'t>(
    text: &'t [u8],
    name: &Word,
    kind: Kind,
    ranges: &[Range],
) -> Option<&'t [u8]>
    ensures some { IfSome result (λ rest. text.now ≡ listing_text (record { name = name.now; kind = kind; ranges = ranges.now }) ++ rest.now) }
    ensures none { IfNone result ((rest : List ℕ) → text.now ≡ listing_text (record { name = name.now; kind = kind; ranges = ranges.now }) ++ rest → ⊥) }
{
    let mut line = LineEnd::new();
    put_head(&mut line, name, kind, ranges.len() as u64);
    let lines = behind_word(text, line.as_bytes())?;
    behind_ranges(lines, &mut line, ranges)
}
