ghost use Rattle.std.specs.Prelude.{◌≡◌, ◌≤◌, ◌+◌, ◌++◌, IfOk, OnOk, length};
ghost use Rattle.std.specs.List.{flat_map};
ghost use Rattle.mt_base.specs.Text.{kind_text, range_text};
ghost use Rattle.mt_log.specs.Text.{answer_text, entry_text, over_text, reply_text, said_text, shortage_text, was_text, range_line, listing_text, text_of};

use crate::kinds::kind_text;
use crate::line_ends::{LineEnd, ROOM};
use crate::transcripts::{Answer, Entry, Listing, Said, Transcript};
use mt_base::{Kind, NoMemory, Range, Reply, Shortage};
use std::alloc::{AllocError, Global};

/// Puts the numbers of a shortage in front.
fn put_shortage(line: &mut LineEnd, shortage: Shortage)
    requires { length line.old + 90 ≤ ROOM }
    ensures text { line.new ≡ shortage_text shortage ++ line.old }
    ensures long { length line.new ≤ 90 + length line.old }
{
    line.number(shortage.held);
    line.text(b" ");
    line.number(shortage.live);
    line.text(b" ");
    line.number(shortage.free);
    line.text(b" ");
    line.number(shortage.need);
    line.text(b"nomem ");
}

/// Puts in front that a store was done, and from the second version on which entry it overwrote.
fn put_over(line: &mut LineEnd, version: u32, entry: u64)
    requires { length line.old + 90 ≤ ROOM }
    ensures text { line.new ≡ over_text version entry ++ line.old }
    ensures long { length line.new ≤ 90 + length line.old }
{
    if version == 1 {
        line.text(b"ok");
        return;
    }
    line.number(entry);
    line.text(b"over ");
}

/// Puts in front the range that an erasure removed; in the first version its entry alone.
fn put_was(line: &mut LineEnd, version: u32, range: &Range)
    requires { length line.old + 90 ≤ ROOM }
    ensures text { line.new ≡ was_text version range.now ++ line.old }
    ensures long { length line.new ≤ 90 + length line.old }
{
    if version == 1 {
        line.number(range.entry);
    } else {
        put_range(line, range);
    }
    line.text(b"was ");
}

/// Puts a reply in front.
pub fn put_reply(line: &mut LineEnd, version: u32, reply: Reply)
    requires { length line.old + 90 ≤ ROOM }
    ensures text { line.new ≡ reply_text version reply ++ line.old }
    ensures long { length line.new ≤ 90 + length line.old }
{
    match reply {
        Reply::Ok => line.text(b"ok"),
        Reply::Over(entry) => put_over(line, version, entry),
        Reply::Start(start) => {
            line.number(start);
            line.text(b"start ");
        }
        Reply::Was(range) => put_was(line, version, &range),
        Reply::None => line.text(b"none"),
        Reply::Exists => line.text(b"exists"),
        Reply::Invalid => line.text(b"invalid"),
        Reply::Busy => line.text(b"busy"),
        Reply::NoNodes(shortage) => put_shortage(line, shortage),
    }
}

/// Puts a range in front.
pub fn put_range(line: &mut LineEnd, range: &Range)
    requires { length line.old + 62 ≤ ROOM }
    ensures text { line.new ≡ range_text range.now ++ line.old }
    ensures long { length line.new ≤ 62 + length line.old }
{
    line.number(range.entry);
    line.text(b" ");
    line.number(range.last);
    line.text(b" ");
    line.number(range.first);
}

/// Puts an answer in front.
fn put_answer(line: &mut LineEnd, value: Answer)
    requires { length line.old + 68 ≤ ROOM }
    ensures text { line.new ≡ answer_text value ++ line.old }
    ensures long { length line.new ≤ 68 + length line.old }
{
    match value {
        Answer::None => line.text(b"none"),
        Answer::Entry(entry) => {
            line.number(entry);
            line.text(b"entry ");
        }
        Answer::Range(range) => {
            put_range(line, &range);
            line.text(b"range ");
        }
    }
}

/// Puts in front what a line of a log was answered.
fn put_said(line: &mut LineEnd, version: u32, said: Said)
    requires { length line.old + 111 ≤ ROOM }
    ensures text { line.new ≡ said_text version said ++ line.old }
    ensures long { length line.new ≤ 111 + length line.old }
{
    match said {
        Said::Wrote { call, reply } => {
            put_reply(line, version, reply);
            line.text(b" ");
            line.number(call);
        }
        Said::Got { lo, hi, value } => {
            put_answer(line, value);
            line.text(b" ");
            line.number(hi);
            line.text(b" ");
            line.number(lo);
        }
        Said::Lawful { count } => {
            line.number(count);
            line.text(b"lawful ");
        }
        Said::Copied { count } => {
            line.number(count);
            line.text(b"copied ");
        }
    }
}

/// Adds the line of an entry.
fn push_entry(
    text: &mut Vec<u8>,
    line: &mut LineEnd,
    version: u32,
    entry: &Entry,
) -> Result<(), AllocError>
    ensures { OnOk result (text.new.items ≡ text.old.items ++ entry_text version entry.now) }
{
    line.begin();
    put_said(line, version, entry.said);
    line.text(b" ");
    line.number(entry.line);
    text.extend_from_slice(line.as_bytes())
}

fn push_range(text: &mut Vec<u8>, line: &mut LineEnd, range: &Range) -> Result<(), AllocError>
    ensures { OnOk result (text.new.items ≡ text.old.items ++ range_line range.now) }
{
    line.begin();
    put_range(line, range);
    text.extend_from_slice(line.as_bytes())
}

fn push_ranges(text: &mut Vec<u8>, line: &mut LineEnd, ranges: &[Range]) -> Result<(), AllocError>
    ensures { OnOk result (text.new.items ≡ text.old.items ++ flat_map range_line ranges.now) }
{
    for range in ranges {
        push_range(text, line, range)?;
    }
    Ok(())
}

/// Puts a kind in front.
pub fn put_kind(line: &mut LineEnd, kind: Kind)
    requires { length line.old + 7 ≤ ROOM }
    ensures text { line.new ≡ kind_text kind ++ line.old }
    ensures long { length line.new ≤ 7 + length line.old }
{
    line.text(kind_text(kind));
}

/// Adds the line of a tree, and one for each range.
#[tactic(auto, using(crate::proofs::Padding::name_is_short))]
fn push_listing(text: &mut Vec<u8>, line: &mut LineEnd, listing: &Listing) -> Result<(), AllocError>
    ensures { OnOk result (text.new.items ≡ text.old.items ++ listing_text listing.now) }
{
    let ranges = listing.ranges.as_slice();
    line.begin();
    line.number(ranges.len() as u64);
    line.text(b" ");
    put_kind(line, listing.kind);
    line.text(b" ");
    line.text(listing.name.as_bytes());
    line.text(b"tree ");
    text.extend_from_slice(line.as_bytes())?;
    push_ranges(text, line, ranges)
}

fn push_entries(
    text: &mut Vec<u8>,
    line: &mut LineEnd,
    version: u32,
    entries: &[Entry],
) -> Result<(), AllocError>
    ensures { OnOk result (text.new.items ≡ text.old.items ++ flat_map (entry_text version) entries.now) }
{
    for entry in entries {
        push_entry(text, line, version, entry)?;
    }
    Ok(())
}

fn push_listings(
    text: &mut Vec<u8>,
    line: &mut LineEnd,
    listings: &[Listing],
) -> Result<(), AllocError>
    ensures { OnOk result (text.new.items ≡ text.old.items ++ flat_map listing_text listings.now) }
{
    for listing in listings {
        push_listing(text, line, listing)?;
    }
    Ok(())
}

/// The text of a transcript.
///
/// # Errors
///
/// `NoMemory` where memory ran out.
pub fn render(alloc: Global, transcript: &Transcript) -> Result<Vec<u8>, NoMemory>
    ensures { IfOk result (λ v. v.items ≡ text_of transcript.now) }
{
    let mut text = Vec::new(alloc);
    let mut line = LineEnd::new();
    push_entries(
        &mut text,
        &mut line,
        transcript.version,
        transcript.entries.as_slice(),
    )?;
    push_listings(&mut text, &mut line, transcript.lists.as_slice())?;
    Ok(text)
}
