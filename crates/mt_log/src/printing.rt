//! A log in print. Each line is put together from its end, as the lines of a transcript are.

ghost use Rattle.std.specs.Prelude.{◌≡◌, ◌≤◌, ◌+◌, ◌++◌, ◌∷◌, ◌-◌, ℕ, List, [], IfOk, OnOk, codes, length, replicate, slice_index_or};
ghost use Rattle.std.specs.Fmt.{decimal};
ghost use Rattle.std.specs.List.{join_with_byte};
ghost use Rattle.mt_base.specs.Text.{kind_text};
ghost use Rattle.mt_log.specs.Keywords.{keyword_text};
ghost use Rattle.mt_log.specs.LogText.{IsLog, call_fields, query_fields, item_fields, tree_name, names_after, line_text, lines_text, log_text};
ghost use Rattle.mt_log.specs.Reading.{log_of};

use crate::keywords::{Keyword, word_of};
use crate::line_ends::{LineEnd, ROOM};
use crate::lines::{Item, Line, Log};
use crate::names::Word;
use crate::rendering::put_kind;
use mt_base::{Call, Kind, NoMemory, Query};
use std::alloc::{AllocError, Global};

/// About as long as a line is.
const LINE: usize = 40;

/// Puts a number in front, after a space.
fn put_number(line: &mut LineEnd, number: u64)
    requires { length line.old + 21 ≤ ROOM }
    ensures text { line.new ≡ 32 ∷ decimal number ++ line.old }
    ensures long { length line.new ≤ 21 + length line.old }
{
    line.number(number);
    line.text(b" ");
}

/// Puts a keyword and a tree's name in front.
fn put_head(line: &mut LineEnd, keyword: Keyword, name: &[u8])
    requires room { length line.old + 23 ≤ ROOM }
    requires short { length name.now ≤ 16 }
    ensures { line.new ≡ keyword_text keyword ++ (32 ∷ name.now ++ line.old) }
{
    line.text(name);
    line.text(b" ");
    line.text(word_of(keyword));
}

/// Puts two numbers in front.
fn put_two(line: &mut LineEnd, first: u64, second: u64)
    requires { length line.old + 42 ≤ ROOM }
    ensures text { line.new ≡ 32 ∷ decimal first ++ (32 ∷ decimal second ++ line.old) }
    ensures long { length line.new ≤ 42 + length line.old }
{
    put_number(line, second);
    put_number(line, first);
}

/// Puts three numbers in front.
fn put_three(line: &mut LineEnd, first: u64, second: u64, third: u64)
    requires { length line.old + 63 ≤ ROOM }
    ensures text { line.new ≡ 32 ∷ decimal first ++ (32 ∷ decimal second ++ (32 ∷ decimal third ++ line.old)) }
    ensures long { length line.new ≤ 63 + length line.old }
{
    put_number(line, third);
    put_two(line, first, second);
}

/// The keyword of a call.
fn keyword_of_call(call: Call) -> Keyword
    ensures { (name : List ℕ) → keyword_text result ≡ slice_index_or (call_fields name call) 0 [] }
{
    match call {
        Call::Store { .. } => Keyword::Store,
        Call::StorePre { .. } => Keyword::StorePre,
        Call::Insert { .. } => Keyword::Insert,
        Call::Erase { .. } => Keyword::Erase,
        Call::Alloc { .. } => Keyword::Alloc,
        Call::Ralloc { .. } => Keyword::Ralloc,
        Call::Gap { .. } => Keyword::Gap,
        Call::Rgap { .. } => Keyword::Rgap,
        Call::Clear => Keyword::Clear,
    }
}

/// Puts the numbers of a call in front.
fn put_numbers_of_call(line: &mut LineEnd, call: Call)
    requires { length line.old + 84 ≤ ROOM }
    ensures text { (name : List ℕ) → slice_index_or (call_fields name call) 0 [] ++ (32 ∷ name ++ line.new)
        ≡ join_with_byte 32 (call_fields name call) ++ line.old }
    ensures long { length line.new ≤ 84 + length line.old }
{
    match call {
        Call::Store { first, last, entry }
        | Call::StorePre { first, last, entry }
        | Call::Insert { first, last, entry } => put_three(line, first, last, entry),
        Call::Erase { index } => put_number(line, index),
        Call::Alloc {
            size,
            min,
            max,
            entry,
        }
        | Call::Ralloc {
            size,
            min,
            max,
            entry,
        } => {
            put_number(line, entry);
            put_three(line, size, min, max);
        }
        Call::Gap { size, min, max } | Call::Rgap { size, min, max } => put_three(
            line, size, min, max,
        ),
        Call::Clear => {}
    }
}

/// Puts a call on the tree of this name in front.
fn put_call(line: &mut LineEnd, name: &[u8], call: Call)
    requires room { length line.old + 107 ≤ ROOM }
    requires short { length name.now ≤ 16 }
    ensures { line.new ≡ join_with_byte 32 (call_fields name.now call) ++ line.old }
{
    put_numbers_of_call(line, call);
    put_head(line, keyword_of_call(call), name);
}

/// The keyword of a query.
fn keyword_of_query(query: Query) -> Keyword
    ensures { (name : List ℕ) → keyword_text result ≡ slice_index_or (query_fields name query) 0 [] }
{
    match query {
        Query::Load { .. } => Keyword::Load,
        Query::Find { .. } => Keyword::Find,
        Query::Next { .. } => Keyword::Next,
        Query::Prev { .. } => Keyword::Prev,
        Query::Rfind { .. } => Keyword::Rfind,
    }
}

/// Puts the numbers of a query in front.
fn put_numbers_of_query(line: &mut LineEnd, query: Query)
    requires { length line.old + 42 ≤ ROOM }
    ensures text { (name : List ℕ) → slice_index_or (query_fields name query) 0 [] ++ (32 ∷ name ++ line.new)
        ≡ join_with_byte 32 (query_fields name query) ++ line.old }
    ensures long { length line.new ≤ 42 + length line.old }
{
    match query {
        Query::Load { index } => put_number(line, index),
        Query::Find { index, max } | Query::Next { index, max } => put_two(line, index, max),
        Query::Prev { index, min } | Query::Rfind { index, min } => put_two(line, index, min),
    }
}

/// Puts a query of the tree of this name in front.
fn put_query(line: &mut LineEnd, name: &[u8], query: Query)
    requires room { length line.old + 65 ≤ ROOM }
    requires short { length name.now ≤ 16 }
    ensures { line.new ≡ join_with_byte 32 (query_fields name.now query) ++ line.old }
{
    put_numbers_of_query(line, query);
    put_head(line, keyword_of_query(query), name);
}

/// The name of the tree of this number, where it is one of these trees.
#[tactic(auto, using(crate::proofs::Padding::name_is_short))]
fn name_at(names: &[Word], tree: u32) -> &[u8]
    ensures name { result.now ≡ tree_name names.now tree }
    ensures short { length result.now ≤ 16 }
{
    match names.get(tree as usize) {
        Some(name) => name.as_bytes(),
        None => b"".as_slice(),
    }
}

/// Puts a scan in front.
fn put_scan(line: &mut LineEnd, name: &[u8], index: u64, max: u64, count: u32)
    requires room { length line.old + 86 ≤ ROOM }
    requires short { length name.now ≤ 16 }
    ensures { line.new ≡ join_with_byte 32 (codes "scan" ∷ name.now ∷ decimal index ∷ decimal max ∷ decimal count ∷ []) ++ line.old }
{
    put_number(line, u64::from(count));
    put_two(line, index, max);
    put_head(line, Keyword::Scan, name);
}

/// Puts the declaration of a tree in front.
#[tactic(auto, using(crate::proofs::Padding::name_is_short))]
fn put_tree(line: &mut LineEnd, name: &Word, kind: Kind)
    requires { length line.old + 31 ≤ ROOM }
    ensures { line.new ≡ join_with_byte 32 (codes "tree" ∷ name.now ∷ kind_text kind ∷ []) ++ line.old }
{
    put_kind(line, kind);
    line.text(b" ");
    put_head(line, Keyword::Tree, name.as_bytes());
}

/// Puts the copy of a tree in front.
#[tactic(auto, using(crate::proofs::Padding::name_is_short))]
fn put_dup(line: &mut LineEnd, name: &[u8], copy: &Word)
    requires room { length line.old + 40 ≤ ROOM }
    requires short { length name.now ≤ 16 }
    ensures { line.new ≡ join_with_byte 32 (codes "dup" ∷ name.now ∷ copy.now ∷ []) ++ line.old }
{
    line.text(copy.as_bytes());
    line.text(b" ");
    put_head(line, Keyword::Dup, name);
}

/// Puts what a line says in front, where these trees are declared before it.
fn put_item(line: &mut LineEnd, names: &[Word], item: &Item)
    requires { length line.old + 107 ≤ ROOM }
    ensures { line.new ≡ join_with_byte 32 (item_fields names.now item.now) ++ line.old }
{
    match item {
        Item::Tree { name, kind } => put_tree(line, name, *kind),
        Item::Lane { lane } => {
            put_number(line, u64::from(*lane));
            line.text(word_of(Keyword::Lane));
        }
        Item::Join => line.text(word_of(Keyword::Join)),
        Item::Dup { from, name } => put_dup(line, name_at(names, *from), name),
        Item::Check { tree } => put_head(line, Keyword::Check, name_at(names, *tree)),
        Item::Write { tree, call } => put_call(line, name_at(names, *tree), *call),
        Item::Ask { tree, query } => put_query(line, name_at(names, *tree), *query),
        Item::Scan {
            tree,
            index,
            max,
            count,
        } => put_scan(line, name_at(names, *tree), *index, *max, *count),
    }
}

/// Adds `count` blank lines.
fn push_blanks(text: &mut Vec<u8>, count: u64) -> Result<(), AllocError>
    ensures { OnOk result (text.new.items ≡ text.old.items ++ replicate count 10) }
{
    for _blank in 0..count {
        text.push(b'\n')?;
    }
    Ok(())
}

/// Keeps the name of the tree that a line declares.
fn push_name(names: &mut Vec<Word>, item: &Item) -> Result<(), AllocError>
    ensures { OnOk result (names.new.items ≡ names_after names.old.items item.now) }
{
    if let Item::Tree { name, .. } | Item::Dup { name, .. } = item {
        names.push(*name)?;
    }
    Ok(())
}

/// Adds a line, where trees of these names are declared before it.
fn push_line(
    text: &mut Vec<u8>,
    line: &mut LineEnd,
    names: &[Word],
    item: &Item,
) -> Result<(), AllocError>
    ensures { OnOk result (text.new.items ≡ text.old.items ++ line_text names.now item.now) }
{
    line.begin();
    put_item(line, names, item);
    text.extend_from_slice(line.as_bytes())
}

/// Adds line 1, which names the version.
fn push_header(text: &mut Vec<u8>, version: u32) -> Result<(), AllocError>
    ensures { OnOk result (text.new.items ≡ text.old.items ++ (codes "mtlog " ++ (decimal version ++ 10 ∷ []))) }
{
    let mut line = LineEnd::new();
    line.begin();
    line.number(u64::from(version));
    line.text(b"mtlog ");
    text.extend_from_slice(line.as_bytes())
}

/// Adds the lines after the first.
fn push_lines(alloc: Global, text: &mut Vec<u8>, lines: &[Line]) -> Result<(), AllocError>
    ensures { OnOk result (text.new.items ≡ text.old.items ++ lines_text [] 1 lines.now) }
{
    let mut names = Vec::new(alloc);
    let mut end = LineEnd::new();
    let mut number = 1;
    for line in lines {
        push_blanks(text, line.number.saturating_sub(number).saturating_sub(1))?;
        push_line(text, &mut end, &names, &line.item)?;
        push_name(&mut names, &line.item)?;
        number = line.number;
    }
    Ok(())
}

/// The text of a log that can be read: each line at its number, blank lines between. It reads as this very log.
///
/// # Errors
///
/// `NoMemory` where memory ran out.
pub fn print_log(alloc: Global, log: &Log) -> Result<Vec<u8>, NoMemory>
    requires { IsLog log.now }
    ensures text { IfOk result (λ text. text.items ≡ log_text log.now) }
    ensures log { IfOk result (λ text. log_of text.items ≡ Ok log.now) }
{
    let lines = log.lines.as_slice();
    let mut text = Vec::with_capacity(alloc, LINE * lines.len())?;
    push_header(&mut text, log.version)?;
    push_lines(alloc, &mut text, lines)?;
    Ok(text)
}
