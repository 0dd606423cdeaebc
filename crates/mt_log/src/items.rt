ghost use Rattle.std.specs.Prelude.{◌≡◌, ◌<◌, ◌^◌, ◌∷◌, [], ℕ, IfOk, length, map};
ghost use Rattle.std.specs.Result.{result_map_both};
ghost use Rattle.mt_base.specs.declared.calls.Call.{Call};
ghost use Rattle.mt_base.specs.declared.calls.Query.{Query};
ghost use Rattle.mt_log.specs.declared.lines.Item.{Item};
ghost use Rattle.mt_log.specs.declared.lines.Item.TheVariants as items;
ghost use Rattle.mt_log.specs.Reading.{range_item, area_of, area_item, area_entry_item, index_item, bound_item, scan_item, whole_item, item_by, item_of};
ghost use Rattle.mt_log.specs.Reader.{MayFollow};

use crate::areas::Area;
use crate::between_phases::{check_item, dup_item, lane_in, nothing_in, tree_item};
use crate::faults::Why;
use crate::fields::tree_of;
use crate::keywords::{Keyword, keyword_of, words};
use crate::lines::Item;
use crate::numbers::{count_of, entry_number_of, index_of, size_of};
use crate::reader::Reader;
use crate::trees::Trees;
use mt_base::{Call, Query, Range};

#[tactic(auto, unfolding(crate::specs::Reading::range_item))]
fn range_in(
    trees: &Trees,
    name: &[u8],
    first: &[u8],
    last: &[u8],
    entry: &[u8],
) -> Result<(u32, Range), Why>
    requires { length trees.now < 2 ^ 32 }
    ensures item { (call : ℕ → ℕ → ℕ → Call) → range_item call trees.now (name.now ∷ first.now ∷ last.now ∷ entry.now ∷ [])
        ≡ result_map_both (λ p. items.Write p.0 (call p.1.first p.1.last p.1.entry)) (λ why. why) result }
    ensures declared { IfOk result (λ p. p.0 < length trees.now) }
{
    let tree = tree_of(trees, name)?;
    let first = index_of(first, tree.kind)?;
    let last = index_of(last, tree.kind)?;
    let entry = entry_number_of(entry)?;
    Ok((tree.number, Range { first, last, entry }))
}

/// The tree, the range and the entry of a line.
#[tactic(auto, unfolding(crate::specs::Reading::range_item))]
fn range_of(trees: &Trees, fields: &[&[u8]]) -> Result<(u32, Range), Why>
    requires { length trees.now < 2 ^ 32 }
    ensures item { (call : ℕ → ℕ → ℕ → Call) → range_item call trees.now (map (λ f. f.now) fields.now)
        ≡ result_map_both (λ p. items.Write p.0 (call p.1.first p.1.last p.1.entry)) (λ why. why) result }
    ensures declared { IfOk result (λ p. p.0 < length trees.now) }
{
    match fields {
        &[name, first, last, entry] => range_in(trees, name, first, last, entry),
        _ => Err(Why::Fields),
    }
}

#[tactic(auto, unfolding(crate::specs::Reading::area_of))]
fn area_of(trees: &Trees, name: &[u8], size: &[u8], min: &[u8], max: &[u8]) -> Result<Area, Why>
    requires { length trees.now < 2 ^ 32 }
    ensures area { result ≡ area_of trees.now name.now size.now min.now max.now }
    ensures declared { IfOk result (λ area. area.tree < length trees.now) }
{
    let tree = tree_of(trees, name)?;
    let size = size_of(size)?;
    let min = index_of(min, tree.kind)?;
    let max = index_of(max, tree.kind)?;
    Ok(Area {
        tree: tree.number,
        size,
        min,
        max,
    })
}

/// The tree of a line, how many indexes, and where they may lie.
#[tactic(auto, unfolding(crate::specs::Reading::area_item))]
fn area_in(trees: &Trees, fields: &[&[u8]]) -> Result<Area, Why>
    requires { length trees.now < 2 ^ 32 }
    ensures item { (call : ℕ → ℕ → ℕ → Call)
        → area_item call trees.now (map (λ f. f.now) fields.now) ≡ result_map_both (λ a. items.Write a.tree (call a.size a.min a.max)) (λ why. why) result }
    ensures declared { IfOk result (λ area. area.tree < length trees.now) }
{
    match fields {
        &[name, size, min, max] => area_of(trees, name, size, min, max),
        _ => Err(Why::Fields),
    }
}

#[tactic(auto, unfolding(crate::specs::Reading::area_entry_item))]
fn entered_area(
    trees: &Trees,
    name: &[u8],
    size: &[u8],
    min: &[u8],
    max: &[u8],
    entry: &[u8],
) -> Result<(Area, u64), Why>
    requires { length trees.now < 2 ^ 32 }
    ensures item { (call : ℕ → ℕ → ℕ → ℕ → Call)
        → area_entry_item call trees.now (name.now ∷ size.now ∷ min.now ∷ max.now ∷ entry.now ∷ [])
        ≡ result_map_both (λ p. items.Write p.0.tree (call p.0.size p.0.min p.0.max p.1)) (λ why. why) result }
    ensures declared { IfOk result (λ p. p.0.tree < length trees.now) }
{
    let area = area_of(trees, name, size, min, max)?;
    let entry = entry_number_of(entry)?;
    Ok((area, entry))
}

/// The tree of a line, how many indexes, where they may lie, and the entry.
#[tactic(auto, unfolding(crate::specs::Reading::area_entry_item))]
fn area_and_entry(trees: &Trees, fields: &[&[u8]]) -> Result<(Area, u64), Why>
    requires { length trees.now < 2 ^ 32 }
    ensures item { (call : ℕ → ℕ → ℕ → ℕ → Call) → area_entry_item call trees.now (map (λ f. f.now) fields.now)
        ≡ result_map_both (λ p. items.Write p.0.tree (call p.0.size p.0.min p.0.max p.1)) (λ why. why) result }
    ensures declared { IfOk result (λ p. p.0.tree < length trees.now) }
{
    match fields {
        &[name, size, min, max, entry] => entered_area(trees, name, size, min, max, entry),
        _ => Err(Why::Fields),
    }
}

#[tactic(auto, unfolding(crate::specs::Reading::index_item))]
fn index_in(trees: &Trees, name: &[u8], index: &[u8]) -> Result<(u32, u64), Why>
    requires { length trees.now < 2 ^ 32 }
    ensures item { (item : ℕ → ℕ → Item) → index_item item trees.now (name.now ∷ index.now ∷ []) ≡ result_map_both (λ p. item p.0 p.1) (λ why. why) result }
    ensures declared { IfOk result (λ p. p.0 < length trees.now) }
{
    let tree = tree_of(trees, name)?;
    let index = index_of(index, tree.kind)?;
    Ok((tree.number, index))
}

/// The tree and the index of a line.
#[tactic(auto, unfolding(crate::specs::Reading::index_item))]
fn tree_and_index(trees: &Trees, fields: &[&[u8]]) -> Result<(u32, u64), Why>
    requires { length trees.now < 2 ^ 32 }
    ensures item { (item : ℕ → ℕ → Item) → index_item item trees.now (map (λ f. f.now) fields.now) ≡ result_map_both (λ p. item p.0 p.1) (λ why. why) result }
    ensures declared { IfOk result (λ p. p.0 < length trees.now) }
{
    match fields {
        &[name, index] => index_in(trees, name, index),
        _ => Err(Why::Fields),
    }
}

#[tactic(auto, unfolding(crate::specs::Reading::bound_item))]
fn bound_in(trees: &Trees, name: &[u8], index: &[u8], bound: &[u8]) -> Result<(u32, u64, u64), Why>
    requires { length trees.now < 2 ^ 32 }
    ensures item { (query : ℕ → ℕ → Query)
        → bound_item query trees.now (name.now ∷ index.now ∷ bound.now ∷ []) ≡ result_map_both (λ p. items.Ask p.0 (query p.1 p.2)) (λ why. why) result }
    ensures declared { IfOk result (λ p. p.0 < length trees.now) }
{
    let tree = tree_of(trees, name)?;
    let index = index_of(index, tree.kind)?;
    let bound = index_of(bound, tree.kind)?;
    Ok((tree.number, index, bound))
}

/// The tree of a line, its index and its bound.
#[tactic(auto, unfolding(crate::specs::Reading::bound_item))]
fn tree_and_bound(trees: &Trees, fields: &[&[u8]]) -> Result<(u32, u64, u64), Why>
    requires { length trees.now < 2 ^ 32 }
    ensures item { (query : ℕ → ℕ → Query)
        → bound_item query trees.now (map (λ f. f.now) fields.now) ≡ result_map_both (λ p. items.Ask p.0 (query p.1 p.2)) (λ why. why) result }
    ensures declared { IfOk result (λ p. p.0 < length trees.now) }
{
    match fields {
        &[name, index, bound] => bound_in(trees, name, index, bound),
        _ => Err(Why::Fields),
    }
}

#[tactic(auto, unfolding(crate::specs::Reading::scan_item))]
fn scan_in(
    reader: &Reader,
    name: &[u8],
    index: &[u8],
    max: &[u8],
    count: &[u8],
) -> Result<Item, Why>
    requires { length reader.now.trees < 2 ^ 32 }
    ensures item { result ≡ scan_item reader.now (name.now ∷ index.now ∷ max.now ∷ count.now ∷ []) }
    ensures follows { IfOk result (MayFollow reader.now) }
{
    let tree = tree_of(reader.trees(), name)?;
    let index = index_of(index, tree.kind)?;
    let max = index_of(max, tree.kind)?;
    let count = count_of(count)?;
    reader.room_for_scan(count)?;
    Ok(Item::Scan {
        tree: tree.number,
        index,
        max,
        count,
    })
}

/// A scan.
#[tactic(auto, unfolding(crate::specs::Reading::scan_item))]
fn scan_item(reader: &Reader, fields: &[&[u8]]) -> Result<Item, Why>
    requires { length reader.now.trees < 2 ^ 32 }
    ensures item { result ≡ scan_item reader.now (map (λ f. f.now) fields.now) }
    ensures follows { IfOk result (MayFollow reader.now) }
{
    match fields {
        &[name, index, max, count] => scan_in(reader, name, index, max, count),
        _ => Err(Why::Fields),
    }
}

#[tactic(auto, unfolding(crate::specs::Reading::whole_item))]
fn whole_in(trees: &Trees, name: &[u8]) -> Result<u32, Why>
    requires { length trees.now < 2 ^ 32 }
    ensures item { (item : ℕ → Item) → whole_item item trees.now (name.now ∷ []) ≡ result_map_both item (λ why. why) result }
    ensures declared { IfOk result (λ tree. tree < length trees.now) }
{
    let tree = tree_of(trees, name)?;
    Ok(tree.number)
}

/// The tree of a line that names it alone.
#[tactic(auto, unfolding(crate::specs::Reading::whole_item))]
fn whole_tree(trees: &Trees, fields: &[&[u8]]) -> Result<u32, Why>
    requires { length trees.now < 2 ^ 32 }
    ensures item { (item : ℕ → Item) → whole_item item trees.now (map (λ f. f.now) fields.now) ≡ result_map_both item (λ why. why) result }
    ensures declared { IfOk result (λ tree. tree < length trees.now) }
{
    match fields {
        &[name] => whole_in(trees, name),
        _ => Err(Why::Fields),
    }
}

/// What a line of this form says.
macro_rules! said_as {
    (declaration; $reader:ident, $trees:ident, $fields:ident) => {
        tree_item($reader, $fields)
    };
    (copy; $reader:ident, $trees:ident, $fields:ident) => {
        dup_item($reader, $fields)
    };
    (check; $reader:ident, $trees:ident, $fields:ident) => {
        check_item($reader, $fields)
    };
    (lane; $reader:ident, $trees:ident, $fields:ident) => {{
        let lane = lane_in($fields)?;
        Ok(Item::Lane { lane })
    }};
    (join; $reader:ident, $trees:ident, $fields:ident) => {{
        nothing_in($fields)?;
        Ok(Item::Join)
    }};
    (range_call $call:ident; $reader:ident, $trees:ident, $fields:ident) => {{
        let (tree, Range { first, last, entry }) = range_of($trees, $fields)?;
        let call = Call::$call { first, last, entry };
        Ok(Item::Write { tree, call })
    }};
    (area_call $call:ident; $reader:ident, $trees:ident, $fields:ident) => {{
        let Area {
            tree,
            size,
            min,
            max,
        } = area_in($trees, $fields)?;
        let call = Call::$call { size, min, max };
        Ok(Item::Write { tree, call })
    }};
    (area_entry_call $call:ident; $reader:ident, $trees:ident, $fields:ident) => {{
        let (area, entry) = area_and_entry($trees, $fields)?;
        let Area {
            tree,
            size,
            min,
            max,
        } = area;
        let call = Call::$call {
            size,
            min,
            max,
            entry,
        };
        Ok(Item::Write { tree, call })
    }};
    (index_call $call:ident; $reader:ident, $trees:ident, $fields:ident) => {{
        let (tree, index) = tree_and_index($trees, $fields)?;
        let call = Call::$call { index };
        Ok(Item::Write { tree, call })
    }};
    (whole_call $call:ident; $reader:ident, $trees:ident, $fields:ident) => {{
        let tree = whole_tree($trees, $fields)?;
        let call = Call::$call;
        Ok(Item::Write { tree, call })
    }};
    (index_query $query:ident; $reader:ident, $trees:ident, $fields:ident) => {{
        let (tree, index) = tree_and_index($trees, $fields)?;
        let query = Query::$query { index };
        Ok(Item::Ask { tree, query })
    }};
    (bound_query $query:ident $bound:ident; $reader:ident, $trees:ident, $fields:ident) => {{
        let (tree, index, $bound) = tree_and_bound($trees, $fields)?;
        let query = Query::$query { index, $bound };
        Ok(Item::Ask { tree, query })
    }};
    (scan; $reader:ident, $trees:ident, $fields:ident) => {
        scan_item($reader, $fields)
    };
}

/// What a line says, by the row of its keyword in the table of words.
macro_rules! item_in {
    ($keyword:ident, $reader:ident, $trees:ident, $fields:ident, $($text:literal $name:ident $form:ident($($part:ident)*)),*) => {
        match $keyword {
            $(Keyword::$name => said_as!($form $($part)*; $reader, $trees, $fields),)*
        }
    };
}

#[tactic(auto, unfolding(crate::specs::Reading::item_by))]
fn item_by(keyword: Keyword, reader: &Reader, fields: &[&[u8]]) -> Result<Item, Why>
    requires { length reader.now.trees < 2 ^ 32 }
    ensures item { result ≡ item_by keyword reader.now (map (λ f. f.now) fields.now) }
    ensures follows { IfOk result (MayFollow reader.now) }
{
    let trees = reader.trees();
    words!(item_in, keyword, reader, trees, fields)
}

/// What the fields of a line say, after what was read.
#[tactic(auto, unfolding(crate::specs::Reading::item_of))]
pub fn item_of(reader: &Reader, fields: &[&[u8]]) -> Result<Item, Why>
    requires { length reader.now.trees < 2 ^ 32 }
    ensures item { result ≡ item_of reader.now (map (λ f. f.now) fields.now) }
    ensures follows { IfOk result (MayFollow reader.now) }
{
    let [word, fields @ ..] = fields else {
        return Err(Why::Unknown);
    };
    let keyword = keyword_of(word)?;
    item_by(keyword, reader, fields)
}
