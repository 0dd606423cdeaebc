//! The lines that are no steps: those that the program does itself before the steps of a phase, and those that part the steps.

ghost use Rattle.std.specs.Prelude.{◌≡◌, ◌<◌, ◌^◌, ◌∷◌, [], IfOk, length, map};
ghost use Rattle.std.specs.Result.{result_map_both};
ghost use Rattle.mt_log.specs.declared.lines.Item.TheVariants as items;
ghost use Rattle.mt_log.specs.Reading.{tree_item, dup_item, check_item, lane_item, join_item};
ghost use Rattle.mt_log.specs.Reader.{MayFollow};
ghost use Rattle.mt_base.specs.Limits.{most_lanes};

use crate::faults::Why;
use crate::fields::{new_name_of, tree_of};
use crate::kinds::kind_of;
use crate::lines::Item;
use crate::numbers::lane_number_of;
use crate::reader::Reader;

#[tactic(auto, unfolding(crate::specs::Reading::tree_item))]
fn declaration(reader: &Reader, name: &[u8], kind: &[u8]) -> Result<Item, Why>
    ensures item { result ≡ tree_item reader.now (name.now ∷ kind.now ∷ []) }
    ensures follows { IfOk result (MayFollow reader.now) }
{
    let name = new_name_of(reader.trees(), name)?;
    let kind = kind_of(kind)?;
    reader.before_steps()?;
    reader.room_for_tree()?;
    Ok(Item::Tree { name, kind })
}

/// The declaration of a tree.
#[tactic(auto, unfolding(crate::specs::Reading::tree_item))]
pub fn tree_item(reader: &Reader, fields: &[&[u8]]) -> Result<Item, Why>
    ensures item { result ≡ tree_item reader.now (map (λ f. f.now) fields.now) }
    ensures follows { IfOk result (MayFollow reader.now) }
{
    match fields {
        &[name, kind] => declaration(reader, name, kind),
        _ => Err(Why::Fields),
    }
}

#[tactic(auto, unfolding(crate::specs::Reading::dup_item))]
fn copy(reader: &Reader, name: &[u8], copy: &[u8]) -> Result<Item, Why>
    requires { length reader.now.trees < 2 ^ 32 }
    ensures item { result ≡ dup_item reader.now (name.now ∷ copy.now ∷ []) }
    ensures follows { IfOk result (MayFollow reader.now) }
{
    let tree = tree_of(reader.trees(), name)?;
    let name = new_name_of(reader.trees(), copy)?;
    reader.before_steps()?;
    reader.room_for_tree()?;
    Ok(Item::Dup {
        from: tree.number,
        name,
    })
}

/// The copy of a tree under another name.
#[tactic(auto, unfolding(crate::specs::Reading::dup_item))]
pub fn dup_item(reader: &Reader, fields: &[&[u8]]) -> Result<Item, Why>
    requires { length reader.now.trees < 2 ^ 32 }
    ensures item { result ≡ dup_item reader.now (map (λ f. f.now) fields.now) }
    ensures follows { IfOk result (MayFollow reader.now) }
{
    match fields {
        &[name, new_name] => copy(reader, name, new_name),
        _ => Err(Why::Fields),
    }
}

#[tactic(auto, unfolding(crate::specs::Reading::check_item))]
fn check(reader: &Reader, name: &[u8]) -> Result<Item, Why>
    requires { length reader.now.trees < 2 ^ 32 }
    ensures item { result ≡ check_item reader.now (name.now ∷ []) }
    ensures follows { IfOk result (MayFollow reader.now) }
{
    let tree = tree_of(reader.trees(), name)?;
    reader.before_steps()?;
    Ok(Item::Check { tree: tree.number })
}

/// The check of a tree.
#[tactic(auto, unfolding(crate::specs::Reading::check_item))]
pub fn check_item(reader: &Reader, fields: &[&[u8]]) -> Result<Item, Why>
    requires { length reader.now.trees < 2 ^ 32 }
    ensures item { result ≡ check_item reader.now (map (λ f. f.now) fields.now) }
    ensures follows { IfOk result (MayFollow reader.now) }
{
    match fields {
        &[name] => check(reader, name),
        _ => Err(Why::Fields),
    }
}

/// The lane of a line that names it alone.
#[tactic(auto, unfolding(crate::specs::Reading::lane_item))]
pub fn lane_in(fields: &[&[u8]]) -> Result<u32, Why>
    ensures item { lane_item (map (λ f. f.now) fields.now) ≡ result_map_both items.Lane (λ why. why) result }
    ensures within { IfOk result (λ lane. lane < most_lanes) }
{
    match fields {
        &[lane] => lane_number_of(lane),
        _ => Err(Why::Fields),
    }
}

/// Whether a line is its word alone.
#[tactic(auto, unfolding(crate::specs::Reading::join_item))]
pub fn nothing_in(fields: &[&[u8]]) -> Result<(), Why>
    ensures { join_item (map (λ f. f.now) fields.now) ≡ result_map_both (λ _. items.Join) (λ why. why) result }
{
    match fields {
        [] => Ok(()),
        _ => Err(Why::Fields),
    }
}
