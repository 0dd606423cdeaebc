ghost use Rattle.std.specs.Prelude.{◌≡◌, ◌<◌, ◌^◌, [], IfOk, None, length, map, take};
ghost use Rattle.mt_log.specs.Reading.{fields_of, declared_place, tree_read, new_name_read};

use crate::cuts::cut;
use crate::faults::Why;
use crate::names::Word;
use crate::trees::{NumberedTree, Trees};
use arrayvec::ArrayVec;

/// More fields than a line of any word has.
const MOST_FIELDS: usize = 8;

/// The fields of a line, as many of them as can matter, as a list in place.
pub type Fields<'a> = ArrayVec<&'a [u8], MOST_FIELDS>;

/// Gathers the fields of a line where none are yet. There are many lines to be read, so no list of fields is moved.
pub fn gather<'a>(line: &'a [u8], fields: &mut Fields<'a>)
    requires { fields.old.items ≡ [] }
    ensures { map (λ f. f.now) fields.new.items ≡ take MOST_FIELDS (fields_of line.now) }
{
    let mut rest = line;
    while !fields.is_full() {
        let Some((field, others)) = cut(rest, b' ') else {
            fields.push(rest);
            return;
        };
        fields.push(field);
        rest = others;
    }
}

/// The tree of this name.
#[tactic(auto, unfolding(crate::specs::Reading::tree_read))]
pub fn tree_of(trees: &Trees, name: &[u8]) -> Result<NumberedTree, Why>
    requires { length trees.now < 2 ^ 32 }
    ensures tree { result ≡ tree_read trees.now name.now }
    ensures declared { IfOk result (λ tree. tree.number < length trees.now) }
{
    if let Some(tree) = trees.first_of_name(name) {
        return Ok(tree);
    }
    let name = Word::new(name).ok_or(Why::Name)?;
    trees.named(name).ok_or(Why::NoTree)
}

/// The name of a tree that is to be declared.
#[tactic(auto, unfolding(crate::specs::Reading::new_name_read))]
pub fn new_name_of(trees: &Trees, name: &[u8]) -> Result<Word, Why>
    ensures name { result ≡ new_name_read trees.now name.now }
    ensures new { IfOk result (λ name. declared_place trees.now name ≡ None) }
{
    let name = Word::new(name).ok_or(Why::Name)?;
    if trees.place_of(name).is_some() {
        return Err(Why::Twice);
    }
    Ok(name)
}
