//! By what a store can be carried out.

ghost use Rattle.std.specs.Prelude.{◌≡◌, ◌≢◌, ◌≤◌, Some};
ghost use Rattle.mt_engine.specs.StoreBy.{IsDoneBy};

use mt_path::Handle;
use mt_splice::Edit;

/// By what a store can be carried out: by no word, by one word in a slot, or by new nodes.
#[derive(Clone, Copy, Debug, PartialEq, Eq)]
pub enum StoreBy {
    NoWord,
    OneWord { at: Handle },
    NewRows,
}

/// A store as it is planned: what is stored, and by what it is carried out.
#[derive(Clone, Copy, Debug, PartialEq, Eq)]
pub struct Write {
    pub edit: Edit,
    pub by: StoreBy,
}

/// How a store can be carried out if there is something at its first index.
fn store_by_at(here: Handle, edit: &Edit) -> StoreBy
    ensures { IsDoneBy (Some here) edit.now.first edit.now.last edit.now.entry result }
{
    let span = here.span;
    let Edit { first, last, entry } = *edit;
    if entry == 0 && span.word == 0 && last <= span.last {
        return StoreBy::NoWord;
    }
    if entry != 0 && span.word != 0 && span.first == first && span.last == last {
        return StoreBy::OneWord { at: here };
    }
    StoreBy::NewRows
}

/// How a store can be carried out, depending on what is at its first index; the empty tree has nothing there.
pub fn store_by(here: Option<Handle>, edit: &Edit) -> StoreBy
    ensures { IsDoneBy here edit.now.first edit.now.last edit.now.entry result }
{
    match here {
        Some(handle) => store_by_at(handle, edit),
        None => {
            if edit.entry == 0 {
                StoreBy::NoWord
            } else {
                StoreBy::NewRows
            }
        }
    }
}
