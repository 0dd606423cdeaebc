use crate::names::Word;
use indexmap::IndexMap;
use mt_base::Kind;
use std::alloc::{AllocError, Global};
use std::marker::Model;

/// A declared tree, with what later lines need of it.
#[derive(Clone, Copy)]
pub struct KnownTree {
    pub name: Word,
    pub kind: Kind,
}

impl KnownTree {
    ghost use Rattle.std.specs.Prelude.{◌≡◌};
    ghost use Rattle.mt_log.specs.Trees.{renamed};

    /// A copy of it under another name.
    pub fn renamed(&self, name: Word) -> KnownTree
        ensures { result ≡ renamed name self.now }
    {
        KnownTree {
            name,
            kind: self.kind,
        }
    }
}

/// A declared tree by its number.
#[derive(Clone, Copy)]
pub struct NumberedTree {
    pub number: u32,
    pub kind: Kind,
}

/// The declared trees, numbered from 0 in the order of their lines, each of a name of its own.
#[derive(Drop)]
pub struct Trees {
    kinds: IndexMap<Word, Kind>,
}

impl Model for Trees {
    ghost use Rattle.std.specs.Prelude.{List, map};
    ghost use Rattle.mt_log.specs.Indexed.{known};
    ghost use Rattle.mt_log.specs.declared.trees.KnownTree.{KnownTree};

    ghost Value = { List KnownTree };

    ghost view = { λ t. map known t.kinds.entries };
}

impl Trees {
    ghost use Rattle.std.specs.Prelude.{◌≡◌, ◌++◌, ◌∷◌, ◌<◌, ◌^◌, [], false, None, Ok, IfSome, IfNone, OnOk, length, slice_get, option_and_then};
    ghost use Rattle.std.specs.Str.{bytes_eq};
    ghost use Rattle.mt_log.specs.Reading.{declared_place, tree_at, tree_read};

    /// No trees.
    pub fn new(alloc: Global) -> Self
        ensures { result ≡ [] }
    {
        Trees {
            kinds: IndexMap::new(alloc),
        }
    }

    /// How many there are.
    #[tactic(auto, using(crate::proofs::Indexed::as_many))]
    pub fn len(&self) -> usize
        ensures { result ≡ length self.now }
    {
        self.kinds.len()
    }

    /// The first tree, where this is its name. Most logs have one tree, which is found so without the table.
    #[tactic(auto, using(crate::proofs::Indexed::known_at, crate::proofs::Indexed::first_of_name))]
    pub fn first_of_name(&self, name: &[u8]) -> Option<NumberedTree>
        ensures tree { IfSome result (λ tree. tree_read self.now name.now ≡ Ok tree) }
        ensures declared { IfSome result (λ tree. tree.number < length self.now) }
        ensures other { IfNone result (IfSome (slice_get self.now 0) (λ tree. bytes_eq tree.name name.now ≡ false)) }
    {
        let (first, kind) = self.kinds.get_index(0)?;
        if first.as_bytes() == name {
            let kind = *kind;
            return Some(NumberedTree { number: 0, kind });
        }
        None
    }

    /// The number of the tree of this name.
    #[tactic(auto, using(crate::proofs::Indexed::names_of_known, crate::proofs::Indexed::as_many))]
    pub fn place_of(&self, name: Word) -> Option<usize>
        ensures place { result ≡ declared_place self.now name }
        ensures declared { IfSome result (λ place. place < length self.now) }
    {
        self.kinds.get_index_of(&name)
    }

    /// The tree of this number.
    #[tactic(auto, using(crate::proofs::Indexed::known_at))]
    pub fn get(&self, number: usize) -> Option<KnownTree>
        ensures { result ≡ slice_get self.now number }
    {
        let (name, kind) = self.kinds.get_index(number)?;
        Some(KnownTree {
            name: *name,
            kind: *kind,
        })
    }

    /// The tree of this name.
    pub fn named(&self, name: Word) -> Option<NumberedTree>
        requires { length self.now < 2 ^ 32 }
        ensures tree { result ≡ option_and_then (tree_at self.now) (declared_place self.now name) }
        ensures declared { IfSome result (λ tree. tree.number < length self.now) }
    {
        let place = self.place_of(name)?;
        let tree = self.get(place)?;
        Some(NumberedTree {
            number: place as u32,
            kind: tree.kind,
        })
    }

    /// Declares one more tree.
    #[tactic(auto, using(crate::proofs::Indexed::one_more))]
    pub fn push(&mut self, tree: KnownTree) -> Result<(), AllocError>
        requires new { declared_place self.old tree.name ≡ None }
        ensures { OnOk result (self.new ≡ self.old ++ tree ∷ []) }
    {
        self.kinds.insert(tree.name, tree.kind)?;
        Ok(())
    }
}
