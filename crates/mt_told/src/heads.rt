//! The first line of a listing, at the front of a text.

ghost use Rattle.std.specs.Prelude.{◌≡◌, ◌++◌, ◌∷◌, ◌==◌, true, ℕ, List, IfNone, IfSome, position};
ghost use Rattle.mt_base.specs.declared.kinds.Kind.{Kind};
ghost use Rattle.mt_base.specs.Text.{kind_text};
ghost use Rattle.mt_log.specs.Name.{is_name};
ghost use Rattle.mt_told.specs.ListingFronts.{BeginsWithNoHead, IsHeadBefore, IsKindBefore, IsNameBefore, IsWordBefore};

use crate::{behind_word, number_before};
use mt_base::Kind;
use mt_log::Word;

/// The first line of a listing: a tree, and how many ranges it has.
#[derive(Clone, Copy)]
pub struct ListingHead {
    pub name: Word,
    pub kind: Kind,
    pub count: u64,
}

/// Where the first space is.
fn space_in(text: &[u8]) -> Option<usize>
    ensures { result ≡ position (λ byte. byte == 32) text.now }
{
    text.iter().position(|byte| *byte == b' ')
}

/// The word up to the first space, and the text after that.
#[tactic(auto, using(crate::proofs::Words::no_space))]
fn word_in_front(text: &[u8]) -> Option<(&[u8], &[u8])>
    ensures some { IfSome result (λ found. IsWordBefore text.now found.0.now found.1.now) }
    ensures none { IfNone result ((word rest : List ℕ) → text.now ≡ word ++ (32 ∷ rest) → ⊥) }
{
    let end = space_in(text)?;
    Some((&text[..end], &text[end + 1..]))
}

/// The name before the first space, and the text after both.
#[tactic(auto, using(crate::proofs::Words::name_before, crate::proofs::Words::no_name))]
fn name_before(text: &[u8]) -> Option<(Word, &[u8])>
    ensures some { IfSome result (λ found. IsNameBefore text.now found.0 found.1.now) }
    ensures none { IfNone result ((name rest : List ℕ) → is_name name ≡ true → text.now ≡ name ++ (32 ∷ rest) → ⊥) }
{
    let (word, rest) = word_in_front(text)?;
    let name = Word::new(word)?;
    Some((name, rest))
}

/// The kind whose text a word is.
#[tactic(auto, using(crate::proofs::Words::no_kind_named))]
fn kind_named(word: &[u8]) -> Option<Kind>
    ensures some { IfSome result (λ kind. word.now ≡ kind_text kind) }
    ensures none { IfNone result ((kind : Kind) → word.now ≡ kind_text kind → ⊥) }
{
    if word == b"range".as_slice() {
        return Some(Kind::Range);
    }
    if word == b"alloc".as_slice() {
        return Some(Kind::Alloc);
    }
    if word == b"range32".as_slice() {
        return Some(Kind::Range32);
    }
    if word == b"alloc32".as_slice() {
        return Some(Kind::Alloc32);
    }
    None
}

/// The kind before the first space, and the text after both.
#[tactic(auto, using(crate::proofs::Words::kind_before, crate::proofs::Words::no_kind))]
fn kind_before(text: &[u8]) -> Option<(Kind, &[u8])>
    ensures some { IfSome result (λ found. IsKindBefore text.now found.0 found.1.now) }
    ensures none { IfNone result ((kind : Kind) (rest : List ℕ) → text.now ≡ kind_text kind ++ (32 ∷ rest) → ⊥) }
{
    let (word, rest) = word_in_front(text)?;
    let kind = kind_named(word)?;
    Some((kind, rest))
}

/// The first line of a listing, if the text begins with one, and the text after it.
#[tactic(auto, using(crate::proofs::FirstLines::head_or_none))]
pub fn head_in_front(text: &[u8]) -> Option<(ListingHead, &[u8])>
    ensures some { IfSome result (λ found. IsHeadBefore text.now found.0 found.1.now) }
    ensures none { IfNone result (BeginsWithNoHead text.now) }
{
    let tree = behind_word(text, b"tree ")?;
    let Some((name, named)) = name_before(tree) else {
        return None;
    };
    let (kind, counted) = kind_before(named)?;
    let (count, rest) = number_before(counted, b'\n')?;
    Some((ListingHead { name, kind, count }, rest))
}
