//! The parts of the input, and what the words ask for.

ghost use Rattle.std.specs.Prelude.{◌≡◌, ◌≤◌, ◌++◌, ◌∷◌, [], ℕ, codes, IfNone, IfSome, map, string_bytes};
ghost use Rattle.mt_base.specs.Width.{most_rows};
ghost use Rattle.mt_judge.specs.Words.{AskRows, WritesRows};

use mt_base::MOST_ROWS;
use mt_told::behind_word;

/// What is before the first line that is `---`, and what is after it. LF ends the line.
pub fn cut(bytes: &[u8]) -> Option<(&[u8], &[u8])>
    ensures { IfSome result (λ parts. bytes.now ≡ parts.0.now ++ (codes "---\n" ++ parts.1.now)) }
{
    let mut begins = true;
    for at in 0..bytes.len() {
        if begins {
            if let Some(text) = behind_word(&bytes[at..], b"---\n") {
                return Some((&bytes[..at], text));
            }
        }
        begins = bytes[at] == b'\n';
    }
    None
}

/// The number of nodes that a word writes, if a tree may have that many.
fn rows_word(word: &str) -> Option<u64>
    ensures some { IfSome result (WritesRows word.now) }
    ensures none { IfNone result ((rows : ℕ) → WritesRows word.now rows → ⊥) }
{
    let rows = word.parse::<u64>().ok()?;
    (4 <= rows && rows <= MOST_ROWS).then_some(rows)
}

/// The number of nodes after `--rows`.
fn rows_said(option: &str, word: &str) -> Option<u64>
    ensures some { IfSome result (AskRows (option.now ∷ word.now ∷ [])) }
    ensures none { IfNone result ((rows : ℕ) → AskRows (option.now ∷ word.now ∷ []) rows → ⊥) }
{
    if option != "--rows" {
        return None;
    }
    rows_word(word)
}

/// How many nodes each tree has, by the words: nothing, or `--rows` and a number from 4 to 65,504.
pub fn rows_of(words: &[String]) -> Option<u64>
    ensures some { IfSome result (AskRows (map string_bytes words.now)) }
    ensures none { IfNone result ((rows : ℕ) → AskRows (map string_bytes words.now) rows → ⊥) }
    ensures few { IfSome result (λ rows. 4 ≤ rows) }
    ensures most { IfSome result (λ rows. rows ≤ most_rows) }
{
    match words {
        [] => Some(MOST_ROWS),
        [option, word] => rows_said(option.as_str(), word.as_str()),
        _ => None,
    }
}
