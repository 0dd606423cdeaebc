//! What is asked for.

ghost use Rattle.std.specs.Prelude.{◌≡◌, map, string_bytes};
ghost use Rattle.mt_draw.specs.Asked as defined;

/// What is written of a tree.
#[derive(Clone, Copy)]
pub enum PictureForm {
    /// How the program is used.
    Help,
    /// The picture of the nodes.
    Rows,
    /// The nodes as the kernel prints them.
    Text,
    /// The picture of the ranges.
    Ranges,
}

/// How the program is used.
pub const HELP: &str = "usage: mt_draw [--text | --ranges] < IMAGE
Reads the image of a tree. Writes its rows as SVG, boxes or, of more than 200 rows, a map of levels.
--ranges: its ranges along a line, as SVG.
--text: its rows as the kernel's mt_dump prints them, with decimal indexes; where that differs:
  names stand for addresses: a row is at 256 * its number, the tree at 0, and parents are told by parent words;
  flags tell height and kind alone; the last slot of a row holds no metadata, which is reckoned where it is printed;
  narrow trees are printed as by a kernel of 32 bits.
";

/// What a single word asks for.
fn form_of_word(word: &str) -> Option<PictureForm>
    ensures { result ≡ defined.form_of_word word.now }
{
    match word {
        "--help" => Some(PictureForm::Help),
        "--text" => Some(PictureForm::Text),
        "--ranges" => Some(PictureForm::Ranges),
        _ => None,
    }
}

/// What the words ask for.
pub fn form_of(words: &[String]) -> Option<PictureForm>
    ensures { result ≡ defined.form_asked (map string_bytes words.now) }
{
    match words {
        [] => Some(PictureForm::Rows),
        [word] => form_of_word(word.as_str()),
        _ => None,
    }
}
