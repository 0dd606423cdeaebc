ghost use Rattle.std.specs.Prelude.{◌≡◌};
ghost use Rattle.std.specs.Char.{is_ascii_digit};
ghost use Rattle.std.specs.List.{list_all};
ghost use Rattle.mt_cli.specs.Numbers.{is_number, number_in};

/// Whether a word is decimal digits alone.
fn is_digits(word: &str) -> bool
    ensures { result ≡ list_all is_ascii_digit word.now }
{
    word.bytes().all(|byte| byte.is_ascii_digit())
}

/// Whether a word is 1 to 20 decimal digits and nothing else.
fn is_number(word: &str) -> bool
    ensures { result ≡ is_number word.now }
{
    is_digits(word) && !word.is_empty() && word.len() <= 20
}

/// The number that a word writes, if it lies in the range.
#[tactic(auto, using(crate::proofs::Digits::unread))]
pub fn number_in(word: &str, least: u64, most: u64) -> Option<u64>
    ensures { result ≡ number_in least most word.now }
{
    if !is_number(word) {
        return None;
    }
    let number = word.parse::<u64>().ok()?;
    (least <= number && number <= most).then_some(number)
}
