ghost use Rattle.std.specs.Prelude.{◌≡◌, ◌<◌, ◌≤◌, ◌^◌, ◌==◌, ◌&&◌, true, false, None, Some, IfSome, MatchOption, drop, length};
ghost use Rattle.std.specs.List.{filter};
ghost use Rattle.mt_program.specs.Parts.{is_cut, line_behind, parts_at_cut};

/// What is after the line that cuts, if a line begins here and is that one.
fn behind_cut(begins: bool, bytes: &[u8]) -> Option<&[u8]>
    ensures { MatchOption result ((begins && is_cut bytes.now) ≡ false)
        (λ rest. (begins ≡ true) × (is_cut bytes.now ≡ true) × (rest.now ≡ drop 4 bytes.now)) }
{
    if !begins {
        return None;
    }
    bytes.strip_prefix(b"---\n".as_slice())
}

/// What is before the first line that is `---`, and what is after it, if there is one. LF ends the line.
#[tactic(auto, using(crate::proofs::CutLines::cutting))]
pub fn cut(bytes: &[u8]) -> Option<(&[u8], &[u8])>
    ensures parts { MatchOption result (parts_at_cut bytes.now ≡ None) (λ parts. parts_at_cut bytes.now ≡ Some (parts.0.now, parts.1.now)) }
    ensures within { IfSome result (λ parts. (length parts.0.now ≤ length bytes.now) × (length parts.1.now ≤ length bytes.now)) }
{
    let mut begins = true;
    for at in 0..bytes.len() {
        match behind_cut(begins, &bytes[at..]) {
            Some(text) => return Some((&bytes[..at], text)),
            None => begins = bytes[at] == b'\n',
        }
    }
    None
}

fn is_line_end(byte: &u8) -> bool
    ensures { result ≡ (byte.now == 10) }
{
    *byte == b'\n'
}

/// How many lines are ended.
fn line_ends(bytes: &[u8]) -> u64
    ensures ends { result ≡ length (filter (λ byte. byte == 10) bytes.now) }
    ensures few { result ≤ length bytes.now }
{
    bytes.iter().filter(|byte| is_line_end(byte)).count() as u64
}

/// The number of the line after all that are ended.
pub fn line_behind(bytes: &[u8]) -> u64
    requires { length bytes.now < 2 ^ 32 }
    ensures { result ≡ line_behind bytes.now }
{
    line_ends(bytes) + 1
}
