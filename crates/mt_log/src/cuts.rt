ghost use Rattle.std.specs.Prelude.{◌≡◌, ◌∷◌, ◌==◌, ◌<◌, ◌+◌, [], position, length, IfSome, MatchOption};
ghost use Rattle.std.specs.List.{slice_split};

use memchr::memchr;

fn place(bytes: &[u8], at: u8) -> Option<usize>
    ensures { result ≡ position (λ b. b == at) bytes.now }
{
    bytes.iter().position(|b| *b == at)
}

/// What is before the first byte `at` and what is after it, if there is one.
#[tactic(auto, using(crate::proofs::Parts::cut_once, crate::proofs::Parts::cut_never))]
pub fn cut(bytes: &[u8], at: u8) -> Option<(&[u8], &[u8])>
    ensures parts { MatchOption result
        (slice_split (λ b. b == at) bytes.now ≡ bytes.now ∷ [])
        (λ p. slice_split (λ b. b == at) bytes.now ≡ p.0.now ∷ slice_split (λ b. b == at) p.1.now) }
    ensures shorter { IfSome result (λ p. length p.1.now < length bytes.now) }
{
    let place = place(bytes, at)?;
    Some((&bytes[..place], &bytes[place + 1..]))
}

/// Where the first LF is. It may be far away.
#[tactic(auto, using(crate::proofs::Parts::first_place))]
fn line_end(bytes: &[u8]) -> Option<usize>
    ensures { result ≡ position (λ b. b == 10) bytes.now }
{
    memchr(b'\n', bytes)
}

/// What is before the first LF and what is after it, if there is one.
#[tactic(auto, using(crate::proofs::Parts::cut_once, crate::proofs::Parts::cut_never))]
pub fn cut_line(bytes: &[u8]) -> Option<(&[u8], &[u8])>
    ensures parts { MatchOption result
        (slice_split (λ b. b == 10) bytes.now ≡ bytes.now ∷ [])
        (λ p. slice_split (λ b. b == 10) bytes.now ≡ p.0.now ∷ slice_split (λ b. b == 10) p.1.now) }
    ensures shorter { IfSome result (λ p. length p.1.now < length bytes.now) }
{
    let end = line_end(bytes)?;
    Some((&bytes[..end], &bytes[end + 1..]))
}
