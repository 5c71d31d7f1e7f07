// Parts of a row of bytes.
ghost use Rattle.std.specs.Prelude.{◌≡◌, ℕ, ◌+◌, ◌<◌, ◌≤◌, Bool, false, length, take, drop, MatchOption};
ghost use Rattle.std.specs.List.{prefix_len};
ghost use Rattle.programme.specs.Rows.{trim_front, trim_end, trimmed, is_blank, without_return, unquoted, field, outside, slash_at};

// The longest front of `s` whose bytes pass the test, and what stands behind it.
pub(crate) fn split_while<F: Fn(u8) -> bool>(s: &[u8], passes: F) -> (&[u8], &[u8])
    requires { F.IsAlwaysCallable passes }
    ensures { (p : ℕ → Bool) → ((b : ℕ) (r : Bool) → F.post passes b r → r ≡ p b) → (result.0.now ≡ take (prefix_len p s.now) s.now) × (result.1.now ≡ drop (prefix_len p s.now) s.now) }
{
    let n = s.iter().take_while(|b| passes(**b)).count();
    s.split_at(n)
}

pub(crate) fn is_blank(s: &[u8]) -> bool
    ensures { result ≡ is_blank s.now }
{
    s.iter().all(|b| *b == b' ')
}

fn trim_front(s: &[u8]) -> &[u8]
    ensures { result.now ≡ trim_front s.now }
{
    split_while(s, |b| b == b' ').1
}

fn trim_end(s: &[u8]) -> &[u8]
    ensures { result.now ≡ trim_end s.now }
{
    let spaces = s.iter().rev().take_while(|b| **b == b' ').count();
    &s[..s.len() - spaces]
}

// Spaces only: trim_ascii drops tabs too.
pub(crate) fn trim(s: &[u8]) -> &[u8]
    ensures { result.now ≡ trimmed s.now }
{
    trim_end(trim_front(s))
}

pub(crate) fn without_return(s: &[u8]) -> &[u8]
    ensures { result.now ≡ without_return s.now }
{
    match s {
        [line @ .., b'\r'] => line,
        _ => s,
    }
}

fn unquote(s: &[u8]) -> &[u8]
    ensures { result.now ≡ unquoted s.now }
{
    match s {
        [b'"', inner @ .., b'"'] => inner,
        _ => s,
    }
}

// A field without the spaces and the quotes around it.
pub(crate) fn field_in(s: &[u8]) -> &[u8]
    ensures { result.now ≡ field s.now }
{
    unquote(trim(s))
}

// The parts before and behind the first `b` outside quotes.
pub(crate) fn split_outside_quotes(s: &[u8], b: u8) -> Option<(&[u8], &[u8])>
    ensures { let n = outside b false s.now in MatchOption result (n ≡ length s.now) (λ p. (n < length s.now) × (p.0.now ≡ take n s.now) × (p.1.now ≡ drop (n + 1) s.now)) }
{
    let mut quoted = false;
    for (at, x) in s.iter().enumerate() {
        if *x == b && !quoted {
            return Some((&s[..at], &s[at + 1..]));
        }
        quoted ^= *x == b'"';
    }
    None
}

// Where the first slash between two spaces begins.
fn slash_position(s: &[u8]) -> Option<usize>
    ensures { MatchOption result (slash_at s.now ≡ length s.now) (λ at. (at ≡ slash_at s.now) × (at + 3 ≤ length s.now)) }
{
    s.windows(3).position(|w| w == b" / ".as_slice())
}

// The parts before and behind the first slash between two spaces.
pub(crate) fn split_slash(s: &[u8]) -> Option<(&[u8], &[u8])>
    ensures { let n = slash_at s.now in MatchOption result (n ≡ length s.now) (λ p. (p.0.now ≡ take n s.now) × (p.1.now ≡ drop (n + 3) s.now)) }
{
    let at = slash_position(s)?;
    Some((&s[..at], &s[at + 3..]))
}
