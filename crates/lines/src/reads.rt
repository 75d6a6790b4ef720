// Lines and their numbers, read from bytes.
ghost use Rattle.std.specs.Prelude.{◌≡◌, ℕ, ◌+◌, ◌^◌, ◌<◌, ◌≤◌, List, [], ◌∷◌, ◌++◌, length, take, drop, decimal, Decides, MatchOption, ◌≢◌};
ghost use Rattle.std.specs.List.{AllByRecursion};
ghost use Rattle.lines.specs.Format.{Digit, Ends, Plain, read_on, more, written, Values, Without};
ghost use Rattle.lines.specs.Held.{held};

use super::numbers::Fields;

// How many digits stand at the front of the text.
fn digit_count(text: &[u8]) -> usize
    ensures within { result ≤ length text.now }
    ensures digits { AllByRecursion Digit (take result text.now) }
    ensures stops { Ends (drop result text.now) }
{
    text.iter()
        .position(|b| !b.is_ascii_digit())
        .unwrap_or(text.len())
}

// Whether the digits are those of a number below 10^14, as it is printed.
fn is_plain(digits: &[u8]) -> bool
    ensures { Decides result (Plain digits.now) }
{
    match digits {
        [] => false,
        [b'0', _, ..] => false,
        _ => digits.len() <= 14,
    }
}

// The number that the digits write.
fn value_of(digits: &[u8]) -> u64
    requires few { length digits.now ≤ 14 }
    requires digits { AllByRecursion Digit digits.now }
    ensures { result ≡ read_on 0 digits.now }
{
    let mut n: u64 = 0;
    for d in digits {
        n = n * 10 + u64::from(*d - b'0');
    }
    n
}

// The number below 10^14 that the text begins with, and what follows its digits.
fn number(text: &[u8]) -> Option<(u64, &[u8])>
    ensures { MatchOption result
        ((n : ℕ) (rest : List ℕ) → n < 10 ^ 14 → Ends rest → text.now ≢ decimal n ++ rest)
        (λ p. (p.0 < 10 ^ 14) × Ends p.1.now × (text.now ≡ decimal p.0 ++ p.1.now)) }
{
    let (digits, rest) = text.split_at(digit_count(text));
    if !is_plain(digits) {
        return None;
    }
    Some((value_of(digits), rest))
}

// The numbers that follow, each after one blank, put behind those read so far.
fn following(text: &[u8], so_far: Fields) -> Option<Fields>
    ensures { MatchOption result
        ((ns : List ℕ) → Values ns → length (held so_far) + length ns ≤ 16 → text.now ≢ more ns)
        (λ f. (ns : List ℕ) × Values ns × (held f ≡ held so_far ++ ns) × (text.now ≡ more ns)) }
{
    match text {
        [] => Some(so_far),
        [b' ', after @ ..] => {
            let (value, rest) = number(after)?;
            following(rest, so_far.and(value)?)
        }
        _ => None,
    }
}

// The numbers of a line, from 1 to 16 of them.
pub fn fields(line: &[u8]) -> Option<Fields>
    ensures { MatchOption result
        ((ns : List ℕ) → Values ns → 1 ≤ length ns → length ns ≤ 16 → line.now ≢ written ns)
        (λ f. Values (held f) × (1 ≤ length (held f)) × (line.now ≡ written (held f))) }
{
    let (value, rest) = number(line)?;
    following(rest, Fields::none().and(value)?)
}

// The first line, without its end, and the lines after it; None where no line ends.
pub fn first_line(text: &[u8]) -> Option<(&[u8], &[u8])>
    ensures { MatchOption result
        (Without 10 text.now)
        (λ p. (text.now ≡ p.0.now ++ 10 ∷ p.1.now) × Without 10 p.0.now) }
{
    let end = text.iter().position(|b| *b == b'\n')?;
    Some((&text[..end], &text[end + 1..]))
}
