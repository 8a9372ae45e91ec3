// Bytes: decimals, the parts of a line, keys and values. Every function takes every slice.
#![tactic(auto)]

ghost use Rattle.std.specs.Prelude.{◌≡◌, ◌+◌, ◌≤◌, [], ◌∷◌, min, length, drop};
ghost use Rattle.text.specs.Decimal.{goes_on, number_of};
ghost use Rattle.text.specs.Line.{before, starts as starts_with, value_of, fields_of};

// What the bytes are as a decimal: digits, a zero only where it stands alone, and below 2^32.
#[tactic(auto, using(crate::specs::Laws::number_none, crate::specs::Laws::number_zero, crate::specs::Laws::number_one, crate::specs::Laws::number_many))]
pub fn decimal(s: &[u8]) -> Option<u32>
    ensures { result ≡ number_of s.now }
{
    match s {
        [] | [b'0', _, ..] => None,
        _ => from_digits(s),
    }
}

// The number that the bytes are, digit by digit from the first, by hand: the library's `parse` takes a plus sign and wants a
// `str`.
fn from_digits(s: &[u8]) -> Option<u32>
    ensures { result ≡ goes_on 0 s.now }
{
    let mut v = 0;
    for b in s {
        v = with_digit(v, *b)?;
    }
    Some(v)
}

// The number that a digit takes v on to, where the byte is a digit and the number is below 2^32. Ten times a number below
// 2^32 fits in 64 bits.
#[tactic(auto, unfolding(crate::specs::Decimal::goes_on))]
pub fn with_digit(v: u32, b: u8) -> Option<u32>
    ensures { result ≡ goes_on v (b ∷ []) }
{
    if !b.is_ascii_digit() {
        return None;
    }
    let w = u64::from(v) * 10 + u64::from(b - b'0');
    u32::try_from(w).ok()
}

// Where the first byte b at or after `at` stands: the length where there is none, or where `at` is past the end.
pub fn upto(s: &[u8], at: usize, b: u8) -> usize
    ensures { (result ≡ min at (length s.now) + before b (drop at s.now)) × (result ≤ length s.now) }
{
    let Some(rest) = s.get(at..) else {
        return s.len();
    };
    at + rest.iter().position(|x| *x == b).unwrap_or(rest.len())
}

// Does the line start with the key?
#[tactic(auto, using(crate::proofs::Steps::starts_is))]
pub fn starts(s: &[u8], key: &[u8]) -> bool
    ensures { result ≡ starts_with key.now s.now }
{
    s.starts_with(key)
}

// The value of a line that is the key and one decimal.
#[tactic(auto, using(crate::specs::Laws::prefix_is), unfolding(crate::specs::Line::value_of))]
pub fn value(s: &[u8], key: &[u8]) -> Option<u32>
    ensures { result ≡ value_of key.now s.now }
{
    decimal(s.strip_prefix(key)?)
}

// The values of seven decimals with commas between them and nothing else.
pub fn seven(s: &[u8]) -> Option<[u32; 7]>
    ensures { result ≡ fields_of s.now }
{
    let mut values = [0; 7];
    let mut parts = s.split(|b| *b == b',');
    for v in values.iter_mut() {
        *v = decimal(parts.next()?)?;
    }
    match parts.next() {
        Some(_) => None,
        None => Some(values),
    }
}
