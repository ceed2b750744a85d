// Numbers as they are written: decimal, with any number of leading zeros, and times with a minus before one below 0.
ghost use Rattle.std.specs.Prelude.{◌≡◌, [], ◌∷◌, ◌≤◌};
ghost use Rattle.words.specs.Numbers.{scan, decimal, up_to, minus, time_in};

// The number with one digit more, where b is one and the number is at most max.
fn more(n: u64, b: u8, max: u64) -> Option<u64>
    ensures { result ≡ up_to max (scan n (b ∷ [])) }
{
    if b < b'0' || b'9' < b {
        return None;
    }
    let grown = n.checked_mul(10)?.checked_add(u64::from(b - b'0'))?;
    if grown <= max { Some(grown) } else { None }
}

// The number that the word is, where it is one and at most max; no number of digits makes it wrap.
#[tactic(auto, using(crate::proofs::Decimals::loop_stop))]
pub fn number_in(s: &[u8], max: u64) -> Option<u64>
    ensures { result ≡ up_to max (decimal s.now) }
{
    if s.is_empty() {
        return None;
    }
    let mut n = 0;
    for b in s {
        n = more(n, *b, max)?;
    }
    Some(n)
}

// The next three are not one generic function: only a trait, with an impl for each type, could name the bound that each clause has.
pub fn byte_in(s: &[u8]) -> Option<u8>
    ensures { result ≡ up_to 255 (decimal s.now) }
{
    number_in(s, 255).map(|n| n as u8)
}

pub fn short_in(s: &[u8]) -> Option<u16>
    ensures { result ≡ up_to 65535 (decimal s.now) }
{
    number_in(s, 65535).map(|n| n as u16)
}

pub fn long_in(s: &[u8]) -> Option<u32>
    ensures { result ≡ up_to 4294967295 (decimal s.now) }
{
    number_in(s, 4294967295).map(|n| n as u32)
}

// The time so many seconds before 0.
fn before_zero(n: u64) -> i64
    requires { n ≤ 9223372036854775808 }
    ensures { result ≡ minus n }
{
    if n == 0 {
        return 0;
    }
    let k = (n - 1) as i64;
    !k
}

// The time that the word is: signed 64 bits.
pub fn time_in(s: &[u8]) -> Option<i64>
    ensures { result ≡ time_in s.now }
{
    if let Some(size) = s.strip_prefix(b"-") {
        return number_in(size, 9223372036854775808).map(before_zero);
    }
    number_in(s, 9223372036854775807).map(|n| n as i64)
}
