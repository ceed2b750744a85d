// Bytes in hex: two digits to a byte, lower or upper case, `-` for no bytes.
ghost use Rattle.std.specs.Prelude.{◌≡◌, true, ◌+◌, ◌*◌, ◌<◌, ◌≤◌, length, option_map};
ghost use Rattle.words.specs.Hex.{is_hex, nibble, pair_at, all_hex, pairs, hex_in, within, onto};

fn is_digit(b: u8) -> bool
    ensures { result ≡ is_hex b }
{
    matches!(b, b'0'..=b'9' | b'a'..=b'f' | b'A'..=b'F')
}

// What a digit stands for.
fn worth(b: u8) -> u8
    requires { is_hex b ≡ true }
    ensures { (result ≡ nibble b) × (result < 16) }
{
    match b {
        b'0'..=b'9' => b - b'0',
        b'A'..=b'F' => b - b'A' + 10,
        _ => b - b'a' + 10,
    }
}

pub fn all_digits(s: &[u8]) -> bool
    ensures { result ≡ all_hex s.now }
{
    s.iter().all(|b| is_digit(*b))
}

// The byte that the two digits from `at` on are.
pub fn pair_at(s: &[u8], at: usize) -> u8
    requires { (at + 2 ≤ length s.now) × (all_hex s.now ≡ true) }
    ensures { result ≡ pair_at at s.now }
{
    worth(s[at]) * 16 + worth(s[at + 1])
}

fn put_pairs(s: &[u8], out: &mut [u8])
    requires { (length s.now ≡ 2 * length out.old) × (all_hex s.now ≡ true) }
    ensures { out.new ≡ pairs s.now }
{
    for (i, to) in out.iter_mut().enumerate() {
        *to = pair_at(s, 2 * i);
    }
}

// The bytes that the word is, at the front of out; out stays as it was where it is none or there is no room.
pub fn hex_in(s: &[u8], out: &mut [u8]) -> Option<usize>
    ensures { (result ≡ option_map length (within (length out.old) (hex_in s.now)))
        × (out.new ≡ onto out.old (within (length out.old) (hex_in s.now))) }
{
    if s == b"-".as_slice() {
        return Some(0);
    }
    if s.len() % 2 != 0 || !all_digits(s) {
        return None;
    }
    let n = s.len() / 2;
    if out.len() < n {
        return None;
    }
    put_pairs(s, &mut out[..n]);
    Some(n)
}
