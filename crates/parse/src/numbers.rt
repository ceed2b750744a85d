// Numbers of an image, big-endian; times in two's complement; which readings are finite.
ghost use Rattle.std.specs.Prelude.{◌≡◌, ◌+◌, ◌≤◌, length};
ghost use Rattle.std.specs.Int.{w64};
ghost use Rattle.std.proofs.Common.{to_z};
ghost use Rattle.model.specs.Refusals.{finite};
ghost use Rattle.model.specs.Image.{number2, number4, number8};

pub fn read2(s: &[u8], at: usize) -> u16
    requires { at + 2 ≤ length s.now }
    ensures { result ≡ number2 at s.now }
{
    u16::from_be_bytes([s[at], s[at + 1]])
}

pub fn read4(s: &[u8], at: usize) -> u32
    requires { at + 4 ≤ length s.now }
    ensures { result ≡ number4 at s.now }
{
    u32::from_be_bytes([s[at], s[at + 1], s[at + 2], s[at + 3]])
}

pub fn read8(s: &[u8], at: usize) -> u64
    requires { at + 8 ≤ length s.now }
    ensures { result ≡ number8 at s.now }
{
    u64::from_be_bytes([
        s[at],
        s[at + 1],
        s[at + 2],
        s[at + 3],
        s[at + 4],
        s[at + 5],
        s[at + 6],
        s[at + 7],
    ])
}

// The time that 64 bits stand for: those from 2^63 on are below 0.
pub fn time_of(n: u64) -> i64
    ensures { result ≡ to_z w64 n }
{
    n.cast_signed()
}

// No NaN and no infinity.
pub fn is_finite(x: f32) -> bool
    ensures { result ≡ finite x }
{
    x.is_finite()
}
