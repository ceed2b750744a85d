// Values as they are written: `whole:N` and `reading:H`.
ghost use Rattle.std.specs.Prelude.{◌≡◌, true, length, option_map};
ghost use Rattle.std.specs.Float.Ieee.{of_bits};
ghost use Rattle.std.specs.Float.{binary32};
ghost use Rattle.model.specs.Image.{number4};
ghost use Rattle.tables.specs.View.{value_of};
ghost use Rattle.words.specs.Hex.{all_hex, pairs};
ghost use Rattle.words.specs.Values.{value_in, bits_in};

use crate::hex::{all_digits, pair_at};
use crate::numbers::long_in;
use tables::Value;

// The reading of that pattern; a NaN's bits make a NaN.
fn reading_of(bits: u32) -> f32
    ensures { result ≡ of_bits binary32 bits }
{
    if 0x7f80_0000 < bits % 0x8000_0000 {
        let top = f32::from_bits(0x7f80_0000);
        return top - top;
    }
    f32::from_bits(bits)
}

// The 32 bits that eight digits are.
fn four_pairs(s: &[u8]) -> u32
    requires { (length s.now ≡ 8) × (all_hex s.now ≡ true) }
    ensures { result ≡ number4 0 (pairs s.now) }
{
    let a = pair_at(s, 0);
    let b = pair_at(s, 2);
    let c = pair_at(s, 4);
    let d = pair_at(s, 6);
    u32::from_be_bytes([a, b, c, d])
}

fn bits_in(s: &[u8]) -> Option<u32>
    ensures { result ≡ bits_in s.now }
{
    if s.len() == 8 && all_digits(s) {
        Some(four_pairs(s))
    } else {
        None
    }
}

pub fn value_in(s: &[u8]) -> Option<Value>
    ensures { result ≡ option_map value_of (value_in s.now) }
{
    if let Some(n) = s.strip_prefix(b"whole:") {
        return long_in(n).map(Value::Whole);
    }
    let h = s.strip_prefix(b"reading:")?;
    bits_in(h).map(|bits| Value::Reading(reading_of(bits)))
}
