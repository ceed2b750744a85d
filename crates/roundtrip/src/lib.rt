// Theorems only: they stand in proofs/. A crate has at least one function.
#![tactic(auto)]

pub fn roundtrip() -> u8 {
    1
}
