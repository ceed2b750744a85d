// Definitions and theorems only: they stand in specs/ and proofs/. A crate has at least one function.
#![tactic(auto)]

pub fn twin() -> u8 {
    1
}
