// Definitions only: what the editor means stands in specs/. A crate has at least one function.
#![tactic(auto)]

pub fn model() -> u8 {
    1
}
