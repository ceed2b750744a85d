// Laws only: they stand in proofs/. A crate has at least one function.
#![tactic(auto)]

pub fn thin() -> u8 {
    1
}
