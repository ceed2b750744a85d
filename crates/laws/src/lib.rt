// Laws only: the definitions and proofs of this crate stand in specs/ and proofs/. A crate has at least one function.
#![tactic(auto)]

pub fn laws() -> u8 {
    1
}
