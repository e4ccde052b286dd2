// What document 01 means: definitions in specs/, laws about them in proofs/. The crate has no code of its own; a crate needs one function.
#![tactic(auto)]

pub fn no_code() -> u8 {
    0
}
