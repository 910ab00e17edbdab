// No function: this crate is its definitions (specs/) and the theorems about them (proofs/).
#![tactic(auto)]
