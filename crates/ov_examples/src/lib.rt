//! Worked examples of the definitions: requests with their replies, texts with their values, schemas with their answers.
//! Each is a theorem in `proofs`. The crate has no functions, and nothing depends on it.
#![tactic(auto)]
