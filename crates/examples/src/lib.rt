//! Examples of the definitions: published vectors, worked rows, and the edges of each rule, evaluated by the definitions
//! themselves. The crate has no functions; its proofs are the examples.
#![tactic(auto)]
