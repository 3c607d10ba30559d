#![tactic(auto)]

// The algorithms carried over from the Rust, on lists and over any arithmetic: definitions and laws, no code.
