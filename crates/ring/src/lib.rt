#![tactic(auto)]

// The theory that every later part stands on: commutative rings, finite sums, turns, lists as tables. It holds no code.
