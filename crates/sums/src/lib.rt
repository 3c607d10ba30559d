#![tactic(auto)]

// Document 01 over residues: the constants, the angles, the sums, the windows. It holds no code.
