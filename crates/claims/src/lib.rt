#![tactic(auto)]

// Nothing to run: what is promised of the crates below, as statements in specs/, and their proofs.
