// Fidelity: no code. What the calls that write and read lookups promise, each promise a type of its own in specs/, proved in proofs/.

#![tactic(auto)]
