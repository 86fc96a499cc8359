// Assurance: no code. What the fallback plan promises, each promise a type of its own in specs/, proved in proofs/.

#![tactic(auto)]
