// Demands: no code. What the calls promise together, each promise a type of its own in specs/, proved in proofs/.

#![tactic(auto)]
