// Tiling: no code. What stretching promises of copies and of where tiles stand, each promise a type of its own in specs/, proved in proofs/.

#![tactic(auto)]
