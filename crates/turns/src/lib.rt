#![tactic(auto)]

// The eight turnings and mirrorings of an array: the definitions are in specs/, the laws in proofs/. There is no code here.
