#![tactic(auto)]

// What is written and read again is unchanged: the statements are in specs/, the proofs in proofs/. There is no code here.
