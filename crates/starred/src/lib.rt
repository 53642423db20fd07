#![tactic(auto)]

// The maps of document 01 that are proved: a table in specs/, computed in proofs/. There is no code here.
