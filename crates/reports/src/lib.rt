#![tactic(auto)]

// The session stays right under every list of reports, and a preview and its report cannot part: the statements are in
// specs/, the proofs in proofs/. There is no code here.
