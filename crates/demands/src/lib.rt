// Theorems about the rules and about what the detector's calls promise. The statements are in specs/ and the proofs in
// proofs/. There is no code here, and no other crate uses this one.
#![tactic(auto)]
