// The demands hold no code: specs/ states them and proofs/ proves them.
#![tactic(auto)]
