// The setup image there and back holds no code: proofs/ has that what image_write writes is what image_read reads.
#![tactic(auto)]
