// The history of a book: definitions in specs/, theorems in proofs/. No code.
#![tactic(auto)]
