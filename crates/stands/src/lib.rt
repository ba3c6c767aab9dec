// Exactly which books some list of calls leaves from a fresh book.
// Promise: specs/Stands.antt says it of a book alone, and proofs/Exactly.antt, `reachable_exactly`, proves that it is so. No code is here. What
// the layer above may use: proofs/Kept.antt, `reachable_stands`, and proofs/InForce.antt, what the calls that read the book know of it.
#![tactic(auto)]
