// Demand 3 for who links the library: one claim about any list of calls on an image, from a fresh one.
// Promise: no code. specs/Linked.antt says what a list of calls through the library is, each call by its own contract, and what is claimed of it;
// proofs/Demand3.antt, `demand3_linked`, proves it.
#![tactic(auto)]
