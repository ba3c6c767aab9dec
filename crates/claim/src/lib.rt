// Demand 3: one claim about any list of SET, PUT, OPEN, CLOSE, DROP, UNDO, ASK and CONFIRM calls, each with its desk, from a fresh book.
// Promise: specs/Claim.antt, `Demand3`, in the words that crate history reads from the calls alone; proofs/Demand3.antt, `demand3`, proves it
// for every list of calls. No code is here: the contracts of the calls, in crates codes, putting, setting and undo, name the very steps that the
// claim is about (`Trace`).
#![tactic(auto)]
