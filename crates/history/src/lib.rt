// What is read from a list of calls alone: the sheet, the tariffs, the open and the marked codes, and what each call is answered.
// Promise: specs/History.antt says it in demand 3's words; proofs/Readings.antt, `all_steps`, proves that after any list of calls of any desks
// from a reachable book the checks read the same from the book, and that every answer is the one so read. No code is here.
#![tactic(auto)]
