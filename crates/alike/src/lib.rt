// Two books that are alike for a desk: no code, laws of what a desk is answered.
// Promise: specs/Alike.antt says which two books a desk without all fourteen regions cannot tell apart, and proofs/TwoBooks.antt that it cannot,
// by any list of its calls (`two_books`); specs/Full.antt, that a desk with all fourteen is answered as if there were no desks
// (`full_desk`), and that an answer 11 names a cell of the desk (`over_inside`).
#![tactic(auto)]
