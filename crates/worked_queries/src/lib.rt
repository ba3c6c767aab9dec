// What the queries and TRIAL tell of worked books, and their refusals, proved on the definitions (proofs/Queried.antt, proofs/Tried.antt).
#![tactic(auto)]
