// Worked lists of calls that are refused, each by one thing that is wrong, proved on the definitions (proofs/Refused.antt).
#![tactic(auto)]
