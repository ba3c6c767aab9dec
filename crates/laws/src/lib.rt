// General notions and laws: sums, tests of each number, lists by their index, differences of charges.
// No function and nothing of the cap is here. specs/ has what the definitions of the other crates are written in,
// proofs/ the laws that their proofs cite.
#![tactic(auto)]
