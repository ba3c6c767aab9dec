// The reference sheet of document 01 and its starred verdicts, proved as one table about the definitions (proofs/Table.antt).
#![tactic(auto)]
