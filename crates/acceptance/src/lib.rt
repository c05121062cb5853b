// Statements about the definitions of all crates: the marked examples of document 01 (specs/Examples.antt), and condition 2 over all formats (specs/Conditions.antt). proofs/ proves them.
#![tactic(auto)]
