// The customer's three demands and the requests after them, as theorems: specs/Demands.antt has the statements, to be
// read as one page, and proofs/ their proofs. There is no code here.
#![tactic(auto)]
