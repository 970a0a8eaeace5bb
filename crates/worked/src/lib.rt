// The floors a to i of docs/RULES.md, section 18, as one proved statement: specs/Floors.antt has the numbers and the
// statement, proofs/Worked.antt the proof. proofs/Sights.antt has worked sight questions, proofs/Example.antt the
// example of the program, and proofs/Packed.antt that a packed floor answers as the byte floor with the same cells.
// There is no code here.
#![tactic(auto)]
