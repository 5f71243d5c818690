// Document 01's starred cases: the table stands in specs/Cases.antt, the theorem that checks it in proofs/Checked.antt.

#![tactic(auto)]
