// Document 01's worked examples: the table in specs/ and the claim that each row is right in proofs/.
#![tactic(auto)]
