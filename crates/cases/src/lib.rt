// The starred cases of document 01 as one table with one proved statement: see specs/Table.antt and proofs/Starred.antt. There is no code here.
#![tactic(auto)]
