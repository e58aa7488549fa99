// The paper's worked lines as one table, with no code: see specs/Table.antt.
#![tactic(auto)]
