// No code: the account of a run, and the theorems that tie it to the table.
#![tactic(auto)]
