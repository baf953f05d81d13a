// No code: exact fractions and their laws, for the account.
#![tactic(auto)]
