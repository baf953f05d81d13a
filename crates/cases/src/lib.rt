// No code: document 01's bench cases, computed from the definitions of `share`.
#![tactic(auto)]
