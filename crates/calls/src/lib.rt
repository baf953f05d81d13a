// No code: what the calls of `share` come to, in theorems that no function's proof needs.
#![tactic(auto)]
