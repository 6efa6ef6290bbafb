// Both sides of each edge of the rules, W2 to W15: one table, one statement, and its proof. No code.
#![tactic(auto)]
