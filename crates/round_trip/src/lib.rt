// What one end writes the other reads: one statement over both ends, and its proof. No code.
#![tactic(auto)]
