// Joining is the same whenever it is done: one statement over the calls on a server and on clients, and its proof. No
// code.
#![tactic(auto)]
