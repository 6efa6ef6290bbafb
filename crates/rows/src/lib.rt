// Maps as rows in the order of their keys: definitions and laws, once over what a row holds besides its key. No code.
#![tactic(auto)]
