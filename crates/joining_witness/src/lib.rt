// What joining supposes is met by a session that is written out here, and each supposition is needed. Everything is
// computed. No code.
#![tactic(auto)]
