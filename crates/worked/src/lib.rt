// The paper's worked cases, computed over the definitions that the promises cite, and what the promises forbid on named inputs. There is no code
// here: see specs/.

#![tactic(auto)]
