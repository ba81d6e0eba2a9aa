// What the promises of the operations come to. There is no code here: see specs/.

#![tactic(auto)]
