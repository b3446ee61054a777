// Theory only: specs/ holds the theorem. There is no code.
#![tactic(auto)]
