// Theory only: specs/ holds the definitions and the theorems. There is no code.
#![tactic(auto)]
