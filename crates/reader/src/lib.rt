// Theory only: specs/ checks the numbers of docs/READER.md. There is no code.
#![tactic(auto)]
