// What follows from the rules: laws of the definitions in rules/specs. No code.
#![tactic(auto)]
