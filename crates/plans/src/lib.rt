// What is promised of every plan: definitions and laws, no code.
#![tactic(auto)]
