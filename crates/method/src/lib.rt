// No code: document 01's rules 2 to 5 and the rule of the marks, as definitions, and what is proved of them.
#![tactic(auto)]
