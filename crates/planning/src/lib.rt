// What may be planned on where more of a word is read, or the ceiling is raised: this crate has definitions and laws, and no functions. Start at specs/Lib.antt.
#![tactic(auto)]
