// The decoder as mathematics: this crate has definitions and laws, and no functions. Start at specs/Lib.antt.
#![tactic(auto)]
