// No code: judging accepts a sheet exactly if it is the flat form of a voice, and that voice is the one that it reads as.
#![tactic(auto)]
