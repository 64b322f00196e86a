// The user's demands, proved of the rules in specs. No code stands here.
#![tactic(auto)]
