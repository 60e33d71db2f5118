// No code: the letter's demands as theorems over the definitions of the other crates are in specs/.
#![tactic(auto)]
