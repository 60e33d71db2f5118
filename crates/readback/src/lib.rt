// No code: that what is written reads back, and what each refusal means, as theorems over the definitions of other crates, are in specs/.
#![tactic(auto)]
