// No code: what the pages of `demands` rest on is in specs/: how calls move an account's line, what they keep, and what they refuse.
#![tactic(auto)]
