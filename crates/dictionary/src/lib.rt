// The 2,048 words of RFC 2289, Appendix D: as printed, and packed. No code: `wordlist` has the table, and searches it.
#![tactic(auto)]
