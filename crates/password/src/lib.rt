// What a pass-phrase, a seed, an algorithm and a password are. Document 01, 'From pass-phrase to password'; document 02, R-1.
#![tactic(auto)]

// What a pass-phrase and a seed may be, refusals 10 and 11, 23 and 24; and the seed in lower case.
pub mod phrase_and_seed;
// A password's eight bytes and its number, first byte most significant.
pub mod eight_bytes;
// The algorithms that passwords are made with, and their numbers.
pub mod algorithm;
// The names of the algorithms, read and written.
pub mod algorithm_names;
