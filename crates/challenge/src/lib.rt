// Challenges, read and written. Document 01, 'Challenges'; document 02, R-1 and R-6.
#![tactic(auto)]

// A place in a challenge, and what is read from there.
mod place;
// What a challenge says, and its seed as a part of it.
pub mod reading;
// A challenge for an algorithm, a seed and a count: single spaces, the seed in lower case, the mark `ext` or none, a newline.
pub mod writing;
