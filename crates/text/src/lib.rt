// Texts as bytes: read, and put at the front of a lent buffer.
#![tactic(auto)]

// The kinds of bytes that document 01 names, and a letter's lower case.
pub mod kinds;
// What is read from a text: how far bytes of one kind go, whether two texts are the same, and what a digit stands for.
pub mod scan;
// What is put at the front of a lent buffer: a text, and a number in digits.
pub mod put;
// A count as a text: one to four digits without a leading zero. Document 01, 'Challenges'.
pub mod counts;
