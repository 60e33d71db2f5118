// A reply's text read, plain or extended, and extended ones written. RFC 2243; document 02, R-6 and R-7.
#![tactic(auto)]

// The four types, by name and by number, and what goes by the type.
mod reply_types;
// The parts between colons.
mod parts;
// The new values of a renewal: algorithm, count and seed.
mod parameters;
// What a text is read to, and the seed of a renewal as the part of its text.
pub mod reply_texts;
// A renewal's new values and password, to be written.
mod renewal;
// An extended reply written, and the number that its writer takes for a type.
pub mod reply_writer;
