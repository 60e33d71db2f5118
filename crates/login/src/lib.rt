// The login table's eight calls, by the names of document 01, 'Table, ports and turns', and of document 02, R-7. A table goes in by value and comes
// back beside the answer. The offer of a renewal is lent the accounts' older seeds too: 3,808 bytes that a controller keeps with its table and changes in
// no other way. The modules are public so that `determined` can speak of the calls' promises.
#![tactic(auto)]

// Enrol and Remove.
pub mod enrolling;
// Join.
pub mod joining;
// Leave.
pub mod leaving;
// Tick.
pub mod ticking;

pub use crate::enrolling::{enrol, remove};
pub use crate::joining::join;
pub use crate::leaving::leave;
pub use crate::ticking::tick;
pub use turns::{challenge, offer, offer_renewal};
