// RFC 1321, 3.4: which of the four rounds.
#[derive(Clone, Copy)]
pub enum Round {
    First,
    Second,
    Third,
    Fourth,
}
