// The lines of a card that are to be written.
ghost use Rattle.std.specs.Prelude.{◌≤◌, length};

// The first line is for the count `top`; the passwords stand in falling count, one for each line.
#[derive(Clone, Copy)]
pub struct Lines<'a> {
    pub top: u32,
    pub passwords: &'a [u64],
    ghost counted: { length passwords.now ≤ top },
}
