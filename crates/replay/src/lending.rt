// What a writer is lent: the first bytes of a buffer that is filled with one byte.
use crate::printing::written;
use refusal::Written;
use std::io;

const FILL: u8 = 0xaa;

// Whether no byte of it was changed.
pub fn is_untouched(lent: &[u8]) -> bool {
    lent.iter().all(|b| *b == FILL)
}

// Answers by a writer, which is lent that many bytes, of 8,192 at most.
pub fn writer<F: FnOnce(&mut [u8]) -> Written>(
    to: io::Stdout,
    room: usize,
    write: F,
) -> io::Result<()>
    requires { F.IsAlwaysCallable write }
{
    let mut buf = [FILL; 8192];
    let lent = &mut buf[..room.min(8192)];
    let result = write(lent);
    written(to, result, lent)
}
