// The words of a digest as bytes at the front of a buffer, in either byte order.
ghost use Rattle.std.specs.Prelude.{◌≡◌, ◌≤◌, ◌++◌, length};
ghost use Rattle.digests.specs.Words32.{bytes4};
ghost use Rattle.text.specs.Put.{Put};

use digests::Order;

// A word's four bytes.
fn bytes(order: Order, x: u32) -> [u8; 4]
    ensures { result ≡ bytes4 order x }
{
    match order {
        Order::Little => x.to_le_bytes(),
        Order::Big => x.to_be_bytes(),
    }
}

// A word at the front of the buffer.
pub fn word(order: Order, buf: &mut [u8], x: u32) -> usize
    requires { 4 ≤ length buf.old }
    ensures { Put (bytes4 order x) buf.old buf.new result }
{
    let b = bytes(order, x);
    text::put::copy(buf, &b)
}

// Two words at the front of the buffer.
pub fn two_words(order: Order, buf: &mut [u8], x: u32, y: u32) -> usize
    requires { 8 ≤ length buf.old }
    ensures { Put (bytes4 order x ++ bytes4 order y) buf.old buf.new result }
{
    let a = word(order, buf, x);
    a + word(order, &mut buf[a..], y)
}
