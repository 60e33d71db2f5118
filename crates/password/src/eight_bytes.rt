// A password's eight bytes and its number, first byte most significant.
ghost use Rattle.std.specs.Prelude.{◌≡◌};
ghost use Rattle.password.specs.EightBytes.{number_of, bytes_of};

// The number that the eight bytes are.
pub fn number_of(bytes: [u8; 8]) -> u64
    ensures { result ≡ number_of bytes }
{
    u64::from_be_bytes(bytes)
}

// The eight bytes of the number.
pub fn bytes_of(p: u64) -> [u8; 8]
    ensures { result ≡ bytes_of p }
{
    p.to_be_bytes()
}
