// The types of an extended reply: their names and numbers, whether one is a renewal's, and how it gives passwords.
ghost use Rattle.std.specs.Prelude.{◌≡◌};
ghost use Rattle.extended.specs.ReplyTypes as spec;

use text::scan::same;

// How a password is given, as sixteen hex digits or as six words, and whether new values and a new password come with it: a renewal.
#[derive(Clone, Copy)]
pub enum ReplyType {
    Hex,
    Word,
    InitHex,
    InitWord,
}

const TYPES: [ReplyType; 4] = [
    ReplyType::Hex,
    ReplyType::Word,
    ReplyType::InitHex,
    ReplyType::InitWord,
];

impl ReplyType {
    pub fn name(self) -> &'static [u8]
        ensures { result.now ≡ spec.type_name self }
    {
        match self {
            ReplyType::Hex => b"hex",
            ReplyType::Word => b"word",
            ReplyType::InitHex => b"init-hex",
            ReplyType::InitWord => b"init-word",
        }
    }

    pub fn number(self) -> u32
        ensures { result ≡ spec.type_number self }
    {
        match self {
            ReplyType::Hex => 1,
            ReplyType::Word => 2,
            ReplyType::InitHex => 3,
            ReplyType::InitWord => 4,
        }
    }

    // Whether it is a renewal.
    pub fn is_init(self) -> bool
        ensures { result ≡ spec.is_init self }
    {
        matches!(self, ReplyType::InitHex | ReplyType::InitWord)
    }

    // Whether passwords are given in hex; in words else.
    pub fn is_hex(self) -> bool
        ensures { result ≡ spec.is_hex self }
    {
        matches!(self, ReplyType::Hex | ReplyType::InitHex)
    }
}

// The type with that name, in lower case and whole, if it is one.
pub fn read_type(name: &[u8]) -> Option<ReplyType>
    ensures { result ≡ spec.typed name.now }
{
    for kind in TYPES {
        if same(name, kind.name()) {
            return Some(kind);
        }
    }
    None
}

// The type of that number, if it is one.
pub fn type_numbered(number: u32) -> Option<ReplyType>
    ensures { result ≡ spec.type_numbered number }
{
    for kind in TYPES {
        if number == kind.number() {
            return Some(kind);
        }
    }
    None
}
