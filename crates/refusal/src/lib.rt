// The refusals of document 01, 'Refusal numbers', and of document 02, and the answers that several crates give over them.
#![tactic(auto)]

ghost use Rattle.std.specs.Prelude.{◌≡◌};
ghost use Rattle.refusal.specs.Numbers.{listing_of};

// What is wrong, in the order of the paper's table. The paper's number stands beside each.
#[derive(Clone, Copy, Debug, PartialEq, Eq)]
pub enum Refusal {
    PhraseShort, // 10
    PhraseLong, // 11
    InputLong, // 12
    CountHigh, // 13
    OpeningWrong, // 20
    AlgorithmUnknown, // 21
    CountUnread, // 22
    SeedLength, // 23
    SeedCharacter, // 24
    SeedUnended, // 25
    ReplyLong, // 30
    WordUnknown { marks: u8 }, // 31, with the marks, 1 to 63: 1 for the first word, 2 for the second, up to 32
    PairSumWrong, // 32
    ReplyUnread, // 33
    TypeUnknown, // 34
    PartsWrong, // 35
    BufferShort, // 40
    IdZero, // 50
    CountOutside, // 51
    IdTaken, // 52
    TableFull, // 53
    AccountMissing, // 54
    PortUnknown, // 55
    PortInLine, // 56
    PortShut, // 57
    AccountUsedUp, // 58
    PortNotInLine, // 59
    PortNotInFront, // 60
    ReplyWrong, // 61
    ReplyWrongThird, // 62
    SeedSame, // 63
    LinesOutside, // 70
}

// Nothing wrong, or what is.
pub type Checked = Result<(), Refusal>;

// A password as a number, first byte most significant, or why there is none.
pub type Reading = Result<u64, Refusal>;

// How many bytes stand at the front of the lent buffer, or why none were written.
pub type Written = Result<usize, Refusal>;

// A refusal as the papers list it: its number, then the marks that 31 carries (0 with every other).
#[derive(Clone, Copy)]
pub struct Listing(pub u32, pub u32);

pub fn listing_of(refusal: Refusal) -> Listing
    ensures { result ≡ listing_of refusal }
{
    match refusal {
        Refusal::PhraseShort => Listing(10, 0),
        Refusal::PhraseLong => Listing(11, 0),
        Refusal::InputLong => Listing(12, 0),
        Refusal::CountHigh => Listing(13, 0),
        Refusal::OpeningWrong => Listing(20, 0),
        Refusal::AlgorithmUnknown => Listing(21, 0),
        Refusal::CountUnread => Listing(22, 0),
        Refusal::SeedLength => Listing(23, 0),
        Refusal::SeedCharacter => Listing(24, 0),
        Refusal::SeedUnended => Listing(25, 0),
        Refusal::ReplyLong => Listing(30, 0),
        Refusal::WordUnknown { marks } => Listing(31, marks as u32),
        Refusal::PairSumWrong => Listing(32, 0),
        Refusal::ReplyUnread => Listing(33, 0),
        Refusal::TypeUnknown => Listing(34, 0),
        Refusal::PartsWrong => Listing(35, 0),
        Refusal::BufferShort => Listing(40, 0),
        Refusal::IdZero => Listing(50, 0),
        Refusal::CountOutside => Listing(51, 0),
        Refusal::IdTaken => Listing(52, 0),
        Refusal::TableFull => Listing(53, 0),
        Refusal::AccountMissing => Listing(54, 0),
        Refusal::PortUnknown => Listing(55, 0),
        Refusal::PortInLine => Listing(56, 0),
        Refusal::PortShut => Listing(57, 0),
        Refusal::AccountUsedUp => Listing(58, 0),
        Refusal::PortNotInLine => Listing(59, 0),
        Refusal::PortNotInFront => Listing(60, 0),
        Refusal::ReplyWrong => Listing(61, 0),
        Refusal::ReplyWrongThird => Listing(62, 0),
        Refusal::SeedSame => Listing(63, 0),
        Refusal::LinesOutside => Listing(70, 0),
    }
}
