// The refusals, each named once for all code (document 01, the table). specs/Refusals.antt gives the paper's number of each.
#![tactic(auto)]

ghost use Rattle.std.specs.Prelude.{◌≡◌};
ghost use Rattle.refusals.specs.Refusals.{refusal_number, Decodes};

// Why a call was refused.
#[derive(Clone, Copy, Debug, PartialEq, Eq)]
pub enum Refusal {
    // The receiver's.
    BadEscape = 1,
    EscapeBeforeFlag = 2,
    TooLong = 3,
    TooShort = 4,
    WrongCheck = 5,
    Room = 6,
    // Writers'.
    BodyLength = 7,
    OutputLength = 8,
    // Those of messages of the UCP line.
    UnknownId = 10,
    MessageLength = 11,
    Fixed = 12,
    Field = 13,
    // MAVLink's.
    MavlinkShort = 20,
    MavlinkStart = 21,
    MavlinkUnknownId = 22,
    MavlinkLength = 23,
    MavlinkWrongCheck = 24,
    MavlinkField = 25,
}

impl Refusal {
    // The paper's number.
    pub fn number(self) -> u8
        ensures { result ≡ refusal_number self }
    {
        self as u8
    }
}

// A number that no refusal has.
#[derive(Clone, Copy, Debug, PartialEq, Eq)]
pub struct UnknownRefusal(pub u8);

impl TryFrom<u8> for Refusal {
    type Error = UnknownRefusal;

    ghost try_from_gives = { Decodes };

    fn try_from(number: u8) -> Result<Refusal, UnknownRefusal> {
        match number {
            1 => Ok(Refusal::BadEscape),
            2 => Ok(Refusal::EscapeBeforeFlag),
            3 => Ok(Refusal::TooLong),
            4 => Ok(Refusal::TooShort),
            5 => Ok(Refusal::WrongCheck),
            6 => Ok(Refusal::Room),
            7 => Ok(Refusal::BodyLength),
            8 => Ok(Refusal::OutputLength),
            10 => Ok(Refusal::UnknownId),
            11 => Ok(Refusal::MessageLength),
            12 => Ok(Refusal::Fixed),
            13 => Ok(Refusal::Field),
            20 => Ok(Refusal::MavlinkShort),
            21 => Ok(Refusal::MavlinkStart),
            22 => Ok(Refusal::MavlinkUnknownId),
            23 => Ok(Refusal::MavlinkLength),
            24 => Ok(Refusal::MavlinkWrongCheck),
            25 => Ok(Refusal::MavlinkField),
            _ => Err(UnknownRefusal(number)),
        }
    }
}
