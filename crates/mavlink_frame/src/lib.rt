// MAVLink version 1 frames: the table of the kinds, and what a frame says of its sender.
#![tactic(auto)]

pub mod reader;
pub mod writer;

ghost use Rattle.std.specs.Prelude.{◌≡◌};
ghost use Rattle.mavlink_frame.specs.Frame.{kind_answer, mavlink_kind};

// A frame with its check right, at the start of an input. Its payload is from 6 on.
#[derive(Clone, Copy)]
pub struct Found {
    // Its message ID.
    pub id: u8,
    pub header: Header,
    // How many octets it has.
    pub used: usize,
}

// Octets of the longest frame, that of kind 202.
pub const LONGEST_FRAME: usize = 50;

// What a kind has: its message ID, the length of its payload, and the extra octet of its check.
#[derive(Clone, Copy)]
pub struct Kind {
    pub id: u8,
    pub length: u8,
    pub extra: u8,
}

// What a frame says of its sender: the place in its sequence, its system and its component.
#[repr(C)]
#[derive(Clone, Copy)]
pub struct Header {
    pub sequence: u8,
    pub system: u8,
    pub component: u8,
}

// ID, length and extra of each kind.
pub const DATA_STREAM: Kind = Kind {
    id: 66,
    length: 6,
    extra: 148,
};

pub const STATIC: Kind = Kind {
    id: 201,
    length: 19,
    extra: 126,
};

pub const DYNAMIC: Kind = Kind {
    id: 202,
    length: 42,
    extra: 7,
};

pub const STATUS: Kind = Kind {
    id: 203,
    length: 1,
    extra: 85,
};

pub const TRAFFIC: Kind = Kind {
    id: 246,
    length: 38,
    extra: 184,
};

const KINDS: [Kind; 5] = [DATA_STREAM, STATIC, DYNAMIC, STATUS, TRAFFIC];

// The kind that has a message ID.
pub fn kind_of(id: u8) -> Option<Kind>
    ensures { kind_answer result ≡ mavlink_kind id }
{
    KINDS.iter().find(|kind| id == kind.id).copied()
}
