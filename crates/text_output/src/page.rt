// A text in the making, in a room of 1536 octets.
ghost use Rattle.std.specs.Prelude.{◌≡◌, length};

// More than the longest line of either explainer.
pub const TEXT_ROOM: usize = 1536;

pub type TextRoom = [u8; TEXT_ROOM];

// A text in the making: the octets of its room up to an end. An end past the room's is as good as the room's.
#[derive(Drop)]
pub struct Page {
    pub room: TextRoom,
    pub end: usize,
    // As its type says, for those who can't see that.
    ghost long: { length room ≡ 1536 },
}
