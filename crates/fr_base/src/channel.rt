//! The two channels, those that a cluster has or a frame is sent on, and how they are written.
ghost use Rattle.std.specs.Prelude.{◌≡◌};
ghost use Rattle.fr_base.specs.Channels.{channel_of_text, channels_in, channels_of_text, text_of_channel, text_of_channels, has_channel};

/// One of the two channels of a FlexRay cluster. In one slot a node may send the same or different data
/// on A and B (FlexRay Protocol Specification 2.1 Rev. A, chapter 5, media access control).
#[derive(Clone, Copy, Debug, PartialEq, Eq, PartialOrd, Ord)]
pub enum Channel {
    /// Channel A.
    A,
    /// Channel B.
    B,
}

/// The channels that a cluster has, or on which a frame is sent: one of them, or both. Their order is
/// A, AB, B.
#[derive(Clone, Copy, PartialEq, Eq, PartialOrd, Ord)]
pub enum Channels {
    /// Channel A alone.
    A,
    /// Both channels.
    AB,
    /// Channel B alone.
    B,
}

impl Channel {
    /// The channel that the text writes: `A` or `B`.
    pub fn read(text: &str) -> Option<Channel>
        ensures { result ≡ channel_of_text text.now }
    {
        match text {
            "A" => Some(Channel::A),
            "B" => Some(Channel::B),
            _ => None,
        }
    }

    /// How the channel is written: `A` or `B`.
    pub fn as_str(self) -> &'static str
        ensures { result.now ≡ text_of_channel self }
    {
        match self {
            Channel::A => "A",
            Channel::B => "B",
        }
    }
}

impl Channels {
    /// The channels that the text writes: `A`, `B` or `AB`.
    pub fn read(text: &str) -> Option<Channels>
        ensures { result ≡ channels_of_text text.now }
    {
        Channels::from_bytes(text.as_bytes())
    }

    /// The channels that the bytes write. The bytes need not be a text.
    #[inline(always)]
    pub fn from_bytes(bytes: &[u8]) -> Option<Channels>
        ensures { result ≡ channels_of_text bytes.now }
    {
        match bytes {
            [b'A'] => Some(Channels::A),
            [b'A', b'B'] => Some(Channels::AB),
            [b'B'] => Some(Channels::B),
            _ => None,
        }
    }

    /// How the channels are written: `A`, `B` or `AB`.
    pub fn as_str(self) -> &'static str
        ensures { result.now ≡ text_of_channels self }
    {
        match self {
            Channels::A => "A",
            Channels::AB => "AB",
            Channels::B => "B",
        }
    }

    /// The channels, A before B.
    pub fn as_slice(self) -> &'static [Channel]
        ensures { result.now ≡ channels_in self }
    {
        match self {
            Channels::A => &[Channel::A],
            Channels::AB => &[Channel::A, Channel::B],
            Channels::B => &[Channel::B],
        }
    }

    /// Whether the channel is one of them.
    pub fn has(self, channel: Channel) -> bool
        ensures { result ≡ has_channel self channel }
    {
        match self {
            Channels::A => channel == Channel::A,
            Channels::AB => true,
            Channels::B => channel == Channel::B,
        }
    }
}
