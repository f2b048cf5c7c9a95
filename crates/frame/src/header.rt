// A frame's header: what its fields mean, the frames' headers, and the twelve bytes that stand for it.
ghost use Rattle.std.specs.Prelude.{◌≡◌};
ghost use Rattle.frame.specs.Header.{server, client, session, contains, joined, flagged, opening, closing, with_syn, with_ack, with_fin, with_rst};
ghost use Rattle.frame.specs.Wire.{tag_number, type_of, wire, decoded, encoded, written};
ghost use Rattle.frame.specs.Header.{data_header, window_update_header, ping_header, go_away_header, normal, protocol_error, internal_error};
ghost use Rattle.frame.specs.declared.header.HeaderDecodeError.TheVariants as found;

use std::error::Error;
use std::fmt;

// The number of a stream; 0 is the session's own.
#[derive(Clone, Copy, Debug, PartialEq, Eq)]
pub struct StreamId(pub u32);

// The flag word, all 16 bits of it.
#[derive(Clone, Copy, Debug, PartialEq, Eq)]
pub struct Flags(pub u16);

// The length field as it stands in a header. What it means depends on the type.
#[derive(Clone, Copy, Debug, PartialEq, Eq)]
pub struct Len(pub u32);

// The length field of a window update: the bytes more that the frame's receiver may send.
#[derive(Clone, Copy, Debug, PartialEq, Eq)]
pub struct Credit(pub u32);

// The message type.
#[derive(Clone, Copy, Debug, PartialEq, Eq)]
pub enum Tag {
    Data,
    WindowUpdate,
    Ping,
    GoAway,
}

// A header of version 0, the only one.
#[derive(Clone, Copy, Debug, PartialEq, Eq)]
pub struct Header {
    pub tag: Tag,
    pub flags: Flags,
    pub stream_id: StreamId,
    pub length: Len,
}

// Why bytes are no header.
#[derive(Clone, Copy, Debug, PartialEq, Eq)]
pub enum HeaderDecodeError {
    Version(u8),
    Type(u8),
    Size,
}

// A buffer that is not of a header's twelve bytes.
#[derive(Clone, Copy, Debug, PartialEq, Eq)]
pub struct WrongSize;

// A number that stands for no type.
#[derive(Clone, Copy, Debug, PartialEq, Eq)]
pub struct UnknownType(pub u8);

pub const CONNECTION_ID: StreamId = StreamId(0);

// Opens a stream.
pub const SYN: Flags = Flags(1);

// Accepts a stream that the other side opened.
pub const ACK: Flags = Flags(2);

// Half-closes a stream.
pub const FIN: Flags = Flags(4);

// Resets a stream at once.
pub const RST: Flags = Flags(8);

pub const HEADER_SIZE: usize = 12;

// The window that each side of a new stream starts with.
pub const DEFAULT_CREDIT: u32 = 262144;

impl StreamId {
    pub fn is_server(self) -> bool
        ensures { result ≡ server self }
    {
        self.0 % 2 == 0
    }

    pub fn is_client(self) -> bool
        ensures { result ≡ client self }
    {
        self.0 % 2 == 1
    }

    pub fn is_session(self) -> bool
        ensures { result ≡ session self }
    {
        self.0 == 0
    }
}

impl Flags {
    // Whether every bit of other is set in self.
    pub fn contains(self, other: Flags) -> bool
        ensures { result ≡ contains self other }
    {
        self.0 & other.0 == other.0
    }

    // The bits of both.
    pub fn with(self, other: Flags) -> Flags
        ensures { result ≡ joined self other }
    {
        Flags(self.0 | other.0)
    }
}

impl Header {
    // The header with the flag set beside those that it has.
    fn with(self, flag: Flags) -> Self
        ensures { result ≡ flagged self flag }
    {
        Header {
            flags: self.flags.with(flag),
            ..self
        }
    }

    // The header with a flag that a GoAway lacks.
    fn opening(self, flag: Flags) -> Self
        ensures { result ≡ opening self.tag flag self }
    {
        match self.tag {
            Tag::Data | Tag::WindowUpdate | Tag::Ping => self.with(flag),
            Tag::GoAway => self,
        }
    }

    // The header with a flag that a Ping lacks too.
    fn closing(self, flag: Flags) -> Self
        ensures { result ≡ closing self.tag flag self }
    {
        match self.tag {
            Tag::Data | Tag::WindowUpdate => self.with(flag),
            Tag::Ping | Tag::GoAway => self,
        }
    }

    pub fn syn(self) -> Self
        ensures { result ≡ with_syn self }
    {
        self.opening(SYN)
    }

    pub fn ack(self) -> Self
        ensures { result ≡ with_ack self }
    {
        self.opening(ACK)
    }

    pub fn fin(self) -> Self
        ensures { result ≡ with_fin self }
    {
        self.closing(FIN)
    }

    pub fn rst(self) -> Self
        ensures { result ≡ with_rst self }
    {
        self.closing(RST)
    }

    pub fn data(id: StreamId, len: Len) -> Self
        ensures { result ≡ data_header id len }
    {
        Header {
            tag: Tag::Data,
            flags: Flags(0),
            stream_id: id,
            length: len,
        }
    }

    pub fn window_update(id: StreamId, credit: Credit) -> Self
        ensures { result ≡ window_update_header id credit }
    {
        Header {
            tag: Tag::WindowUpdate,
            flags: Flags(0),
            stream_id: id,
            length: Len(credit.0),
        }
    }

    // The bytes that this window update grants.
    pub fn credit(self) -> Credit
        ensures { result ≡ record { 0 = self.length.0 } }
    {
        Credit(self.length.0)
    }

    pub fn ping(id: u32) -> Self
        ensures { result ≡ ping_header id }
    {
        Header {
            tag: Tag::Ping,
            flags: Flags(0),
            stream_id: CONNECTION_ID,
            length: Len(id),
        }
    }

    // The value that a ping carries and its answer repeats.
    pub fn id(self) -> u32
        ensures { result ≡ self.length.0 }
    {
        self.length.0
    }

    // Ends the session without an error.
    pub fn term() -> Self
        ensures { result ≡ go_away_header normal }
    {
        Header::go_away(0)
    }

    pub fn protocol_error() -> Self
        ensures { result ≡ go_away_header protocol_error }
    {
        Header::go_away(1)
    }

    pub fn internal_error() -> Self
        ensures { result ≡ go_away_header internal_error }
    {
        Header::go_away(2)
    }

    // The code stays a number: a header that was read may hold any.
    fn go_away(code: u32) -> Self
        ensures { result ≡ go_away_header code }
    {
        Header {
            tag: Tag::GoAway,
            flags: Flags(0),
            stream_id: CONNECTION_ID,
            length: Len(code),
        }
    }
}

impl From<Tag> for u8 {
    ghost from_gives = { λ tag n. n ≡ tag_number tag };

    fn from(tag: Tag) -> u8 {
        match tag {
            Tag::Data => 0,
            Tag::WindowUpdate => 1,
            Tag::Ping => 2,
            Tag::GoAway => 3,
        }
    }
}

impl TryFrom<u8> for Tag {
    type Error = UnknownType;

    ghost try_from_gives = { λ n r. r ≡ type_of n };

    fn try_from(n: u8) -> Result<Self, UnknownType> {
        match n {
            0 => Ok(Tag::Data),
            1 => Ok(Tag::WindowUpdate),
            2 => Ok(Tag::Ping),
            3 => Ok(Tag::GoAway),
            _ => Err(UnknownType(n)),
        }
    }
}

impl From<UnknownType> for HeaderDecodeError {
    ghost from_gives = { λ unknown e. e ≡ found.Type unknown.0 };

    fn from(unknown: UnknownType) -> Self {
        HeaderDecodeError::Type(unknown.0)
    }
}

impl fmt::Display for HeaderDecodeError {
    fn fmt<W: fmt::Write>(&self, f: &mut fmt::Formatter<W>) -> fmt::Result {
        match self {
            HeaderDecodeError::Version(v) => write!(f, "unknown version {v}"),
            HeaderDecodeError::Type(t) => write!(f, "unknown frame type {t}"),
            HeaderDecodeError::Size => f.write_str("not twelve bytes"),
        }
    }
}

impl fmt::Display for WrongSize {
    fn fmt<W: fmt::Write>(&self, f: &mut fmt::Formatter<W>) -> fmt::Result {
        f.write_str("not twelve bytes")
    }
}

impl fmt::Display for UnknownType {
    fn fmt<W: fmt::Write>(&self, f: &mut fmt::Formatter<W>) -> fmt::Result {
        write!(f, "unknown frame type {}", self.0)
    }
}

impl Error for HeaderDecodeError {}

impl Error for WrongSize {}

impl Error for UnknownType {}

// The header that twelve bytes are, or why they are none.
pub fn decode(buf: &[u8]) -> Result<Header, HeaderDecodeError>
    ensures { result ≡ decoded buf.now }
{
    if buf.len() != HEADER_SIZE {
        return Err(HeaderDecodeError::Size);
    }
    if buf[0] != 0 {
        return Err(HeaderDecodeError::Version(buf[0]));
    }
    let tag = Tag::try_from(buf[1])?;
    Ok(Header {
        tag,
        flags: Flags(u16::from_be_bytes([buf[2], buf[3]])),
        stream_id: StreamId(u32::from_be_bytes([buf[4], buf[5], buf[6], buf[7]])),
        length: Len(u32::from_be_bytes([buf[8], buf[9], buf[10], buf[11]])),
    })
}

// The twelve bytes that stand for a header.
fn wire(h: Header) -> [u8; HEADER_SIZE]
    ensures { result ≡ wire h }
{
    let [f0, f1] = h.flags.0.to_be_bytes();
    let [s0, s1, s2, s3] = h.stream_id.0.to_be_bytes();
    let [n0, n1, n2, n3] = h.length.0.to_be_bytes();
    [0, h.tag.into(), f0, f1, s0, s1, s2, s3, n0, n1, n2, n3]
}

// Writes the header's twelve bytes into a buffer of that size, and leaves any other as it is.
pub fn encode(h: Header, buf: &mut [u8]) -> Result<(), WrongSize>
    ensures value { result ≡ encoded buf.old }
    ensures buf_after { buf.new ≡ written h buf.old }
{
    if buf.len() != HEADER_SIZE {
        return Err(WrongSize);
    }
    buf.copy_from_slice(&wire(h));
    Ok(())
}
