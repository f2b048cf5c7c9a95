// Encode and decode for C, on numbers and byte buffers. The results are document 01's numbered replies.
ghost use Rattle.std.specs.Prelude.{◌≡◌};
ghost use Rattle.frame.specs.Wire.{decoded, decode_reply, numbers_reply, numbers_written, handed, kind_of, flags_of, id_of, length_of};

use crate::header::{Flags, HEADER_SIZE, Header, HeaderDecodeError, Len, StreamId, Tag, WrongSize};

const DONE: u32 = 0;

const UNKNOWN_VERSION: u32 = 11;

const UNKNOWN_TYPE: u32 = 12;

const WRONG_SIZE: u32 = 14;

// Writes a header's twelve bytes into buf, which stays as it is on a refusal.
pub fn yamux_encode(tag: u8, flags: u16, stream_id: u32, length: u32, buf: &mut [u8]) -> u32
    ensures value { result ≡ numbers_reply tag buf.old }
    ensures buf_after { buf.new ≡ numbers_written tag flags stream_id length buf.old }
{
    if buf.len() != HEADER_SIZE {
        return WRONG_SIZE;
    }
    let Ok(kind) = Tag::try_from(tag) else {
        return UNKNOWN_TYPE;
    };
    let h = Header {
        tag: kind,
        flags: Flags(flags),
        stream_id: StreamId(stream_id),
        length: Len(length),
    };
    match crate::header::encode(h, buf) {
        Ok(()) => DONE,
        Err(WrongSize) => WRONG_SIZE,
    }
}

// Hands out the numbers of the header that buf is. They stay as they are on a refusal.
pub fn yamux_decode(
    buf: &[u8],
    tag: &mut u8,
    flags: &mut u16,
    stream_id: &mut u32,
    length: &mut u32,
) -> u32
    ensures value { result ≡ decode_reply (decoded buf.now) }
    ensures tag_after { tag.new ≡ handed (decoded buf.now) kind_of tag.old }
    ensures flags_after { flags.new ≡ handed (decoded buf.now) flags_of flags.old }
    ensures stream_id_after { stream_id.new ≡ handed (decoded buf.now) id_of stream_id.old }
    ensures length_after { length.new ≡ handed (decoded buf.now) length_of length.old }
{
    match crate::header::decode(buf) {
        Ok(h) => {
            *tag = h.tag.into();
            *flags = h.flags.0;
            *stream_id = h.stream_id.0;
            *length = h.length.0;
            DONE
        }
        Err(HeaderDecodeError::Version(_)) => UNKNOWN_VERSION,
        Err(HeaderDecodeError::Type(_)) => UNKNOWN_TYPE,
        Err(HeaderDecodeError::Size) => WRONG_SIZE,
    }
}
