// Encode and decode for C: the two functions of `frame::c`, exported under their names with the clauses that they have there.
#![tactic(auto)]

ghost use Rattle.std.specs.Prelude.{◌≡◌};
ghost use Rattle.frame.specs.Wire.{decoded, decode_reply, numbers_reply, numbers_written, handed, kind_of, flags_of, id_of, length_of};

// Writes a header's twelve bytes into buf, which stays as it is on a refusal.
#[unsafe(no_mangle)]
pub extern "C" fn yamux_encode(
    tag: u8,
    flags: u16,
    stream_id: u32,
    length: u32,
    buf: &mut [u8],
) -> u32
    ensures value { result ≡ numbers_reply tag buf.old }
    ensures buf_after { buf.new ≡ numbers_written tag flags stream_id length buf.old }
{
    frame::c::yamux_encode(tag, flags, stream_id, length, buf)
}

// Hands out the numbers of the header that buf is. They stay as they are on a refusal.
#[unsafe(no_mangle)]
pub extern "C" fn yamux_decode(
    buf: &[u8],
    tag: &mut u8,
    flags: &mut u16,
    stream_id: &mut u32,
    length: &mut u32,
) -> u32
    ensures value { result ≡ decode_reply (decoded buf.now) }
    ensures tag_after { tag.new ≡ handed (decoded buf.now) kind_of tag.old }
    ensures flags_after { flags.new ≡ handed (decoded buf.now) flags_of flags.old }
    ensures stream_id_after { stream_id.new ≡ handed (decoded buf.now) id_of stream_id.old }
    ensures length_after { length.new ≡ handed (decoded buf.now) length_of length.old }
{
    frame::c::yamux_decode(buf, tag, flags, stream_id, length)
}
