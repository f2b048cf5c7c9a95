// frame_vectors: headers as document 01 gives them, and the edges of their fields, read and written again. One line each:
// the bytes, document 01's reply, then type, flags, stream id, length and the bytes written, or what was refused.
#![tactic(auto)]

use frame::header::{Credit, HEADER_SIZE, Header, HeaderDecodeError, Len, StreamId, WrongSize};
use std::io;

fn hex(rt: &impl Print, buf: &[u8]) -> io::Result<()> {
    if buf.is_empty() {
        print!(rt; "-")?;
    }
    for b in buf {
        print!(rt; "{b:02x}")?;
    }
    Ok(())
}

// A header's fields.
fn fields(rt: &impl Print, h: Header) -> io::Result<()> {
    let tag = u8::from(h.tag);
    print!(rt; " {tag} {} {} {}", h.flags.0, h.stream_id.0, h.length.0)
}

// A header's bytes.
fn written(rt: &impl Print, h: Header) -> io::Result<()> {
    let mut buf = [0; HEADER_SIZE];
    match frame::header::encode(h, &mut buf) {
        Ok(()) => hex(rt, &buf),
        Err(WrongSize) => print!(rt; "14"),
    }
}

// One line for the bytes of a buffer.
fn read(rt: &impl Print, buf: &[u8]) -> io::Result<()> {
    hex(rt, buf)?;
    match frame::header::decode(buf) {
        Ok(h) => {
            print!(rt; " 0")?;
            fields(rt, h)?;
            print!(rt; " ")?;
            written(rt, h)?;
        }
        Err(HeaderDecodeError::Version(v)) => print!(rt; " 11 {v}")?,
        Err(HeaderDecodeError::Type(t)) => print!(rt; " 12 {t}")?,
        Err(HeaderDecodeError::Size) => print!(rt; " 14")?,
    }
    println!(rt)
}

// One line for a header that was made: its bytes.
fn made(rt: &impl Print, h: Header) -> io::Result<()> {
    written(rt, h)?;
    println!(rt)
}

// A stream's life: opened with SYN, accepted with ACK, data, credit, half-closed, reset.
fn life(rt: &impl Print) -> io::Result<()> {
    read(rt, b"\x00\x00\x00\x01\x00\x00\x00\x01\x00\x00\x00\x00")?;
    read(rt, b"\x00\x01\x00\x01\x00\x00\x00\x01\x00\x00\x00\x00")?;
    read(rt, b"\x00\x01\x00\x02\x00\x00\x00\x01\x00\x00\x00\x00")?;
    read(rt, b"\x00\x00\x00\x00\x00\x00\x00\x01\x00\x00\x00\x04")?;
    read(rt, b"\x00\x01\x00\x00\x00\x00\x00\x02\x00\x04\x00\x00")?;
    read(rt, b"\x00\x00\x00\x04\x00\x00\x00\x01\x00\x00\x00\x00")?;
    read(rt, b"\x00\x00\x00\x08\x00\x00\x00\x02\x00\x00\x00\x00")
}

// The session's own: pings and their answers, and the three codes of a GoAway.
fn session(rt: &impl Print) -> io::Result<()> {
    read(rt, b"\x00\x02\x00\x01\x00\x00\x00\x00\x00\x00\x00\x07")?;
    read(rt, b"\x00\x02\x00\x02\x00\x00\x00\x00\x00\x00\x00\x07")?;
    read(rt, b"\x00\x03\x00\x00\x00\x00\x00\x00\x00\x00\x00\x00")?;
    read(rt, b"\x00\x03\x00\x00\x00\x00\x00\x00\x00\x00\x00\x01")?;
    read(rt, b"\x00\x03\x00\x00\x00\x00\x00\x00\x00\x00\x00\x02")
}

// Each field at its edges, and flag bits that have no name.
fn edges(rt: &impl Print) -> io::Result<()> {
    read(rt, b"\x00\x00\x00\x00\x00\x00\x00\x00\x00\x00\x00\x00")?;
    read(rt, b"\x00\x03\xff\xff\xff\xff\xff\xff\xff\xff\xff\xff")?;
    read(rt, b"\x00\x00\x80\x10\x80\x00\x00\x00\x00\x00\x00\x01")?;
    read(rt, b"\x00\x01\x01\x00\x01\x02\x03\x04\x05\x06\x07\x08")?;
    read(rt, b"\x00\x02\x00\x00\x00\xff\x00\xff\xff\x00\xff\x00")
}

// What is no header: the size comes before the version, and the version before the type.
fn refused(rt: &impl Print) -> io::Result<()> {
    read(rt, b"\x01\x00\x00\x00\x00\x00\x00\x01\x00\x00\x00\x00")?;
    read(rt, b"\xff\xff\x00\x00\x00\x00\x00\x01\x00\x00\x00\x00")?;
    read(rt, b"\x00\x04\x00\x00\x00\x00\x00\x01\x00\x00\x00\x00")?;
    read(rt, b"\x00\xff\x00\x00\x00\x00\x00\x01\x00\x00\x00\x00")?;
    read(rt, b"\x01\x04\x00\x00\x00\x00\x00\x01\x00\x00\x00")?;
    read(rt, b"\x00\x00\x00\x00\x00\x00\x00\x01\x00\x00\x00\x00\x00")?;
    read(rt, b"")
}

// The makers, and setters on types that have them and on one that has not.
fn makers(rt: &impl Print) -> io::Result<()> {
    made(rt, Header::data(StreamId(1), Len(4)).syn())?;
    made(
        rt,
        Header::window_update(StreamId(2), Credit(262144))
            .ack()
            .syn(),
    )?;
    made(rt, Header::ping(4294967295).fin().rst())?;
    made(rt, Header::term().syn())
}

fn frames(rt: &impl Print) -> io::Result<()> {
    made(rt, frame::ping(7))?;
    made(rt, frame::close_stream(StreamId(3), false))?;
    made(rt, frame::close_stream(StreamId(3), true))?;
    made(rt, Header::protocol_error())?;
    made(rt, Header::internal_error())
}

fn main(rt: HostRuntime) -> io::Result<()> {
    life(&rt)?;
    session(&rt)?;
    edges(&rt)?;
    refused(&rt)?;
    makers(&rt)?;
    frames(&rt)
}
