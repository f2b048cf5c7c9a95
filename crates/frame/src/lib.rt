// Yamux frames: the header and its codec, and the frames that are more than one header's maker.
#![tactic(auto)]

pub mod c;
pub mod header;

ghost use Rattle.std.specs.Prelude.{◌≡◌};
ghost use Rattle.frame.specs.Header.{close_stream, ping_syn};

use header::{Header, Len, StreamId};

// Our FIN: an empty Data frame, which also acknowledges the stream where that is still owed.
pub fn close_stream(id: StreamId, ack: bool) -> Header
    ensures { result ≡ close_stream id ack }
{
    let header = Header::data(id, Len(0)).fin();
    if ack { header.ack() } else { header }
}

// The Ping that asks for a pong of the same value.
pub fn ping(id: u32) -> Header
    ensures { result ≡ ping_syn id }
{
    Header::ping(id).syn()
}
