// Write, close, drop and tick.
ghost use Rattle.std.specs.Prelude.{◌≡◌};
ghost use Rattle.handlers.specs.Locals.{write_step, on_write, on_close, on_drop, ping_sent, on_tick};

use crate::{Answer, PingStep, answers};
use frame::header::Header;
use rtt::Rtt;
use rules::{Reply, Slot};
use stream::{QUIET, Stream, Written};

// What a call leaves of the handle's stream, which is in the table if it was, and what the call answers.
#[derive(Clone, Copy, Debug, PartialEq, Eq)]
pub struct StreamStep {
    pub stream: Stream,
    pub answer: Answer,
}

fn write_step(slot: Slot, written: Written) -> Result<StreamStep, Reply>
    ensures { result ≡ write_step slot written }
{
    match written {
        Written::Closed => Err(Reply::WriteClosed),
        Written::Wait(stream) => {
            let answer = answers::at_slot(slot, Reply::Wait, None, None);
            Ok(StreamStep { stream, answer })
        }
        Written::Frame(stream, header) => {
            let n = header.length.0;
            let answer = answers::at_slot(slot, Reply::Done, Some(n), Some(header));
            Ok(StreamStep { stream, answer })
        }
    }
}

// What a write of so many bytes does; the header's length says how many of them go out. Where the stream, or the connection, is closed for
// writing, it is refused.
pub fn on_write(
    ended: bool,
    slot: Slot,
    stream: Stream,
    given: usize,
    split: u32,
) -> Result<StreamStep, Reply>
    ensures { result ≡ on_write ended slot stream given split }
{
    if ended {
        return Err(Reply::WriteClosed);
    }
    write_step(slot, stream.write(given, split))
}

// What a close does.
pub fn on_close(slot: Slot, stream: Stream) -> StreamStep
    ensures { result ≡ on_close slot stream }
{
    let closing = stream.close();
    StreamStep {
        stream: closing.stream,
        answer: answers::at_slot(slot, Reply::Done, None, closing.sent),
    }
}

// What a drop does to the stream in the table that has the handle's id.
pub fn on_drop(slot: Slot, stream: Stream) -> StreamStep
    ensures { result ≡ on_drop slot stream }
{
    let dropped = stream.drop();
    StreamStep {
        stream: dropped.stream,
        answer: answers::done(false, Some(slot), None, dropped.sent, dropped.wakes),
    }
}

fn ping_sent(rtt: Rtt, ping: Option<Header>) -> PingStep
    ensures { result ≡ ping_sent rtt ping }
{
    let answer = match ping {
        Some(header) => answers::done(false, None, Some(header.id()), ping, QUIET),
        None => answers::no_action(false),
    };
    PingStep { rtt, answer }
}

// The ping that is due, if one is.
#[tactic(auto, unfolding(crate::specs::Locals::on_tick))]
pub fn on_tick(rtt: Rtt, now: u64) -> PingStep
    ensures { result ≡ on_tick rtt now }
{
    let pinged = rtt.next_ping(now);
    ping_sent(pinged.rtt, pinged.ping)
}
