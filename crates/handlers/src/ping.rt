// Pings and pongs.
ghost use Rattle.std.specs.Prelude.{◌≡◌};
ghost use Rattle.handlers.specs.Actions.{pong_heard, ping_heard, on_ping};

use crate::{PingStep, answers};
use frame::header::{ACK, Header};
use rtt::{Rtt, UnexpectedPong};
use stream::QUIET;

fn pong_heard(rtt: Rtt, heard: Result<Rtt, UnexpectedPong>) -> PingStep
    ensures { result ≡ pong_heard rtt heard }
{
    match heard {
        Ok(rtt) => PingStep {
            rtt,
            answer: answers::no_action(false),
        },
        Err(_) => PingStep {
            rtt,
            answer: answers::protocol_error(false),
        },
    }
}

// The answer to a Ping that asks.
fn ping_heard(rtt: Rtt, value: u32) -> PingStep
    ensures { result ≡ ping_heard rtt value }
{
    let header = Header::ping(value).ack();
    PingStep {
        rtt,
        answer: answers::done(false, None, Some(value), Some(header), QUIET),
    }
}

// What a Ping does; `in_table` says whether its stream is in the table.
#[tactic(auto, unfolding(crate::specs::Actions::on_ping))]
pub fn on_ping(rtt: Rtt, in_table: bool, header: Header, now: u64, interval: u64) -> PingStep
    ensures { result ≡ on_ping rtt in_table header now interval }
{
    let value = header.id();
    if header.flags.contains(ACK) {
        return pong_heard(rtt, rtt.handle_pong(value, now, interval));
    }
    if header.stream_id.is_session() || in_table {
        return ping_heard(rtt, value);
    }
    PingStep {
        rtt,
        answer: answers::no_action(false),
    }
}
