// The answers that the handlers share. `woke` says whether the ACK step woke an open.
ghost use Rattle.std.specs.Prelude.{◌≡◌};
ghost use Rattle.frame.specs.Header.{protocol_error, internal_error};
ghost use Rattle.rules.specs.Frames.{whose};
ghost use Rattle.handlers.specs.Actions.{done, go_away, terminate, told, no_action};
ghost use Rattle.handlers.specs.Locals.{slot_answer};

use crate::Answer;
use frame::header::Header;
use rules::{NOBODY, Reply, Slot, Woke};
use stream::{QUIET, StreamWakes};

pub(crate) fn done(
    woke: bool,
    slot: Option<Slot>,
    value: Option<u32>,
    sent: Option<Header>,
    wakes: StreamWakes,
) -> Answer
    ensures { result ≡ done woke slot value sent wakes }
{
    Answer {
        reply: Reply::Done,
        slot,
        value,
        sent,
        wakes: Woke {
            reader: wakes.reader,
            writer: wakes.writer,
            opener: woke,
            all: false,
        },
    }
}

pub(crate) fn no_action(woke: bool) -> Answer
    ensures { result ≡ no_action woke }
{
    done(woke, None, None, None, QUIET)
}

// The slot of a stream that is woken.
fn whose(wakes: StreamWakes, slot: Slot) -> Option<Slot>
    ensures { result ≡ whose wakes slot.0 }
{
    if wakes.reader || wakes.writer {
        Some(slot)
    } else {
        None
    }
}

// Done, with the stream's wakes.
pub(crate) fn told(woke: bool, slot: Slot, wakes: StreamWakes) -> Answer
    ensures { result ≡ told woke slot wakes }
{
    done(woke, whose(wakes, slot), None, None, wakes)
}

// The answer of a call on a handle.
pub(crate) fn at_slot(slot: Slot, reply: Reply, value: Option<u32>, sent: Option<Header>) -> Answer
    ensures { result ≡ slot_answer slot reply value sent }
{
    Answer {
        reply,
        slot: Some(slot),
        value,
        sent,
        wakes: NOBODY,
    }
}

// A GoAway to send, with its code as the value.
fn go_away(woke: bool, header: Header) -> Answer
    ensures { result ≡ go_away woke header }
{
    Answer {
        reply: Reply::GoAway,
        slot: None,
        value: Some(header.length.0),
        sent: Some(header),
        wakes: Woke {
            opener: woke,
            ..NOBODY
        },
    }
}

pub(crate) fn protocol_error(woke: bool) -> Answer
    ensures { result ≡ terminate woke protocol_error }
{
    go_away(woke, Header::protocol_error())
}

pub(crate) fn internal_error(woke: bool) -> Answer
    ensures { result ≡ terminate woke internal_error }
{
    go_away(woke, Header::internal_error())
}
