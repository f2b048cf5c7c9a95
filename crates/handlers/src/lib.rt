// The handlers on values: what a frame or a call does to its stream and to the connection, before any lent memory is touched.
#![tactic(auto)]

mod answers;
pub mod calls;
pub mod known_stream;
pub mod open;
pub mod ping;
pub mod read;
pub mod syn;

ghost use Rattle.std.specs.Prelude.{◌≡◌};
ghost use Rattle.handlers.specs.Actions.{acked, on_reset, is_update, receive, violated, stream_action};
ghost use Rattle.rules.specs.Frames.{body_length};

use flow_control::InvalidWindowUpdate;
use frame::header::{ACK, FIN, Header, RST, SYN, StreamId, Tag};
use rtt::Rtt;
use rules::{Mode, Reply, Slot, Woke};
use stream::{Stream, Woken};

// What a call answers, but for bytes: a body and bytes read stand in lent memory. The narrow parts come last, as in `Connection`.
#[derive(Clone, Copy, Debug, PartialEq, Eq)]
pub struct Answer {
    pub slot: Option<Slot>,
    pub value: Option<u32>,
    pub sent: Option<Header>,
    pub wakes: Woke,
    pub reply: Reply,
}

// The frame's stream in the table, as the ACK step left it.
#[derive(Clone, Copy, Debug, PartialEq, Eq)]
pub struct Known {
    pub slot: Slot,
    pub stream: Stream,
}

// What a frame or a call on a handle does to the table and the pool.
#[derive(Clone, Copy, Debug, PartialEq, Eq)]
pub enum Action {
    // Nothing: all is as before.
    Refuse(Reply),
    // Nothing to the table.
    Answer(Answer),
    // The stream at the slot is now this one, and in the table or not.
    Store(Slot, Stream, bool, Answer),
    // The stream at the slot is now this one, and in the table or not, and the frame's body is queued after its bytes.
    Queue(Slot, Stream, bool, Answer),
    // A new stream takes the slot, with the frame's body queued.
    New(Slot, Stream, Answer),
}

// The pings after a Ping frame or a tick, and what it answers.
#[derive(Clone, Copy, Debug, PartialEq, Eq)]
pub struct PingStep {
    pub rtt: Rtt,
    pub answer: Answer,
}

// The id of an own stream and the one after it.
#[derive(Clone, Copy, Debug, PartialEq, Eq)]
pub struct NextId {
    pub id: StreamId,
    pub after: u32,
}

// What an open does.
#[derive(Clone, Copy, Debug, PartialEq, Eq)]
pub enum Opening {
    // The connection ends.
    End(Reply),
    Wait,
    Refuse(Reply),
    // A new stream takes the slot; the number is the next id.
    New(Slot, Stream, u32),
}

// What a read leaves and answers; as many bytes are read as the answer's value counts.
#[derive(Clone, Copy, Debug, PartialEq, Eq)]
pub struct ReadStep {
    pub stream: Stream,
    pub growth: u64,
    pub answer: Answer,
}

// The connection's part in the SYN rules.
#[derive(Clone, Copy, Debug, PartialEq, Eq)]
pub struct Limits {
    pub mode: Mode,
    pub max_num_streams: u32,
    pub listed: u32,
    pub room: u32,
}

// The stream after the frame's ACK step.
pub fn acked(header: Header, stream: Stream) -> Stream
    ensures { result ≡ acked header stream }
{
    if header.flags.contains(ACK) {
        stream.acknowledge()
    } else {
        stream
    }
}

// The stream is closed for good and leaves the table.
#[tactic(auto, unfolding(crate::specs::Actions::on_reset))]
pub fn on_reset(woke: bool, known: Option<Known>) -> Action
    ensures { result ≡ on_reset woke known }
{
    let Some(Known { slot, stream }) = known else {
        return Action::Answer(answers::no_action(woke));
    };
    let Woken { stream, wakes } = stream.reset();
    Action::Store(slot, stream, false, answers::told(woke, slot, wakes))
}

// How long the frame's body is by its header: a Data frame's length, and none on another type.
pub fn body_length(header: Header) -> u32
    ensures { result ≡ body_length header.tag header.length.0 }
{
    match header.tag {
        Tag::Data => header.length.0,
        Tag::WindowUpdate | Tag::Ping | Tag::GoAway => 0,
    }
}

pub(crate) fn is_window_update(header: Header) -> bool
    ensures { result ≡ is_update header.tag }
{
    matches!(header.tag, Tag::WindowUpdate)
}

// What the stream makes of the frame: a WindowUpdate's credit, or a Data frame's body.
#[tactic(auto, unfolding(crate::specs::Actions::receive))]
pub(crate) fn receive(stream: Stream, header: Header) -> Result<Woken, InvalidWindowUpdate>
    ensures { result ≡ receive stream header }
{
    let fin = header.flags.contains(FIN);
    if is_window_update(header) {
        stream.on_window_update(header.credit(), fin)
    } else {
        stream.on_data(header.length.0, fin)
    }
}

// A GoAway with code 1. The stream stays as the ACK step left it.
pub(crate) fn violated(woke: bool, known: Option<Known>) -> Action
    ensures { result ≡ violated woke known }
{
    let answer = answers::protocol_error(woke);
    match known {
        Some(Known { slot, stream }) => Action::Store(slot, stream, true, answer),
        None => Action::Answer(answer),
    }
}

// What a Data frame or a WindowUpdate does. The vacancy matters only with SYN.
#[tactic(auto, unfolding(crate::specs::Actions::stream_action))]
pub fn on_stream(
    limits: Limits,
    woke: bool,
    known: Option<Known>,
    vacancy: Option<Slot>,
    header: Header,
    now: u64,
) -> Action
    ensures { result ≡ stream_action limits woke known vacancy header now }
{
    if header.flags.contains(RST) {
        return on_reset(woke, known);
    }
    if header.flags.contains(SYN) {
        return syn::on_syn(limits, woke, known, vacancy, header, now);
    }
    known_stream::on_known(limits.room, woke, known, header)
}
