// A frame with SYN, which opens a stream.
ghost use Rattle.std.specs.Prelude.{◌≡◌};
ghost use Rattle.rules.specs.State.{is_remote};
ghost use Rattle.handlers.specs.Actions.{full, new_action, first, on_syn};

use crate::{
    Action, Answer, Known, Limits, answers, body_length, is_window_update, receive, violated,
};
use frame::header::{DEFAULT_CREDIT, Header, StreamId};
use rules::{Mode, Reply, Slot};
use stream::{QUIET, Stream};

// Whether the id is of the remote's parity.
pub fn is_valid_remote_id(mode: Mode, id: StreamId) -> bool
    ensures { result ≡ is_remote mode id }
{
    match mode {
        Mode::Client => id.is_server(),
        Mode::Server => id.is_client(),
    }
}

// The answer where M streams are in the table.
fn full(woke: bool, header: Header) -> Answer
    ensures { result ≡ full woke header }
{
    if is_window_update(header) {
        answers::protocol_error(woke)
    } else {
        answers::internal_error(woke)
    }
}

// The stream in the lowest free slot, with a body of n bytes.
fn new_action(vacancy: Option<Slot>, room: u32, woke: bool, stream: Stream, n: u32) -> Action
    ensures { result ≡ new_action vacancy room woke stream n }
{
    let Some(slot) = vacancy else {
        return Action::Refuse(Reply::NoSlot);
    };
    if room < n {
        return Action::Refuse(Reply::NoRoom);
    }
    let answer = answers::done(woke, vacancy, Some(stream.id.0), None, QUIET);
    Action::New(slot, stream, answer)
}

// A stream is made, and takes the frame.
fn first(room: u32, woke: bool, vacancy: Option<Slot>, header: Header, now: u64) -> Action
    ensures { result ≡ first room woke vacancy header now }
{
    let fresh = Stream::new_inbound(header.stream_id, DEFAULT_CREDIT, now);
    match receive(fresh, header) {
        Ok(taken) => new_action(vacancy, room, woke, taken.stream, body_length(header)),
        Err(_) => violated(woke, None),
    }
}

// The tests in the document's order, then the stream.
#[tactic(auto, unfolding(crate::specs::Actions::on_syn))]
pub fn on_syn(
    limits: Limits,
    woke: bool,
    known: Option<Known>,
    vacancy: Option<Slot>,
    header: Header,
    now: u64,
) -> Action
    ensures { result ≡ on_syn limits woke known vacancy header now }
{
    if !is_valid_remote_id(limits.mode, header.stream_id) || known.is_some() {
        return violated(woke, known);
    }
    if limits.max_num_streams <= limits.listed {
        return Action::Answer(full(woke, header));
    }
    first(limits.room, woke, vacancy, header, now)
}
