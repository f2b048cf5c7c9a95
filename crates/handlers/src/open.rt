// Opening a stream of our own.
ghost use Rattle.std.specs.Prelude.{◌≡◌};
ghost use Rattle.handlers.specs.Locals.{next_stream_id, open_in, open_with, open_action};

use crate::{NextId, Opening};
use frame::header::StreamId;
use rules::{Reply, Slot};
use stream::Stream;

// Own-parity streams that may wait for their ACK.
const MAX_ACK_BACKLOG: u32 = 256;

// The id of the next stream, and the one after it, which is a number of 32 bits too.
pub fn next_stream_id(next_id: u32) -> Option<NextId>
    ensures { result ≡ next_stream_id next_id }
{
    let after = next_id.checked_add(2)?;
    Some(NextId {
        id: StreamId(next_id),
        after,
    })
}

fn open_in(vacancy: Option<Slot>, id: StreamId, after: u32, now: u64) -> Opening
    ensures { result ≡ open_in vacancy id after now }
{
    match vacancy {
        Some(slot) => Opening::New(slot, Stream::new_outbound(id, now), after),
        None => Opening::Refuse(Reply::NoSlot),
    }
}

fn open_with(next: Option<NextId>, vacancy: Option<Slot>, now: u64) -> Opening
    ensures { result ≡ open_with next vacancy now }
{
    match next {
        Some(NextId { id, after }) => open_in(vacancy, id, after, now),
        None => Opening::End(Reply::NoMoreStreamIds),
    }
}

// What an open does, of so many streams in the table and so many that wait for their ACK.
#[tactic(auto, unfolding(crate::specs::Locals::open_action))]
pub fn open_action(
    listed: u32,
    max_num_streams: u32,
    backlog: u32,
    next_id: u32,
    vacancy: Option<Slot>,
    now: u64,
) -> Opening
    ensures { result ≡ open_action listed max_num_streams backlog next_id vacancy now }
{
    if max_num_streams <= listed {
        return Opening::End(Reply::TooManyStreams);
    }
    if MAX_ACK_BACKLOG <= backlog {
        return Opening::Wait;
    }
    open_with(next_stream_id(next_id), vacancy, now)
}
