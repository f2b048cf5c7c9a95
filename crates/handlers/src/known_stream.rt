// A frame without SYN, for a stream in the table.
ghost use Rattle.std.specs.Prelude.{◌≡◌};
ghost use Rattle.handlers.specs.Actions.{stays, on_known};

use crate::{Action, Known, answers, body_length, receive, violated};
use frame::header::{FIN, Header};
use rules::Reply;
use stream::{Stream, Woken};

// Whether the stream stays in the table.
fn stays(finished: bool, stream: Stream) -> bool
    ensures { result ≡ stays finished stream }
{
    !(finished && stream.state.is_closed())
}

#[tactic(auto, unfolding(crate::specs::Actions::on_known))]
pub fn on_known(room: u32, woke: bool, known: Option<Known>, header: Header) -> Action
    ensures { result ≡ on_known room woke known header }
{
    let Some(Known { slot, stream }) = known else {
        return Action::Answer(answers::no_action(woke));
    };
    let Ok(Woken { stream, wakes }) = receive(stream, header) else {
        return violated(woke, known);
    };
    let n = body_length(header);
    if room < n {
        return Action::Refuse(Reply::NoRoom);
    }
    let listed = stays(header.flags.contains(FIN), stream);
    let answer = answers::told(woke, slot, wakes);
    // A body of no bytes touches no queue.
    if n == 0 {
        return Action::Store(slot, stream, listed, answer);
    }
    Action::Queue(slot, stream, listed, answer)
}
