// The states of a stream, and the flag that it owes.
ghost use Rattle.std.specs.Prelude.{◌≡◌};
ghost use Rattle.stream.specs.States.{change, can_read, can_write, is_closed, is_pending_ack};
ghost use Rattle.stream.specs.Streams.{owes_ack, flag_after};

use crate::{Flag, State};
use frame::header::Header;

impl State {
    // The state that a change to `next` leads to.
    pub fn update(self, next: State) -> State
        ensures { result ≡ change self next }
    {
        match (self, next) {
            (State::Closed, _) => State::Closed,
            (State::Open { .. }, _) => next,
            (State::RecvClosed, State::SendClosed | State::Closed) => State::Closed,
            (State::RecvClosed, State::Open { .. } | State::RecvClosed) => State::RecvClosed,
            (State::SendClosed, State::RecvClosed | State::Closed) => State::Closed,
            (State::SendClosed, State::Open { .. } | State::SendClosed) => State::SendClosed,
        }
    }

    pub fn can_read(self) -> bool
        ensures { result ≡ can_read self }
    {
        matches!(self, State::Open { .. } | State::SendClosed)
    }

    pub fn can_write(self) -> bool
        ensures { result ≡ can_write self }
    {
        matches!(self, State::Open { .. } | State::RecvClosed)
    }

    pub fn is_closed(self) -> bool
        ensures { result ≡ is_closed self }
    {
        matches!(self, State::Closed)
    }

    // Whether the stream's ACK is still to come.
    pub fn is_pending_ack(self) -> bool
        ensures { result ≡ is_pending_ack self }
    {
        matches!(
            self,
            State::Open {
                acknowledged: false,
            }
        )
    }
}

impl Flag {
    pub(crate) fn owes_ack(self) -> bool
        ensures { result ≡ owes_ack self }
    {
        matches!(self, Flag::Ack)
    }

    // What is still owed once `sent` is out.
    pub(crate) fn after(self, sent: Option<Header>) -> Flag
        ensures { result ≡ flag_after sent self }
    {
        if sent.is_some() { Flag::None } else { self }
    }
}
