// One stream by value: its state, the flag that its next frame owes, who waits on it, and its windows.
#![tactic(auto)]

mod outgoing;
mod states;

ghost use Rattle.std.specs.Prelude.{◌≡◌};
ghost use Rattle.stream.specs.States.{change};
ghost use Rattle.stream.specs.Streams.{made, new_inbound, new_outbound, with_state, on_data, on_window_update, reset, acknowledged};
ghost use Rattle.stream.specs.Streams.{add_flag, update_frame, send_window_update, read_end};

use flow_control::{Conditions, Due, FlowController, Granted, InvalidWindowUpdate};
use frame::header::{Credit, DEFAULT_CREDIT, Header, StreamId};

#[derive(Clone, Copy, Debug, PartialEq, Eq)]
pub enum State {
    // Open both ways. Of our own stream `acknowledged` says that the remote sent ACK, of an inbound one that we did.
    Open { acknowledged: bool },
    // We have closed our side; the remote may still send.
    SendClosed,
    // The remote has closed its side; we may still send.
    RecvClosed,
    Closed,
}

// The flag that the stream's next frame has to carry. Not an Option: None is one of the Rust's three, and a match names all of them.
#[derive(Clone, Copy, Debug, PartialEq, Eq)]
pub enum Flag {
    None,
    Syn,
    Ack,
}

#[derive(Clone, Copy, Debug, PartialEq, Eq)]
pub struct Stream {
    pub id: StreamId,
    pub flag: Flag,
    pub state: State,
    pub reader: bool,
    pub writer: bool,
    pub flow: FlowController,
}

// Who waited, and waits no more.
#[derive(Clone, Copy, Debug, PartialEq, Eq)]
pub struct StreamWakes {
    pub reader: bool,
    pub writer: bool,
}

// Nobody waited.
pub const QUIET: StreamWakes = StreamWakes {
    reader: false,
    writer: false,
};

#[derive(Clone, Copy, Debug, PartialEq, Eq)]
pub struct Woken {
    pub stream: Stream,
    pub wakes: StreamWakes,
}

// The stream after the window step of a read, what the step granted where it was taken, and the frame for that.
#[derive(Clone, Copy, Debug, PartialEq, Eq)]
pub struct Updated {
    pub stream: Stream,
    pub growth: u64,
    pub step: Option<Granted>,
    pub sent: Option<Header>,
}

// How a read ends. Not a Result: both are fine ends, and a wait leaves a stream too.
#[derive(Clone, Copy, Debug, PartialEq, Eq)]
pub enum ReadEnd {
    Done(Stream),
    Wait(Stream),
}

// What a write does. Not a Result of an Option, in which a wait would be an Ok of None.
#[derive(Clone, Copy, Debug, PartialEq, Eq)]
pub enum Written {
    Frame(Stream, Header),
    Wait(Stream),
    Closed,
}

#[derive(Clone, Copy, Debug, PartialEq, Eq)]
pub struct Closing {
    pub stream: Stream,
    pub sent: Option<Header>,
}

#[derive(Clone, Copy, Debug, PartialEq, Eq)]
pub struct Dropped {
    pub stream: Stream,
    pub sent: Option<Header>,
    pub wakes: StreamWakes,
}

impl Stream {
    fn new(id: StreamId, flag: Flag, send_window: u32, now: u64) -> Self
        ensures { result ≡ made id flag send_window now }
    {
        Stream {
            id,
            flag,
            state: State::Open {
                acknowledged: false,
            },
            reader: false,
            writer: false,
            flow: FlowController::new(send_window, now),
        }
    }

    // A stream that the remote opened. Its ACK is owed.
    pub fn new_inbound(id: StreamId, send_window: u32, now: u64) -> Self
        ensures { result ≡ new_inbound id send_window now }
    {
        Stream::new(id, Flag::Ack, send_window, now)
    }

    // A stream of our own. Its SYN is owed.
    pub fn new_outbound(id: StreamId, now: u64) -> Self
        ensures { result ≡ new_outbound id now }
    {
        Stream::new(id, Flag::Syn, DEFAULT_CREDIT, now)
    }

    // The stream in the state that a change to `next` leads to.
    pub(crate) fn update_state(self, next: State) -> Stream
        ensures { result ≡ with_state self (change self.state next) }
    {
        Stream {
            state: self.state.update(next),
            ..self
        }
    }

    // The body is taken from the receive window, and the reader woken.
    pub fn on_data(mut self, body_len: u32, fin: bool) -> Result<Woken, InvalidWindowUpdate>
        ensures { result ≡ on_data self body_len fin }
    {
        self.flow.consume_receive_window(body_len)?;
        let wakes = StreamWakes {
            reader: self.reader,
            writer: false,
        };
        self.reader = false;
        if fin {
            self = self.update_state(State::RecvClosed);
        }
        Ok(Woken {
            stream: self,
            wakes,
        })
    }

    // The credit is added to the send window, and the writer woken; by FIN the reader too.
    pub fn on_window_update(
        mut self,
        credit: Credit,
        fin: bool,
    ) -> Result<Woken, InvalidWindowUpdate>
        ensures { result ≡ on_window_update self credit fin }
    {
        self.flow.increase_send_window_by(credit)?;
        let wakes = StreamWakes {
            reader: fin && self.reader,
            writer: self.writer,
        };
        self.writer = false;
        if fin {
            self = self.update_state(State::RecvClosed);
            self.reader = false;
        }
        Ok(Woken {
            stream: self,
            wakes,
        })
    }

    // Closed for good, with reader and writer woken.
    pub fn reset(self) -> Woken
        ensures { result ≡ reset self }
    {
        let wakes = StreamWakes {
            reader: self.reader,
            writer: self.writer,
        };
        let stream = Stream {
            state: State::Closed,
            reader: false,
            writer: false,
            ..self
        };
        Woken { stream, wakes }
    }

    // The remote's ACK has come, or ours has gone out.
    pub fn acknowledge(self) -> Stream
        ensures { result ≡ acknowledged self }
    {
        self.update_state(State::Open { acknowledged: true })
    }

    // The header with the flag that is owed.
    pub(crate) fn add_flag(self, header: Header) -> Header
        ensures { result ≡ add_flag self.flag header }
    {
        match self.flag {
            Flag::None => header,
            Flag::Syn => header.syn(),
            Flag::Ack => header.ack(),
        }
    }

    // The frame for what the window step granted, with the flag that is owed.
    fn update_frame(self, update: Option<Due>) -> Option<Header>
        ensures { result ≡ update_frame self update }
    {
        let due = update?;
        Some(self.add_flag(Header::window_update(self.id, due.credit)))
    }

    // The window step of a read, taken while the remote may still send.
    pub fn send_window_update(mut self, conditions: Conditions) -> Updated
        ensures { result ≡ send_window_update self conditions.unread conditions.time conditions.round_trip conditions.limit conditions.max_num_streams conditions.growth }
    {
        if !self.state.can_read() {
            return Updated {
                stream: self,
                growth: conditions.growth,
                step: None,
                sent: None,
            };
        }
        let granted = self.flow.next_window_update(conditions);
        let sent = self.update_frame(granted.update);
        self.flag = self.flag.after(sent);
        Updated {
            stream: self,
            growth: granted.growth,
            step: Some(granted),
            sent,
        }
    }

    // How a read that took so many bytes ends.
    pub fn read_end(self, taken: u32) -> ReadEnd
        ensures { result ≡ read_end self taken }
    {
        if taken != 0 || !self.state.can_read() {
            return ReadEnd::Done(self);
        }
        ReadEnd::Wait(Stream {
            reader: true,
            ..self
        })
    }
}
