// Write, close and drop: the stream's part of what we send.
ghost use Rattle.std.specs.Prelude.{◌≡◌, ◌≤◌};
ghost use Rattle.stream.specs.Streams.{write_count, write_taken, write, close_taken, close, farewell, dropped};

use crate::{Closing, Dropped, Flag, State, Stream, Woken, Written};
use frame::header::{Header, Len};

impl Stream {
    // The bytes that one frame may carry.
    fn write_count(self, given: usize, split: u32) -> u32
        ensures { result ≡ write_count self given split }
    {
        let most = self.flow.send_window.min(split);
        given.min(most as usize) as u32
    }

    // The frame of n bytes, with the flag that is owed.
    fn write_taken(mut self, n: u32) -> Written
        requires { n ≤ self.flow.send_window }
        ensures { result ≡ write_taken self n }
    {
        let header = self.add_flag(Header::data(self.id, Len(n)));
        self.flow.consume_send_window(n).unwrap();
        if self.flag.owes_ack() {
            self = self.acknowledge();
        }
        self.flag = Flag::None;
        Written::Frame(self, header)
    }

    // One Data frame of what was given, as far as the window and the split size allow.
    pub fn write(self, given: usize, split: u32) -> Written
        ensures { result ≡ write self given split }
    {
        if !self.state.can_write() {
            return Written::Closed;
        }
        if self.flow.send_window == 0 {
            return Written::Wait(Stream {
                writer: true,
                ..self
            });
        }
        self.write_taken(self.write_count(given, split))
    }

    // The FIN, and what it leaves owed: a SYN stays.
    fn close_taken(mut self) -> Closing
        ensures { result ≡ close_taken self }
    {
        let ack = self.flag.owes_ack();
        if ack {
            self.flag = Flag::None;
        }
        Closing {
            stream: self.update_state(State::SendClosed),
            sent: Some(frame::close_stream(self.id, ack)),
        }
    }

    // Our side is closed by a FIN, which pays an ACK that is owed.
    pub fn close(self) -> Closing
        ensures { result ≡ close self }
    {
        if self.state.is_closed() {
            return Closing {
                stream: self,
                sent: None,
            };
        }
        self.close_taken()
    }

    // The frame that tells the remote of a drop.
    fn farewell(self) -> Option<Header>
        ensures { result ≡ farewell self.state self.id }
    {
        let header = Header::data(self.id, Len(0));
        match self.state {
            State::Open { .. } => Some(header.rst()),
            State::RecvClosed => Some(header.fin()),
            State::SendClosed | State::Closed => None,
        }
    }

    // Closed for good, with reader and writer woken. The remote is told where it does not know yet.
    pub fn drop(self) -> Dropped
        ensures { result ≡ dropped self }
    {
        let Woken { stream, wakes } = self.reset();
        let sent = self.farewell();
        Dropped {
            stream,
            sent,
            wakes,
        }
    }
}
