// A row of the table: one slot's stream and the numbers of its queue, and the six cells that hold them.
ghost use Rattle.std.specs.Prelude.{◌≡◌, ◌<◌, length};
ghost use Rattle.rules.specs.State.{is_own};
ghost use Rattle.table.specs.Rows.{low, high, both, flag_number, flag_of, state_number, state_of, marks, stream_of, queue_of, row_of, cells_of, key_of, blank, is_unacknowledged, end_row};

use chunks::Queue;
use flow_control::FlowController;
use frame::header::StreamId;
use rules::Mode;
use stream::{Flag, State, Stream};

// Whether the slot's handle is held, whether its stream is in the table, the stream, and its queue's numbers.
#[derive(Clone, Copy, Debug, PartialEq, Eq)]
pub struct Row {
    pub held: bool,
    pub listed: bool,
    pub stream: Stream,
    pub queue: Queue,
}

// The cells of a row.
pub(crate) const ROW: usize = 6;

pub(crate) fn low(cell: u64) -> u32
    ensures { result ≡ low cell }
{
    (cell & 0xffff_ffff) as u32
}

fn high(cell: u64) -> u32
    ensures { result ≡ high cell }
{
    (cell >> 32) as u32
}

// One cell of two numbers.
fn both(l: u32, h: u32) -> u64
    ensures { result ≡ both l h }
{
    u64::from(l) + (u64::from(h) << 32)
}

// The numbers of flags and states are functions, not From: all these types are of other crates.
fn flag_number(flag: Flag) -> u32
    ensures value { result ≡ flag_number flag }
    ensures upper_bound { result < 4 }
{
    match flag {
        Flag::None => 0,
        Flag::Syn => 1,
        Flag::Ack => 2,
    }
}

fn flag_of(n: u32) -> Flag
    ensures { result ≡ flag_of n }
{
    match n {
        1 => Flag::Syn,
        2 => Flag::Ack,
        _ => Flag::None,
    }
}

fn state_number(state: State) -> u32
    ensures value { result ≡ state_number state }
    ensures upper_bound { result < 8 }
{
    match state {
        State::Open { acknowledged } => u32::from(acknowledged),
        State::SendClosed => 2,
        State::RecvClosed => 3,
        State::Closed => 4,
    }
}

fn state_of(n: u32) -> State
    ensures { result ≡ state_of n }
{
    match n {
        0 => State::Open {
            acknowledged: false,
        },
        1 => State::Open { acknowledged: true },
        2 => State::SendClosed,
        3 => State::RecvClosed,
        _ => State::Closed,
    }
}

// The flag, the state and the waits as one number.
fn marks(s: Stream) -> u32
    ensures { result ≡ marks s }
{
    flag_number(s.flag)
        + 4 * state_number(s.state)
        + 32 * u32::from(s.reader)
        + 64 * u32::from(s.writer)
}

fn stream_of(cells: &[u64; ROW]) -> Stream
    ensures { result ≡ stream_of cells.now }
{
    let m = high(cells[0]);
    Stream {
        id: StreamId(low(cells[0])),
        flag: flag_of(m % 4),
        state: state_of(m / 4 % 8),
        reader: m / 32 % 2 == 1,
        writer: m / 64 % 2 == 1,
        flow: FlowController {
            last_window_update: cells[1],
            receive_window: low(cells[2]),
            max_receive_window: high(cells[2]),
            send_window: low(cells[3]),
        },
    }
}

fn queue_of(cells: &[u64; ROW]) -> Queue
    ensures { result ≡ queue_of cells.now }
{
    Queue {
        head: low(cells[4]),
        tail: high(cells[4]),
        from: low(cells[5]),
        unread: high(cells[5]),
    }
}

// The row that a key and six cells say.
pub(crate) fn unpack(key: u64, cells: &[u64; ROW]) -> Row
    ensures { result ≡ row_of key cells.now }
{
    Row {
        held: 0 < key,
        listed: 1 < key,
        stream: stream_of(cells),
        queue: queue_of(cells),
    }
}

fn is_own(mode: Mode, id: StreamId) -> bool
    ensures { result ≡ is_own mode id }
{
    match mode {
        Mode::Client => id.is_client(),
        Mode::Server => id.is_server(),
    }
}

impl Row {
    // A slot that is not in use.
    pub fn blank() -> Self
        ensures { result ≡ blank }
    {
        Row {
            held: false,
            listed: false,
            stream: Stream {
                id: StreamId(0),
                flag: Flag::None,
                state: State::Open {
                    acknowledged: false,
                },
                reader: false,
                writer: false,
                flow: FlowController {
                    last_window_update: 0,
                    receive_window: 0,
                    max_receive_window: 0,
                    send_window: 0,
                },
            },
            queue: chunks::empty(),
        }
    }

    pub(crate) fn key(self) -> u64
        ensures { result ≡ key_of self }
    {
        if self.listed {
            return u64::from(self.stream.id.0) + 2;
        }
        u64::from(self.held)
    }

    // Writes the row's six cells. Lent as an array they would say nothing afterwards, and an own array copied in costs 21 instructions.
    pub(crate) fn pack(self, cells: &mut [u64])
        requires { length cells.old ≡ 6 }
        ensures { cells.new ≡ cells_of self }
    {
        let Row { stream, queue, .. } = self;
        let flow = stream.flow;
        *cells.as_mut_array().unwrap() = [
            both(stream.id.0, marks(stream)),
            flow.last_window_update,
            both(flow.receive_window, flow.max_receive_window),
            u64::from(flow.send_window),
            both(queue.head, queue.tail),
            both(queue.from, queue.unread),
        ];
    }

    // Whether it is a stream of our own in the table, Open and unacknowledged.
    pub(crate) fn is_unacknowledged(self, mode: Mode) -> bool
        ensures { result ≡ is_unacknowledged mode self }
    {
        // The state before the parity: the other order makes a count of a table take 1.9 times as long.
        self.listed && self.stream.state.is_pending_ack() && is_own(mode, self.stream.id)
    }

    // The row after the connection's end: out of the table, and nobody waits.
    pub fn end(self) -> Self
        ensures { result ≡ end_row self }
    {
        let stream = Stream {
            state: if self.listed {
                State::Closed
            } else {
                self.stream.state
            },
            reader: false,
            writer: false,
            ..self.stream
        };
        Row {
            listed: false,
            stream,
            ..self
        }
    }
}
