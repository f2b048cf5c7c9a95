// The connection: what it holds, and what its calls share. The calls themselves stand in the crates above.
#![tactic(auto)]

ghost use Rattle.std.specs.Prelude.{◌≡◌};
ghost use Rattle.connection.specs.Parts.{pinged, gate_of, held_in, handle_of};
ghost use Rattle.connection.specs.Promises.{sized, bare_answer, refused, sent_after, Over};

use frame::header;
use frame::header::{HEADER_SIZE, Header};
use handlers::{Answer, PingStep};
use memory::Memory;
use rtt::Rtt;
use rules::{LAST_TIME, Mode, NOBODY, Reply, Slot, Woke};
use table::row::Row;

// The settings, but for K and P, which stand with the memory.
#[derive(Clone, Copy, Debug, PartialEq, Eq)]
pub struct Terms {
    pub mode: Mode,
    pub max_num_streams: u32,
    pub limit: u64,
    pub read_after_close: bool,
    pub split: u32,
    pub interval: u64,
    pub first_time: u64,
    pub first_id: u32,
}

// The marks come last: a gap before a wide field would be copied by pieces at every call.
#[derive(Clone, Copy, Debug, PartialEq, Eq)]
pub struct Connection {
    pub config: Terms,
    pub rtt: Rtt,
    pub growth: u64,
    pub memory: Memory,
    pub next_id: u32,
    pub open_wait: bool,
    pub ended: bool,
}

// The connection after a call, and what the call answers.
#[derive(Clone, Copy, Debug, PartialEq, Eq)]
pub struct Done {
    pub connection: Connection,
    pub answer: Answer,
}

// The memory after what a call does to it, and what the call answers.
#[derive(Clone, Copy, Debug, PartialEq, Eq)]
pub struct Applied {
    pub memory: Memory,
    pub answer: Answer,
}

// Whether all that is lent has its size, with twelve bytes for a header.
pub fn sized(c: Connection, table: usize, links: usize, pool: usize, sent: usize) -> bool
    ensures { result ≡ sized c table links pool sent }
{
    memory::fits(c.memory.slots, c.memory.pool, table, links, pool) && sent == HEADER_SIZE
}

// The connection with the pings that a tick or a Ping leaves, and what it answers.
pub fn pinged(c: Connection, step: PingStep) -> Done
    ensures { result ≡ pinged c step }
{
    Done {
        connection: Connection { rtt: step.rtt, ..c },
        answer: step.answer,
    }
}

// An answer of the reply alone; `all` says that the connection ended by it.
pub fn bare(reply: Reply, all: bool) -> Answer
    ensures { result ≡ bare_answer reply all }
{
    Answer {
        reply,
        slot: None,
        value: None,
        sent: None,
        wakes: Woke { all, ..NOBODY },
    }
}

// The connection as it was, and the reply that says why.
pub fn refuse(c: Connection, reply: Reply) -> Done
    ensures { result ≡ refused c reply }
{
    Done {
        connection: c,
        answer: bare(reply, false),
    }
}

// Refuses lent memory of a wrong size, then a time above 2^62-1, then an ended connection.
pub fn judge(fits: bool, ended: bool, time: u64) -> Result<(), Reply>
    ensures { result ≡ gate_of fits ended time }
{
    if !fits {
        return Err(Reply::Size);
    }
    if LAST_TIME < time {
        return Err(Reply::Time);
    }
    if ended {
        return Err(Reply::Closed);
    }
    Ok(())
}

// The row of a slot that is held.
fn held(k: u32, table: &[u64], slot: Slot) -> Result<Row, Reply>
    ensures { result ≡ held_in k table.now slot.0 }
{
    if k <= slot.0 {
        return Err(Reply::NotHeld);
    }
    let row = table::load(table, k, slot);
    if row.held {
        Ok(row)
    } else {
        Err(Reply::NotHeld)
    }
}

// The row of a handle that is held, for a call with lent memory of its size and in time. An ended connection has its handles still.
pub fn held_row(k: u32, table: &[u64], fits: bool, slot: Slot, time: u64) -> Result<Row, Reply>
    ensures { result ≡ handle_of fits k table.now slot.0 time }
{
    judge(fits, false, time)?;
    held(k, table, slot)
}

// Writes the header that an answer gives into the twelve lent bytes, and leaves them as they were where it gives none.
pub fn put(sent: &mut [u8], frame: Option<Header>)
    ensures { sent.new ≡ sent_after frame sent.old }
{
    if let Some(header) = frame {
        let _ = header::encode(header, sent);
    }
}

// Ends the connection: every stream in the table is Closed and leaves it, and nobody waits any more.
pub fn drop_all_streams(c: Connection, table: &mut [u64], reply: Reply) -> Done
    ensures { Over c table.old reply result table.new }
{
    let memory = c.memory.end_all(table);
    Done {
        connection: Connection {
            ended: true,
            open_wait: false,
            memory,
            ..c
        },
        answer: bare(reply, true),
    }
}
