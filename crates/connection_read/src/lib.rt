// Reading: the window step, the oldest unread bytes, and what the read answers.
#![tactic(auto)]

ghost use Rattle.std.specs.Prelude.{◌≡◌, ◌≤◌, length};
ghost use Rattle.rules.specs.Replies.{count_of};
ghost use Rattle.rules.specs.Step.{read};
ghost use Rattle.connection.specs.Promises.{sized, Promised};
ghost use Rattle.connection_read.specs.Promises.{step_of, Takes, ReadsRow, Outputs};

use connection::{Connection, Done};
use flow_control::Conditions;
use handlers::ReadStep;
use rules::Slot;
use table::row::Row;

// The window step, with the bytes that are unread before the read, and what the read then does.
fn step_of(c: Connection, slot: Slot, row: Row, asked: usize, time: u64) -> ReadStep
    ensures { result ≡ step_of c slot row asked time }
{
    let updated = row.stream.send_window_update(Conditions {
        unread: row.queue.unread,
        time,
        round_trip: c.rtt.get(),
        limit: c.config.limit,
        max_num_streams: c.config.max_num_streams,
        growth: c.growth,
    });
    handlers::read::on_read(slot, updated, row.queue.unread, asked)
}

// Moves as many bytes as the answer's value counts, and keeps its stream and growth. `row` is what the slot holds.
fn take(
    c: Connection,
    table: &mut [u64],
    links: &mut [u32],
    pool: &[u8],
    slot: Slot,
    row: Row,
    step: ReadStep,
    out: &mut [u8],
) -> Done
    requires { count_of step.answer.value ≤ length out.old }
    ensures { Takes c table.old links.old pool.now slot.0 row step out.old result table.new links.new out.new }
{
    let n = step.answer.value.unwrap_or(0) as usize;
    let memory = c
        .memory
        .drain(table, links, pool, slot, row, step.stream, &mut out[..n]);
    Done {
        connection: Connection {
            growth: step.growth,
            memory,
            ..c
        },
        answer: step.answer,
    }
}

// A read from a held slot. `row` is what it holds.
fn read_row(
    c: Connection,
    table: &mut [u64],
    links: &mut [u32],
    pool: &[u8],
    slot: Slot,
    row: Row,
    out: &mut [u8],
    time: u64,
) -> Done
    ensures { ReadsRow c table.old links.old pool.now slot.0 row out.old time result table.new links.new out.new }
{
    if handlers::read::is_shut(c.ended, c.config.read_after_close) {
        return Done {
            connection: c,
            answer: handlers::read::nothing_read(slot),
        };
    }
    let step = step_of(c, slot, row, out.len(), time);
    take(c, table, links, pool, slot, row, step, out)
}

// Reads the oldest unread bytes of a handle's stream into `out`, and gives a window update into `sent` where one is due.
pub fn read(
    c: Connection,
    table: &mut [u64],
    links: &mut [u32],
    pool: &[u8],
    sent: &mut [u8],
    slot: Slot,
    out: &mut [u8],
    time: u64,
) -> Done
    ensures promised { Promised (sized c (length table.old) (length links.old) (length pool.now) (length sent.old)) c table.old links.old pool.now (read time slot.0 (length out.old)) result table.new links.new pool.now }
    ensures outputs { Outputs (sized c (length table.old) (length links.old) (length pool.now) (length sent.old)) c table.old links.old pool.now time slot.0 out.old sent.old result out.new sent.new }
{
    let fits = connection::sized(c, table.len(), links.len(), pool.len(), sent.len());
    match connection::held_row(c.memory.slots, table, fits, slot, time) {
        Err(reply) => connection::refuse(c, reply),
        Ok(row) => {
            let done = read_row(c, table, links, pool, slot, row, out, time);
            connection::put(sent, done.answer.sent);
            done
        }
    }
}
