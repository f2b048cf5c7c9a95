// Write, close, tick and peer gone: each is the rules' step of document 01.
#![tactic(auto)]

ghost use Rattle.std.specs.Prelude.{◌≡◌, List, ℕ, length};
ghost use Rattle.rules.specs.Step.{gone, tick, write, close};
ghost use Rattle.memory.specs.Counts.{table_fits};
ghost use Rattle.connection.specs.Promises.{Promised, Gives};
ghost use Rattle.connection_write.specs.Given.{sent_sized, Carries};
ghost use Rattle.connection_write.specs.Parts.{Keeps, Writes, done_of};

use connection::{Connection, Done};
use frame::header::HEADER_SIZE;
use handlers::calls::{self, StreamStep};
use rules::{Reply, Slot};
use table::row::Row;

// Whether the lent table has its size, and the lent header twelve bytes.
fn sized(c: Connection, table: usize, sent: usize) -> bool
    ensures { result ≡ sent_sized c table sent }
{
    memory::table_fits(c.memory.slots, table) && sent == HEADER_SIZE
}

// Gives the answer, and puts the stream back at its slot. `row` is what the slot holds.
fn keep(
    c: Connection,
    table: &mut [u64],
    sent: &mut [u8],
    slot: Slot,
    row: Row,
    step: StreamStep,
) -> Done
    ensures { Keeps c table.old sent.old slot.0 row step result table.new sent.new }
{
    let StreamStep { stream, answer } = step;
    connection::put(sent, answer.sent);
    let memory = c.memory.store(table, slot, row, stream, row.listed);
    Done {
        connection: Connection { memory, ..c },
        answer,
    }
}

// As `write`, with a refusal told apart.
fn try_write(
    c: Connection,
    table: &mut [u64],
    sent: &mut [u8],
    slot: Slot,
    given: &[u8],
    time: u64,
) -> Result<Done, Reply>
    ensures { Writes (sent_sized c (length table.old) (length sent.old)) c table.old time slot.0 given.now (done_of c result) table.new sent.old sent.new }
{
    let fits = sized(c, table.len(), sent.len());
    let row = connection::held_row(c.memory.slots, table, fits, slot, time)?;
    let step = calls::on_write(c.ended, slot, row.stream, given.len(), c.config.split)?;
    Ok(keep(c, table, sent, slot, row, step))
}

// Writes to the handle's stream. The body of the header given is the first bytes of `given` that its length counts.
pub fn write(
    c: Connection,
    table: &mut [u64],
    sent: &mut [u8],
    slot: Slot,
    given: &[u8],
    time: u64,
) -> Done
    ensures by_index { (l p : List ℕ) → Promised (sent_sized c (length table.old) (length sent.old)) c table.old l p (write time slot.0 given.now) result table.new l p }
    ensures gives { Gives result sent.old sent.new }
    ensures carries { Carries (sent_sized c (length table.old) (length sent.old)) c table.old time slot.0 given.now result }
{
    let written = try_write(c, table, sent, slot, given, time);
    written.unwrap_or_else(|reply| connection::refuse(c, reply))
}

// Closes the handle's stream for writing.
pub fn close(c: Connection, table: &mut [u64], sent: &mut [u8], slot: Slot, time: u64) -> Done
    ensures by_index { (l p : List ℕ) → Promised (sent_sized c (length table.old) (length sent.old)) c table.old l p (close time slot.0) result table.new l p }
    ensures gives { Gives result sent.old sent.new }
{
    let fits = sized(c, table.len(), sent.len());
    match connection::held_row(c.memory.slots, table, fits, slot, time) {
        Ok(row) => keep(c, table, sent, slot, row, calls::on_close(slot, row.stream)),
        Err(reply) => connection::refuse(c, reply),
    }
}

// Time has come to `time`.
pub fn tick(c: Connection, table: &[u64], sent: &mut [u8], time: u64) -> Done
    ensures by_index { (l p : List ℕ) → Promised (sent_sized c (length table.now) (length sent.old)) c table.now l p (tick time) result table.now l p }
    ensures gives { Gives result sent.old sent.new }
{
    let fits = sized(c, table.len(), sent.len());
    if let Err(reply) = connection::judge(fits, c.ended, time) {
        return connection::refuse(c, reply);
    }
    let step = calls::on_tick(c.rtt, time);
    connection::put(sent, step.answer.sent);
    connection::pinged(c, step)
}

// The peer is gone: the connection ends.
pub fn peer_gone(c: Connection, table: &mut [u64], time: u64) -> Done
    ensures { (l p : List ℕ) → Promised (table_fits c.memory.slots (length table.old)) c table.old l p (gone time) result table.new l p }
{
    let fits = memory::table_fits(c.memory.slots, table.len());
    match connection::judge(fits, c.ended, time) {
        Ok(()) => connection::drop_all_streams(c, table, Reply::Closed),
        Err(reply) => connection::refuse(c, reply),
    }
}
