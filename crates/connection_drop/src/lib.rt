// The drop of a handle: the rules' step of document 01.
#![tactic(auto)]

ghost use Rattle.std.specs.Prelude.{◌≡◌, List, ℕ, length};
ghost use Rattle.rules.specs.Step.{drop};
ghost use Rattle.connection.specs.Promises.{Promised, Gives};
ghost use Rattle.connection_drop.specs.Given.{sized};
ghost use Rattle.connection_drop.specs.Parts.{Removes, Releases};

use connection::{Applied, Connection, Done};
use frame::header::HEADER_SIZE;
use handlers::Answer;
use handlers::calls::{self, StreamStep};
use memory::Memory;
use rules::{Reply, Slot};
use table::row::Row;

// Whether the lent table and links have their sizes, and the lent header twelve bytes.
fn sized(c: Connection, table: usize, links: usize, sent: usize) -> bool
    ensures { result ≡ sized c table links sent }
{
    memory::links_fit(c.memory.slots, c.memory.pool, table, links) && sent == HEADER_SIZE
}

// Closes the stream found with the handle's id, and takes it from the table.
fn remove(memory: Memory, table: &mut [u64], slot: Slot, found: Option<Slot>) -> Applied
    ensures { Removes memory table.old slot found result table.new }
{
    let Some(place) = found else {
        let answer = Answer {
            slot: Some(slot),
            ..connection::bare(Reply::Done, false)
        };
        return Applied { memory, answer };
    };
    let row = table::load(table, memory.slots, place);
    let StreamStep { stream, answer } = calls::on_drop(slot, row.stream);
    let memory = memory.store(table, place, row, stream, false);
    Applied { memory, answer }
}

// Drops a handle that is held. `row` is what its slot holds.
// Two slices: a struct of them owes names, lengths and untouched fields in each contract, and is no plainer.
fn release(c: Connection, table: &mut [u64], links: &mut [u32], slot: Slot, row: Row) -> Done
    ensures { Releases c table.old links.old slot row result table.new links.new }
{
    let growth = row.stream.flow.growth_returned(c.growth);
    let found = table::find(table, c.memory.slots, row.stream.id);
    let Applied { memory, answer } = remove(c.memory, table, slot, found);
    // A store keeps what a slot says, not which blocks say it.
    let mine = table::load(table, memory.slots, slot);
    let memory = memory.free(table, links, slot, mine);
    Done {
        connection: Connection {
            growth,
            memory,
            ..c
        },
        answer,
    }
}

// Drops a handle: its slot is free, its growth is given back, and no stream of its id stays in the table.
pub fn on_drop_stream(
    c: Connection,
    table: &mut [u64],
    links: &mut [u32],
    sent: &mut [u8],
    slot: Slot,
    time: u64,
) -> Done
    ensures by_index { (p : List ℕ) → Promised (sized c (length table.old) (length links.old) (length sent.old)) c table.old links.old p (drop time slot.0) result table.new links.new p }
    ensures gives { Gives result sent.old sent.new }
{
    let fits = sized(c, table.len(), links.len(), sent.len());
    match connection::held_row(c.memory.slots, table, fits, slot, time) {
        Ok(row) => {
            let done = release(c, table, links, slot, row);
            connection::put(sent, done.answer.sent);
            done
        }
        Err(reply) => connection::refuse(c, reply),
    }
}
