// What an open does to the connection and to lent memory.
ghost use Rattle.std.specs.Prelude.{◌≡◌};
ghost use Rattle.connection_open.specs.Open.{decided, opened, Acts};

use connection::{Connection, Done};
use frame::header::StreamId;
use handlers::{Answer, Opening};
use rules::{Reply, Slot};

// What the open is to do.
pub(crate) fn decide(c: Connection, table: &[u64], time: u64) -> Opening
    ensures { result ≡ decided c table.now time }
{
    handlers::open::open_action(
        c.memory.listed,
        c.config.max_num_streams,
        table::ack_backlog(table, c.memory.slots, c.config.mode),
        c.next_id,
        table::lowest_free(table, c.memory.slots),
        time,
    )
}

// The answer that gives a new stream's slot and id.
fn opened(slot: Slot, id: StreamId) -> Answer
    ensures { result ≡ opened slot id.0 }
{
    Answer {
        slot: Some(slot),
        value: Some(id.0),
        ..connection::bare(Reply::Done, false)
    }
}

// Does what the opening says.
#[tactic(auto, using(crate::proofs::Opening::refusing, crate::proofs::Opening::waiting))]
pub(crate) fn act(
    c: Connection,
    table: &mut [u64],
    links: &mut [u32],
    pool: &mut [u8],
    opening: Opening,
) -> Done
    ensures { Acts c table.old links.old pool.old opening result table.new links.new pool.new }
{
    match opening {
        Opening::End(reply) => connection::drop_all_streams(c, table, reply),
        Opening::Wait => Done {
            connection: Connection {
                open_wait: true,
                ..c
            },
            answer: connection::bare(Reply::Wait, false),
        },
        Opening::Refuse(reply) => connection::refuse(c, reply),
        Opening::New(slot, stream, next_id) => {
            let memory = c.memory.make(table, links, pool, slot, stream, b"");
            Done {
                connection: Connection {
                    next_id,
                    memory,
                    ..c
                },
                answer: opened(slot, stream.id),
            }
        }
    }
}
