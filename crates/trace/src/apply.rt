// The call that an event stands for.
ghost use Rattle.std.specs.Prelude.{◌≡◌, ◌≤◌, length};
ghost use Rattle.trace_events.specs.Calls.{Lies};
ghost use Rattle.trace.specs.Applies.{slot_of, bytes_read, Applies};

use crate::SCRATCH;
use connection::{Connection, Done};
use frame::header::HEADER_SIZE;
use rules::Slot;
use trace_events::{Event, Kind};

// The slot of this number, or one that no connection has: no None, for the calls take a slot, and answer 9 for that one.
fn slot_of(n: u64) -> Slot
    ensures { result.0 ≡ slot_of n }
{
    Slot(u32::try_from(n).unwrap_or(u32::MAX))
}

// How many bytes read the line of an event of this kind shows.
pub(crate) fn bytes_read(kind: Kind, value: Option<u32>) -> u32
    ensures { result ≡ bytes_read kind value }
{
    match kind {
        Kind::Read { .. } => value.unwrap_or(0),
        _ => 0,
    }
}

// Makes the call that an event stands for.
pub(crate) fn apply(
    c: Connection,
    table: &mut [u64],
    links: &mut [u32],
    pool: &mut [u8],
    sent: &mut [u8; HEADER_SIZE],
    bytes: &mut [u8; SCRATCH],
    src: &[u8],
    event: Event,
) -> Done
    requires { Lies event.next event.kind × (event.next ≤ length src.now) }
    ensures { Applies c table.old links.old pool.old sent.old src.now event result table.new links.new pool.new sent.new bytes.new }
{
    let Event { now, next, kind } = event;
    match kind {
        Kind::Tick => connection_write::tick(c, table, sent, now),
        Kind::Frame { head, body } => {
            let front = &src[head..body];
            let rest = &src[body..next];
            connection_frame::on_frame(c, table, links, pool, sent, front, rest, now)
        }
        Kind::Open => connection_open::open(c, table, links, pool, now),
        Kind::Read { slot, count } => {
            let room = &mut bytes[..count];
            connection_read::read(c, table, links, pool, sent, slot_of(slot), room, now)
        }
        Kind::Write { slot, start } => {
            connection_write::write(c, table, sent, slot_of(slot), &src[start..next], now)
        }
        Kind::Close { slot } => connection_write::close(c, table, sent, slot_of(slot), now),
        Kind::Drop { slot } => {
            connection_drop::on_drop_stream(c, table, links, sent, slot_of(slot), now)
        }
        Kind::Gone => connection_write::peer_gone(c, table, now),
    }
}
