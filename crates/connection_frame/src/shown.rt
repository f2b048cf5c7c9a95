// What a frame's handler is shown of the connection and of the table, and what it decides.
ghost use Rattle.std.specs.Prelude.{◌≡◌};
ghost use Rattle.handlers.specs.Perform.{wakes_open};
ghost use Rattle.connection_frame.specs.Shown.{seen_at, vacancy_for, limits_in, decided};

use connection::Connection;
use frame::header::{ACK, Header, SYN};
use handlers::{Action, Known, Limits};
use rules::Slot;
use table::row::Row;

// The frame's stream after its ACK step, and the row that holds it.
#[derive(Clone, Copy, Debug, PartialEq, Eq)]
pub struct Seen {
    pub known: Option<Known>,
    pub row: Row,
}

// What the frame does, and the row of its stream.
#[derive(Clone, Copy, Debug, PartialEq, Eq)]
pub struct Decided {
    pub row: Row,
    pub action: Action,
}

fn look(table: &[u64], k: u32, found: Option<Slot>, header: Header) -> Seen
    ensures { result ≡ seen_at table.now k found header }
{
    let Some(slot) = found else {
        return Seen {
            known: None,
            row: Row::blank(),
        };
    };
    let row = table::load(table, k, slot);
    let stream = handlers::acked(header, row.stream);
    Seen {
        known: Some(Known { slot, stream }),
        row,
    }
}

// The lowest free slot, looked for only where the frame may make a stream.
fn vacancy(table: &[u64], k: u32, header: Header) -> Option<Slot>
    ensures { result ≡ vacancy_for table.now k header }
{
    if header.flags.contains(SYN) {
        table::lowest_free(table, k)
    } else {
        None
    }
}

fn limits(c: Connection) -> Limits
    ensures { result ≡ limits_in c }
{
    Limits {
        mode: c.config.mode,
        max_num_streams: c.config.max_num_streams,
        listed: c.memory.listed,
        room: c.memory.room(),
    }
}

// Whether the frame's ACK wakes an open that waits.
fn woken(waits: bool, header: Header) -> bool
    ensures { result ≡ wakes_open waits header }
{
    header.flags.contains(ACK) && waits
}

// What a Data frame or a WindowUpdate does, whose stream was found there.
pub(crate) fn decide(
    c: Connection,
    table: &[u64],
    found: Option<Slot>,
    header: Header,
    time: u64,
) -> Decided
    ensures { result ≡ decided c table.now found header time }
{
    let k = c.memory.slots;
    let Seen { known, row } = look(table, k, found, header);
    let woke = woken(c.open_wait, header);
    let vacancy = vacancy(table, k, header);
    Decided {
        row,
        action: handlers::on_stream(limits(c), woke, known, vacancy, header, time),
    }
}
