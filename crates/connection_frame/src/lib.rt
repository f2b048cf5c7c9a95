// A frame from the peer: its header is read, a handler decides, and lent memory follows.
#![tactic(auto)]

mod shown;

ghost use Rattle.std.specs.Prelude.{◌≡◌, length};
ghost use Rattle.connection.specs.Promises.{Promised, Gives};
ghost use Rattle.handlers.specs.Perform.{waits_on};
ghost use Rattle.rules.specs.Step.{frame};
ghost use Rattle.connection_frame.specs.Handles.{Applies, settled, HandlesStream, HandlesPing, HandlesType, HandlesDecoded, sized};

use crate::shown::Decided;
use connection::{Applied, Connection, Done};
use frame::header;
use frame::header::{HEADER_SIZE, Header, HeaderDecodeError, Tag};
use handlers::{Action, Answer};
use memory::Memory;
use rules::Reply;
use table::row::Row;

// Does what the action says. `row` is what its slot holds.
// Three slices: a struct of them owes names, lengths and untouched fields in each contract, and is no plainer.
fn apply(
    memory: Memory,
    table: &mut [u64],
    links: &mut [u32],
    pool: &mut [u8],
    row: Row,
    action: Action,
    body: &[u8],
) -> Applied
    ensures { Applies memory table.old links.old pool.old row action body.now result table.new links.new pool.new }
{
    match action {
        Action::Refuse(reply) => Applied {
            memory,
            answer: connection::bare(reply, false),
        },
        Action::Answer(answer) => Applied { memory, answer },
        Action::Store(slot, stream, listed, answer) => Applied {
            memory: memory.store(table, slot, row, stream, listed),
            answer,
        },
        Action::Queue(slot, stream, listed, answer) => Applied {
            memory: memory.feed(table, links, pool, slot, row, stream, listed, body),
            answer,
        },
        Action::New(slot, stream, answer) => Applied {
            memory: memory.make(table, links, pool, slot, stream, body),
            answer,
        },
    }
}

// An open that the answer wakes waits no more.
fn waits_on(waits: bool, answer: Answer) -> bool
    ensures { result ≡ waits_on waits answer }
{
    waits && !answer.wakes.opener
}

// The connection over the memory that an action leaves.
fn settle(c: Connection, applied: Applied) -> Done
    ensures { result ≡ settled c applied }
{
    let Applied { memory, answer } = applied;
    Done {
        connection: Connection {
            memory,
            open_wait: waits_on(c.open_wait, answer),
            ..c
        },
        answer,
    }
}

// A Data frame or a WindowUpdate, with a body as long as its header says.
fn on_stream(
    c: Connection,
    table: &mut [u64],
    links: &mut [u32],
    pool: &mut [u8],
    header: Header,
    body: &[u8],
    time: u64,
) -> Done
    ensures { HandlesStream c table.old links.old pool.old header body.now time result table.new links.new pool.new }
{
    let found = table::find(table, c.memory.slots, header.stream_id);
    let Decided { row, action } = shown::decide(c, table, found, header, time);
    settle(c, apply(c.memory, table, links, pool, row, action, body))
}

// A Ping, which touches the pings alone.
fn on_ping(c: Connection, table: &[u64], header: Header, time: u64) -> Done
    ensures { HandlesPing c table.now header time result }
{
    let in_table = table::find(table, c.memory.slots, header.stream_id).is_some();
    let pong = handlers::ping::on_ping(c.rtt, in_table, header, time, c.config.interval);
    connection::pinged(c, pong)
}

// A frame whose body is as long as its header says, by its type.
fn on_type(
    c: Connection,
    table: &mut [u64],
    links: &mut [u32],
    pool: &mut [u8],
    header: Header,
    body: &[u8],
    time: u64,
) -> Done
    ensures { HandlesType c table.old links.old pool.old header body.now time result table.new links.new pool.new }
{
    match header.tag {
        Tag::Data | Tag::WindowUpdate => on_stream(c, table, links, pool, header, body, time),
        Tag::Ping => on_ping(c, table, header, time),
        Tag::GoAway => connection::drop_all_streams(c, table, Reply::Closed),
    }
}

// What the twelve bytes were found to be: an unknown version or type, which ends the connection, or a header, refused where the body is not
// as long as it says.
fn on_decoded(
    c: Connection,
    table: &mut [u64],
    links: &mut [u32],
    pool: &mut [u8],
    decoded: Result<Header, HeaderDecodeError>,
    body: &[u8],
    time: u64,
) -> Done
    ensures { HandlesDecoded c table.old links.old pool.old decoded body.now time result table.new links.new pool.new }
{
    match decoded {
        Err(HeaderDecodeError::Size) => connection::refuse(c, Reply::Size),
        Err(HeaderDecodeError::Version(_)) => {
            connection::drop_all_streams(c, table, Reply::Version)
        }
        Err(HeaderDecodeError::Type(_)) => connection::drop_all_streams(c, table, Reply::Type),
        Ok(header) => {
            if body.len() == handlers::body_length(header) as usize {
                on_type(c, table, links, pool, header, body, time)
            } else {
                connection::refuse(c, Reply::Body)
            }
        }
    }
}

// Whether all that is lent has its size.
fn sized(c: Connection, table: usize, links: usize, pool: usize, sent: usize, head: usize) -> bool
    ensures { result ≡ sized c table links pool sent head }
{
    connection::sized(c, table, links, pool, sent) && head == HEADER_SIZE
}

// A frame from the peer, its twelve bytes in `head`. The header that it may call for is given into `sent`.
pub fn on_frame(
    c: Connection,
    table: &mut [u64],
    links: &mut [u32],
    pool: &mut [u8],
    sent: &mut [u8],
    head: &[u8],
    body: &[u8],
    time: u64,
) -> Done
    ensures promised { Promised (sized c (length table.old) (length links.old) (length pool.old) (length sent.old) (length head.now)) c table.old links.old pool.old (frame time head.now body.now) result table.new links.new pool.new }
    ensures gives { Gives result sent.old sent.new }
{
    let fits = sized(
        c,
        table.len(),
        links.len(),
        pool.len(),
        sent.len(),
        head.len(),
    );
    if let Err(reply) = connection::judge(fits, c.ended, time) {
        return connection::refuse(c, reply);
    }
    let done = on_decoded(c, table, links, pool, header::decode(head), body, time);
    connection::put(sent, done.answer.sent);
    done
}
