// A run over a trace: whole events are read, applied and written as lines, as far as the input, the allowance and the room go.
#![tactic(auto)]

mod apply;
mod ends;

ghost use Rattle.std.specs.Prelude.{◌≡◌, true, ◌+◌, ◌-◌, ◌≤◌, ◌<◌, length};
ghost use Rattle.trace_lines.specs.Writing.{Stores, longest_line};
ghost use Rattle.trace.specs.Applies.{sized};
ghost use Rattle.trace.specs.declared.Stop.TheVariants.{Wrong};
ghost use Rattle.trace.specs.Turns.{header_size, shown_line, stop_of, Turns, stopped_at, Runs, Untouched};

use connection::Connection;
pub use ends::{Begun, Sizes, begin, finish};
use frame::header::{HEADER_SIZE, Header};
use handlers::Answer;
use rules::Setting;
use trace_events::{Kind, Unreadable};
use trace_lines::{LONGEST_LINE, Shown};

// Why a trace stopped: the input ends before or within an event; the next event is unreadable; the allowance is used up; there
// is less room than the longest line takes; a setting is wrong; or something lent is of the wrong size, and nothing was applied.
#[derive(Clone, Copy, Debug, PartialEq, Eq)]
pub enum Stop {
    Short,
    Bad,
    Spent,
    Full,
    Wrong(Setting),
    Size,
}

impl From<Unreadable> for Stop {
    ghost from_gives = { λ e result. result ≡ stop_of e };

    fn from(e: Unreadable) -> Stop {
        match e {
            Unreadable::Short => Stop::Short,
            Unreadable::Bad => Stop::Bad,
        }
    }
}

impl From<Setting> for Stop {
    ghost from_gives = { λ setting stop. stop ≡ Wrong setting };

    fn from(setting: Setting) -> Stop {
        Stop::Wrong(setting)
    }
}

// Where a run stands: the place in the input, the events applied so far, and the place in the room for lines.
#[derive(Clone, Copy, Debug, PartialEq, Eq)]
pub struct Place {
    pub at: usize,
    pub applied: u64,
    pub put: usize,
}

// The connection after a run, where the run stands, and why it stopped there.
#[derive(Clone, Copy, Debug, PartialEq, Eq)]
pub struct Report {
    pub connection: Connection,
    pub place: Place,
    pub stop: Stop,
}

// The most bytes that an event reads.
pub const SCRATCH: usize = 16384;

// Whether all that is lent has its size.
fn sized(c: Connection, table: usize, links: usize, pool: usize, sent: usize, bytes: usize) -> bool
    ensures { result ≡ sized c table links pool sent bytes }
{
    connection::sized(c, table, links, pool, sent) && bytes == SCRATCH
}

// How many of the twelve lent bytes an answer gives.
fn header_size(sent: Option<Header>) -> usize
    ensures value { result ≡ header_size sent }
    ensures upper_bound { result ≤ 12 }
{
    if sent.is_some() { HEADER_SIZE } else { 0 }
}

// Writes the line of an event of this kind where there is room for the longest one, and returns the place after it.
fn show(
    kind: Kind,
    answer: Answer,
    sent: &[u8; HEADER_SIZE],
    bytes: &[u8; SCRATCH],
    number: u64,
    out: &mut [u8],
    put: usize,
) -> usize
    requires { put + longest_line ≤ length out.old }
    ensures stores { Stores out.old put (shown_line number kind answer sent.now bytes.now) out.new result }
    ensures upper_bound { result ≤ length out.old }
{
    let header = &sent[..header_size(answer.sent)];
    let count = apply::bytes_read(kind, answer.value) as usize;
    let read = &bytes[..count.min(bytes.len())];
    let shown = Shown {
        number,
        reply: answer.reply,
        slot: answer.slot,
        value: answer.value,
        wakes: answer.wakes,
    };
    trace_lines::line(out, put, shown, header, read).unwrap_or(put)
}

// Applies the event at a place and writes its line: the connection after it, and where the run stands then; or why the event was
// not applied.
fn turn(
    c: Connection,
    table: &mut [u64],
    links: &mut [u32],
    pool: &mut [u8],
    sent: &mut [u8; HEADER_SIZE],
    bytes: &mut [u8; SCRATCH],
    src: &[u8],
    out: &mut [u8],
    place: Place,
) -> Result<(Connection, Place), Stop>
    requires { place.applied < 18446744073709551615 }
    ensures { Turns c table.old links.old pool.old src.now out.old place result table.new links.new pool.new out.new }
{
    let event = trace_events::read_event(src, place.at)?;
    let left = trace_lines::room_left(out.len(), place.put);
    if left < LONGEST_LINE {
        return Err(Stop::Full);
    }
    let done = apply::apply(c, table, links, pool, sent, bytes, src, event);
    let applied = place.applied + 1;
    let put = show(
        event.kind,
        done.answer,
        sent,
        bytes,
        applied,
        out,
        place.put,
    );
    let after = Place {
        at: event.next,
        applied,
        put,
    };
    Ok((done.connection, after))
}

// What a run that stops here returns.
fn stopped(connection: Connection, place: Place, stop: Stop) -> Report
    ensures { result ≡ stopped_at connection place stop }
{
    Report {
        connection,
        place,
        stop,
    }
}

// Applies events while fewer than `allowance` are applied. All that is lent has its size.
fn go(
    c: Connection,
    table: &mut [u64],
    links: &mut [u32],
    pool: &mut [u8],
    sent: &mut [u8; HEADER_SIZE],
    bytes: &mut [u8; SCRATCH],
    src: &[u8],
    out: &mut [u8],
    place: Place,
    allowance: u64,
) -> Report
    ensures { Runs true c table.old links.old pool.old src.now out.old place allowance result table.new links.new pool.new out.new }
{
    let mut connection = c;
    let mut here = place;
    while here.applied < allowance {
        match turn(connection, table, links, pool, sent, bytes, src, out, here) {
            Err(stop) => return stopped(connection, here, stop),
            Ok((after, next)) => {
                connection = after;
                here = next;
            }
        }
    }
    stopped(connection, here, Stop::Spent)
}

// Applies the events from a place on while fewer than `allowance` are applied, and writes their lines. `sent` and `bytes` are
// lent for a header and for the bytes that an event reads.
pub fn run(
    c: Connection,
    table: &mut [u64],
    links: &mut [u32],
    pool: &mut [u8],
    sent: &mut [u8],
    bytes: &mut [u8],
    src: &[u8],
    out: &mut [u8],
    place: Place,
    allowance: u64,
) -> Report
    ensures runs { Runs (sized c (length table.old) (length links.old) (length pool.old) (length sent.old) (length bytes.old)) c table.old links.old pool.old src.now out.old place allowance result table.new links.new pool.new out.new }
    ensures untouched { Untouched (sized c (length table.old) (length links.old) (length pool.old) (length sent.old) (length bytes.old)) sent.old bytes.old sent.new bytes.new }
{
    if !sized(
        c,
        table.len(),
        links.len(),
        pool.len(),
        sent.len(),
        bytes.len(),
    ) {
        return stopped(c, place, Stop::Size);
    }
    let (Some(sent), Some(bytes)) = (sent.as_mut_array(), bytes.as_mut_array()) else {
        // Both have their size.
        unreachable!();
    };
    go(
        c, table, links, pool, sent, bytes, src, out, place, allowance,
    )
}
