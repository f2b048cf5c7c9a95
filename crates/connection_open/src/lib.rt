// The start of a connection, and the streams that it opens.
#![tactic(auto)]

mod acts;

ghost use Rattle.std.specs.Prelude.{◌≡◌, length, Err};
ghost use Rattle.rules.specs.State.{first_own};
ghost use Rattle.rules.specs.Step.{open_stream};
ghost use Rattle.memory.specs.Counts.{fits};
ghost use Rattle.connection.specs.Promises.{Promised};
ghost use Rattle.connection_open.specs.Start.{started, number, Lays, Creates};
ghost use Rattle.connection_open.specs.declared.NotCreated.TheVariants as not_created;

use connection::{Connection, Done, Terms};
use memory::Memory;
use rtt::Rtt;
use rules::{Config, Mode, Setting, Settings};
use std::error::Error;
use std::fmt;

// Why there is no new connection: the first wrong setting, or lent memory of the wrong size.
#[derive(Clone, Copy, Debug, PartialEq, Eq)]
pub enum NotCreated {
    Wrong(Setting),
    Size,
}

// The number of the reply, of a connection that was made too: a `Result` is std's, and can't be given a `From`.
pub fn number(created: Result<Connection, NotCreated>) -> u32
    ensures { result ≡ number created }
{
    match created {
        Ok(_) => 0,
        Err(refusal) => refusal.into(),
    }
}

// The number of a refusal.
impl From<NotCreated> for u32 {
    ghost from_gives = { λ refusal n. n ≡ number (Err refusal) };

    fn from(refusal: NotCreated) -> u32 {
        match refusal {
            NotCreated::Wrong(setting) => u32::from(setting),
            NotCreated::Size => 14,
        }
    }
}

impl From<Setting> for NotCreated {
    ghost from_gives = { λ setting refusal. refusal ≡ not_created.Wrong setting };

    fn from(setting: Setting) -> Self {
        NotCreated::Wrong(setting)
    }
}

impl fmt::Display for NotCreated {
    fn fmt<W: fmt::Write>(&self, f: &mut fmt::Formatter<W>) -> fmt::Result {
        match self {
            NotCreated::Wrong(setting) => write!(f, "wrong setting {setting:?}"),
            NotCreated::Size => f.write_str("lent memory of the wrong size"),
        }
    }
}

impl Error for NotCreated {}

// The id of the first stream that this side opens.
fn first_own(mode: Mode) -> u32
    ensures { result ≡ first_own mode }
{
    match mode {
        Mode::Client => 1,
        Mode::Server => 2,
    }
}

// The connection before its first call.
fn started(config: Config, memory: Memory) -> Connection
    ensures { result ≡ started config memory }
{
    let Config {
        mode,
        max_num_streams,
        limit,
        read_after_close,
        split,
        interval,
        first_time,
        first_id,
        ..
    } = config;
    Connection {
        config: Terms {
            mode,
            max_num_streams,
            limit,
            read_after_close,
            split,
            interval,
            first_time,
            first_id,
        },
        rtt: Rtt::new(first_time, first_id),
        ended: false,
        next_id: first_own(mode),
        open_wait: false,
        growth: 0,
        memory,
    }
}

// Lays out what is lent, where it has its size.
fn lay_out(
    config: Config,
    table: &mut [u64],
    links: &mut [u32],
    pool: &mut [u8],
) -> Result<Connection, NotCreated>
    ensures { Lays config table.old links.old pool.old result table.new links.new pool.new }
{
    if !memory::fits(
        config.slots,
        config.pool,
        table.len(),
        links.len(),
        pool.len(),
    ) {
        return Err(NotCreated::Size);
    }
    let memory = memory::lay_out(table, links, config.slots, config.pool);
    Ok(started(config, memory))
}

// A connection with these settings, in the lent memory.
pub fn new(
    settings: Settings,
    table: &mut [u64],
    links: &mut [u32],
    pool: &mut [u8],
) -> Result<Connection, NotCreated>
    ensures { Creates settings table.old links.old pool.old result table.new links.new pool.new }
{
    let config = settings.check()?;
    lay_out(config, table, links, pool)
}

// Opens a stream of our own.
#[tactic(auto, using(crate::proofs::Opening::shut))]
pub fn open(c: Connection, table: &mut [u64], links: &mut [u32], pool: &mut [u8], time: u64) -> Done
    ensures { Promised (fits c.memory.slots c.memory.pool (length table.old) (length links.old) (length pool.old)) c table.old links.old pool.old (open_stream time) result table.new links.new pool.new }
{
    let fits = memory::fits(
        c.memory.slots,
        c.memory.pool,
        table.len(),
        links.len(),
        pool.len(),
    );
    match connection::judge(fits, c.ended, time) {
        Err(reply) => connection::refuse(c, reply),
        Ok(()) => {
            let opening = acts::decide(c, table, time);
            acts::act(c, table, links, pool, opening)
        }
    }
}
