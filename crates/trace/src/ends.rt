// How a trace starts and ends: its settings and its last line.
ghost use Rattle.std.specs.Prelude.{◌≡◌};
ghost use Rattle.rules.specs.Settings.{checked_within};
ghost use Rattle.trace_events.specs.Format.{settings_at};
ghost use Rattle.trace.specs.Output.{most, sizes_of, judged_as, begun_as, Finishes};

use crate::Stop;
use rules::{Config, Most, Reply, Settings};

// The cells and bytes that settings ask for.
#[derive(Clone, Copy, Debug, PartialEq, Eq)]
pub struct Sizes {
    pub table: usize,
    pub links: usize,
    pub pool: usize,
}

// Settings that a trace may have, what they ask for and the place after them.
#[derive(Clone, Copy, Debug, PartialEq, Eq)]
pub struct Begun {
    pub settings: Settings,
    pub sizes: Sizes,
    pub next: usize,
}

// The most that a trace may ask for.
const MOST: Most = Most {
    slots: 300,
    pool: 16384,
};

fn sizes_of(config: Config) -> Sizes
    ensures { result ≡ sizes_of config }
{
    Sizes {
        table: table::size(config.slots),
        links: chunks::blocks(config.slots, config.pool),
        pool: chunks::pool_len(config.slots, config.pool),
    }
}

// Judges settings, once all ten are read.
fn judge(settings: Settings, next: usize) -> Result<Begun, Stop>
    ensures { result ≡ judged_as (checked_within most settings) settings next }
{
    let config = settings.check_within(MOST)?;
    Ok(Begun {
        settings,
        sizes: sizes_of(config),
        next,
    })
}

// How a trace begins, of which a hundred bytes are here or all of it, or why no event is reached: settings that it ends within are
// unreadable.
pub fn begin(src: &[u8]) -> Result<Begun, Stop>
    ensures { result ≡ begun_as (settings_at src.now) }
{
    let preamble = trace_events::read_settings(src).map_err(|_| Stop::Bad)?;
    judge(preamble.settings, preamble.next)
}

// Writes the last line of a trace whose run stopped so, at this byte of the input, `left` bytes of it being left. A run that stopped for
// room is not over: nothing is written, and it is told again that there is none.
pub fn finish(
    out: &mut [u8],
    put: usize,
    stop: Stop,
    left: usize,
    byte: u64,
    applied: u64,
    growth: u64,
) -> Option<usize>
    ensures { Finishes stop left byte applied growth out.old put out.new result }
{
    match stop {
        Stop::Short if 0 < left => trace_lines::bad_line(out, put, applied, byte),
        Stop::Bad => trace_lines::bad_line(out, put, applied, byte),
        Stop::Short | Stop::Spent => trace_lines::end_line(out, put, applied, growth),
        Stop::Full => None,
        Stop::Wrong(setting) => trace_lines::config_line(out, put, setting.into()),
        Stop::Size => trace_lines::config_line(out, put, Reply::Size.into()),
    }
}
