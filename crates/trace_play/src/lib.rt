// The loop of programs that play a trace: standard input in parts, and to standard output a line for each event and the last line.
#![tactic(auto)]

mod sizes;

ghost use Rattle.std.specs.Prelude.{◌≡◌, false, ◌≤◌, length, take};
ghost use Rattle.filter.specs.Parts.{done};
ghost use Rattle.connection.specs.Abstract.{Valid};
ghost use Rattle.trace.specs.Output.{last_line};
ghost use Rattle.trace.specs.Turns.{Lacks, Untouched};
ghost use Rattle.trace_play.specs.Places.{next_task, place_of, after_run, passed, Counted, Sound, Roomy, Nears, sized_for};
ghost use Rattle.trace_play.specs.Plays.{lent, Goes, Closes, Lines, Turns, Ended, Fitting, Started, Performs, Replays};

use connection::Connection;
use filter::{Fault, Standing};
use frame::header::HEADER_SIZE;
use rules::Settings;
use std::io::{Read, Write};
use trace::{Place, Report, SCRATCH, Stop};

// The connection, the events applied, the bytes of the input that lie before those in the buffer, and where the program stands in its input
// and its output.
// `Roomy`, `Sound`, `Counted` and `not_done` stay in contracts: as a ghost field (tried), each State that a spec builds needs their proof.
#[derive(Clone, Copy, Debug, PartialEq, Eq)]
struct State {
    connection: Connection,
    applied: u64,
    before: u64,
    standing: Standing,
}

// What follows a run. A match on three steps and no closures: the definitions name the steps.
#[derive(Clone, Copy, Debug, PartialEq, Eq)]
enum Task {
    Write,
    Read,
    End,
}

const ALLOWANCE: u64 = 1000000;

// As many bytes as settings can take.
const SETTINGS: usize = 100;

// What follows a run that stopped so: lines are written where there was no room for one more, and more is read where the input goes on.
fn next_task(stop: Stop, ended: bool) -> Task
    ensures { result ≡ next_task stop ended }
{
    match stop {
        Stop::Full => Task::Write,
        Stop::Short if !ended => Task::Read,
        _ => Task::End,
    }
}

// Puts the last line at the room's start, and returns its end.
fn last_line(stop: Stop, left: usize, byte: u64, applied: u64, growth: u64, out: &mut [u8]) -> usize
    requires { 100 ≤ length out.old }
    ensures out_after { take result out.new ≡ last_line stop left byte applied growth }
    ensures upper_bound { result ≤ length out.old }
{
    trace::finish(out, 0, stop, left, byte, applied, growth).unwrap_or(0)
}

// The bytes of the input before the place where the program stands.
fn passed(state: State) -> u64
    requires { Counted state }
    ensures { result ≡ passed state }
{
    state.before + state.standing.at as u64
}

// Writes the lines that there are, and the last line.
fn finish<W: Write>(state: State, stop: Stop, output: &mut W, out: &mut [u8]) -> State
    requires inside { (state.standing.at ≤ state.standing.have) × (state.standing.put ≤ length out.old) × (100 ≤ length out.old) × (done state.standing ≡ false) }
    requires counted { Counted state }
    ensures { Closes stop state out.old result out.new }
{
    let standing = state.standing;
    let flushed = standing.flush(output, out);
    if flushed.done {
        return State {
            standing: flushed,
            ..state
        };
    }
    let put = last_line(
        stop,
        standing.have - standing.at,
        passed(state),
        state.applied,
        state.connection.growth,
        out,
    );
    let last = Standing { put, ..flushed }.flush(output, out);
    State {
        standing: Standing { done: true, ..last },
        ..state
    }
}

// What follows a run that stopped so.
fn go_on<R: Read, W: Write>(
    state: State,
    stop: Stop,
    input: &mut R,
    output: &mut W,
    src: &mut [u8],
    out: &mut [u8],
) -> State
    requires sound { Sound (length src.old) (length out.old) state.standing }
    requires roomy { Roomy (length src.old) (length out.old) }
    requires lacks { Lacks stop state.standing.have state.standing.at (length out.old) state.standing.put }
    requires not_done { done state.standing ≡ false }
    requires counted { Counted state }
    ensures sound_after { Sound (length src.old) (length out.old) result.standing }
    ensures nears { Nears state result }
    ensures counted_after { Counted result }
    ensures goes { Goes stop state src.old out.old result src.new out.new }
{
    match next_task(stop, state.standing.ended) {
        Task::Write => State {
            standing: state.standing.flush(output, out),
            ..state
        },
        Task::Read => {
            let before = passed(state);
            State {
                before,
                standing: state.standing.feed(input, src),
                ..state
            }
        }
        Task::End => finish(state, stop, output, out),
    }
}

// Where a run starts.
fn place_of(state: State) -> Place
    ensures { result ≡ place_of state }
{
    Place {
        at: state.standing.at,
        applied: state.applied,
        put: state.standing.put,
    }
}

// Where the program stands after a run.
fn after_run(state: State, report: Report) -> State
    ensures { result ≡ after_run state report }
{
    let Place { at, applied, put } = report.place;
    State {
        connection: report.connection,
        applied,
        standing: Standing {
            at,
            put,
            ..state.standing
        },
        ..state
    }
}

// Runs over the input that is there, and then reads, writes or ends.
fn turn<R: Read, W: Write>(
    state: State,
    input: &mut R,
    output: &mut W,
    table: &mut [u64],
    links: &mut [u32],
    pool: &mut [u8],
    sent: &mut [u8; HEADER_SIZE],
    bytes: &mut [u8; SCRATCH],
    src: &mut [u8],
    out: &mut [u8],
) -> State
    requires sound { Sound (length src.old) (length out.old) state.standing }
    requires roomy { Roomy (length src.old) (length out.old) }
    requires valid { Valid state.connection table.old links.old pool.old }
    requires not_done { done state.standing ≡ false }
    requires counted { Counted state }
    ensures sound_after { Sound (length src.old) (length out.old) result.standing }
    ensures nears { Nears state result }
    ensures counted_after { Counted result }
    ensures valid_after { Valid result.connection table.new links.new pool.new }
    ensures turns { Turns state (lent table.old links.old pool.old src.old out.old) result (lent table.new links.new pool.new src.new out.new) }
{
    let report = trace::run(
        state.connection,
        table,
        links,
        pool,
        sent,
        bytes,
        &src[..state.standing.have],
        out,
        place_of(state),
        ALLOWANCE,
    );
    let next = after_run(state, report);
    go_on(next, report.stop, input, output, src, out)
}

// Turn by turn, until all is done, and returns the work that reads and writes did. Each turn but the last leaves less to do, so this ends
// even where the input does not.
fn play<R: Read, W: Write>(
    start: State,
    input: &mut R,
    output: &mut W,
    table: &mut [u64],
    links: &mut [u32],
    pool: &mut [u8],
    sent: &mut [u8; HEADER_SIZE],
    bytes: &mut [u8; SCRATCH],
    src: &mut [u8],
    out: &mut [u8],
) -> Result<(), Fault>
    requires sound { Sound (length src.old) (length out.old) start.standing }
    requires roomy { Roomy (length src.old) (length out.old) }
    requires valid { Valid start.connection table.old links.old pool.old }
    requires counted { Counted start }
    ensures { Ended start (lent table.old links.old pool.old src.old out.old) result (lent table.new links.new pool.new src.new out.new) }
{
    let mut state = start;
    while !state.standing.done {
        state = turn(
            state, input, output, table, links, pool, sent, bytes, src, out,
        );
    }
    state.standing.work()
}

// Writes the one line of a trace without an event.
fn only_line<W: Write>(
    stop: Stop,
    standing: Standing,
    output: &mut W,
    out: &mut [u8],
) -> Result<(), Fault>
    requires { 100 ≤ length out.old }
    ensures { Lines stop standing result out.new }
{
    let put = last_line(stop, 0, 0, 0, 0, out);
    Standing { put, ..standing }.flush(output, out).work()
}

// Makes the connection, and plays the events after the settings.
fn start<R: Read, W: Write>(
    settings: Settings,
    input: &mut R,
    output: &mut W,
    table: &mut [u64],
    links: &mut [u32],
    pool: &mut [u8],
    sent: &mut [u8; HEADER_SIZE],
    bytes: &mut [u8; SCRATCH],
    src: &mut [u8],
    out: &mut [u8],
    standing: Standing,
) -> Result<(), Fault>
    requires sound { Sound (length src.old) (length out.old) standing }
    requires roomy { Roomy (length src.old) (length out.old) }
    requires fitting { Fitting settings (length table.old) (length links.old) (length pool.old) }
    requires at_bound { standing.at ≤ 100 }
    ensures { Started settings standing src.old out.old result (lent table.new links.new pool.new src.new out.new) }
{
    let Ok(connection) = connection_open::new(settings, table, links, pool) else {
        // Settings and sizes are right.
        unreachable!();
    };
    let state = State {
        connection,
        applied: 0,
        before: 0,
        standing,
    };
    play(
        state, input, output, table, links, pool, sent, bytes, src, out,
    )
}

// Plays standard input in memory that is enough. Returns the work that reads and writes did.
fn perform<R: Read, W: Write>(
    input: &mut R,
    output: &mut W,
    table: &mut [u64],
    links: &mut [u32],
    pool: &mut [u8],
    sent: &mut [u8; HEADER_SIZE],
    bytes: &mut [u8; SCRATCH],
    src: &mut [u8],
    out: &mut [u8],
) -> Result<(), Fault>
    requires { (2700 ≤ length table.old) × (616 ≤ length links.old) × (630784 ≤ length pool.old) × Roomy (length src.old) (length out.old) }
    ensures { Performs (lent table.old links.old pool.old src.old out.old) result (lent table.new links.new pool.new src.new out.new) }
{
    let filled = filter::fill(input, src, SETTINGS);
    if filled.done {
        return filled.work();
    }
    match trace::begin(&src[..filled.have]) {
        Ok(begun) => start(
            begun.settings,
            input,
            output,
            &mut table[..begun.sizes.table],
            &mut links[..begun.sizes.links],
            &mut pool[..begun.sizes.pool],
            sent,
            bytes,
            src,
            out,
            Standing {
                at: begun.next,
                ..filled
            },
        ),
        Err(stop) => only_line(stop, filled, output, out),
    }
}

// Plays standard input in lent memory, which is judged first. Returns the work that reads and writes did.
#[tactic(auto, using(crate::proofs::Starting::enough))]
pub fn replay<R: Read, W: Write>(
    input: &mut R,
    output: &mut W,
    table: &mut [u64],
    links: &mut [u32],
    pool: &mut [u8],
    sent: &mut [u8],
    bytes: &mut [u8],
    src: &mut [u8],
    out: &mut [u8],
) -> Result<(), Fault>
    ensures replays { Replays (sized_for (length table.old) (length links.old) (length pool.old) (length sent.old) (length bytes.old) (length src.old) (length out.old)) (lent table.old links.old pool.old src.old out.old) result (lent table.new links.new pool.new src.new out.new) }
    ensures untouched { Untouched (sized_for (length table.old) (length links.old) (length pool.old) (length sent.old) (length bytes.old) (length src.old) (length out.old)) sent.old bytes.old sent.new bytes.new }
{
    if !sizes::sized_for(
        table.len(),
        links.len(),
        pool.len(),
        sent.len(),
        bytes.len(),
        src.len(),
        out.len(),
    ) {
        return Err(Fault::Unlent);
    }
    let (Some(sent), Some(bytes)) = (sent.as_mut_array(), bytes.as_mut_array()) else {
        // Both have their size.
        unreachable!();
    };
    perform(input, output, table, links, pool, sent, bytes, src, out)
}
