// Replays a trace: standard input in parts, and to standard output a line for each event and the last line.
#![tactic(auto)]

mod room;

ghost use Rattle.trace_play.specs.Plays.{Lent, Performs};

use filter::Fault;
use frame::header::HEADER_SIZE;
use std::io::{Read, Write};
use std::process::ExitCode;
use trace::SCRATCH;

// Plays standard input in memory of its own. Its contract is the program's, for a `main` can have none. No contract can name a function's own
// memory, so this says that there is such.
fn run<R: Read, W: Write>(input: &mut R, output: &mut W) -> Result<(), Fault>
    ensures { (m : Lent) × ((m' : Lent) × Performs m result m') }
{
    let mut table: [u64; 2700] = room::zeros();
    let mut links: [u32; 616] = room::zeros();
    let mut pool: [u8; 630784] = room::zeros();
    let mut sent = [0; HEADER_SIZE];
    let mut bytes = [0; SCRATCH];
    let mut src: [u8; 262144] = room::zeros();
    let mut out: [u8; 262144] = room::zeros();
    trace_play::replay(
        input, output, &mut table, &mut links, &mut pool, &mut sent, &mut bytes, &mut src, &mut out,
    )
}

fn main(rt: HostRuntime) -> ExitCode {
    let Err(fault) = run(&mut rt.stdin(), &mut rt.stdout()) else {
        return ExitCode::SUCCESS;
    };
    let _ = eprintln!(rt; "replay: {fault}");
    ExitCode::FAILURE
}
