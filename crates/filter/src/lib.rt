// What programs share that read standard input in parts and write standard output: where such a program stands, a read and a write.
#![tactic(auto)]

ghost use Rattle.std.specs.Prelude.{◌≡◌, ◌+◌, ◌^◌, ◌++◌, ◌≤◌, ◌<◌, true, false, OnOk, IfOk, length, take, drop};
ghost use Rattle.std.specs.Io.KnownBytes.{Appends, Consumes, IsAtEnd};
ghost use Rattle.filter.specs.Parts.{kept, Inside, answered, Brings, first, after_read, after_write, done, work, Flushes, Feeds, Fills};

use std::fmt;
use std::io::{self, ErrorKind, Read, Write};

// Where a program stands: the input that was read and not yet taken lies from `at` to `have`, and what is not yet written lies below
// `put`; whether the input has ended; whether all is done; and the work that reads and writes did. Places, and no reader or writer with a
// buffer: the buffers are lent, for nothing may allocate. `done` stands apart from `work`: an Option of the work has no value for a failure
// after which all is not done, and the calls answer on that too.
#[derive(Clone, Copy, Debug, PartialEq, Eq)]
pub struct Standing {
    pub at: usize,
    pub have: usize,
    pub put: usize,
    pub ended: bool,
    pub done: bool,
    pub work: Result<(), Fault>,
}

// Why work is not whole: a read failed, or a write; or there was none, for what was lent is of a wrong size. The program whose work it is
// says so by its own name.
#[derive(Clone, Copy, Debug, PartialEq, Eq)]
pub enum Fault {
    Unread,
    Unwritten,
    Unlent,
}

impl fmt::Display for Fault {
    fn fmt<W: fmt::Write>(&self, f: &mut fmt::Formatter<W>) -> fmt::Result {
        f.write_str(match self {
            Fault::Unread => "cannot read standard input",
            Fault::Unwritten => "cannot write standard output",
            Fault::Unlent => "what is lent is of a wrong size",
        })
    }
}

impl Standing {
    // Nothing is read and nothing is put.
    pub fn first() -> Standing
        ensures { result ≡ first }
    {
        Standing {
            at: 0,
            have: 0,
            put: 0,
            ended: false,
            done: false,
            work: Ok(()),
        }
    }

    // After a read behind the first `front` bytes of the buffer, which are those not yet taken: as many bytes are there now, or the input has
    // ended, or the read failed.
    pub fn after_read<E: Drop>(self, front: usize, got: Result<Option<usize>, E>) -> Standing
        ensures { result ≡ after_read self front got }
    {
        let read = Standing {
            at: 0,
            have: front,
            ..self
        };
        match got {
            Ok(Some(have)) => Standing { have, ..read },
            Ok(None) => Standing {
                ended: true,
                ..read
            },
            Err(_) => Standing {
                ended: true,
                done: true,
                work: Err(Fault::Unread),
                ..read
            },
        }
    }

    // After a write of all that was put, or of a part of it.
    pub fn after_write<E: Drop>(self, written: Result<(), E>) -> Standing
        ensures { result ≡ after_write self written }
    {
        let flushed = Standing { put: 0, ..self };
        match written {
            Ok(()) => flushed,
            Err(_) => Standing {
                done: true,
                work: Err(Fault::Unwritten),
                ..flushed
            },
        }
    }

    // Moves what is left of the input to the front of the buffer, and reads more.
    pub fn feed<R: Read>(self, input: &mut R, src: &mut [u8]) -> Standing
        ensures feeds { Feeds self src.old result src.new }
        ensures consumed { Consumes (R.remaining input.old) (R.remaining input.new) (drop (length (kept src.old self.at self.have)) (take result.have src.new)) }
        ensures end { self.ended ≡ false → result.ended ≡ true → done result ≡ false → IsAtEnd (R.remaining input.new) }
    {
        let front = keep_rest(src, self.at, self.have);
        let got = read_more(input, src, front);
        self.after_read(front, got)
    }

    // Writes what was put, no more than the room holds, and leaves nothing of it with the writer.
    pub fn flush<W: Write>(self, output: &mut W, out: &[u8]) -> Standing
        ensures flushes { Flushes self out.now result }
        ensures written { done result ≡ false → Appends (W.contents output.old) (W.contents output.new) (take self.put out.now) }
    {
        let put = self.put.min(out.len());
        self.after_write(write_out(output, &out[..put]))
    }

    // The work that reads and writes did: all of it where none failed.
    pub fn work(self) -> Result<(), Fault>
        ensures { result ≡ work self }
    {
        self.work
    }
}

// What the answer of a read means that had room for a byte, where bytes are there up to `have` before it: it failed; or it brought none, and
// the input has ended; or as many more are there as it brought.
fn answered(got: io::Result<usize>, have: usize) -> io::Result<Option<usize>>
    requires { IfOk got (λ n. have + n < 2 ^ 64) }
    ensures { result ≡ answered got have }
{
    match got? {
        0 => Ok(None),
        n => Ok(Some(have + n)),
    }
}

// Reads once, after the first bytes of the buffer: as many bytes are there then, or the input has ended. Nothing can be brought where they
// fill it.
fn read_more<R: Read>(input: &mut R, src: &mut [u8], have: usize) -> io::Result<Option<usize>>
    ensures inside { Inside have (length src.old) result }
    ensures src_unchanged { take have src.new ≡ take have src.old }
    ensures brings { Brings (R.remaining input.old) (R.remaining input.new) have src.new result }
{
    if src.len() <= have {
        return Err(ErrorKind::StorageFull.into());
    }
    answered(input.read(&mut src[have..]), have)
}

// Writes the bytes, and leaves nothing of them with the writer.
fn write_out<W: Write>(output: &mut W, bytes: &[u8]) -> io::Result<()>
    ensures { OnOk result (Appends (W.contents output.old) (W.contents output.new) bytes.now) }
{
    output.write_all(bytes)?;
    output.flush()
}

// Moves the bytes between two places to the front, and returns how many they are: none where they are not all there.
fn keep_rest(src: &mut [u8], from: usize, to: usize) -> usize
    ensures value { result ≡ length (kept src.old from to) }
    ensures src_after { src.new ≡ kept src.old from to ++ drop result src.old }
    ensures upper_bound { result ≤ length src.old }
{
    if to < from || src.len() < to {
        return 0;
    }
    src.copy_within(from..to, 0);
    to - from
}

// Reads until `least` bytes are there, the input ends or a read fails, as one into a full buffer does.
pub fn fill<R: Read>(input: &mut R, src: &mut [u8], least: usize) -> Standing
    ensures fills { Fills least (length src.old) result }
    ensures consumed { Consumes (R.remaining input.old) (R.remaining input.new) (take result.have src.new) }
    ensures end { result.ended ≡ true → done result ≡ false → IsAtEnd (R.remaining input.new) }
{
    let mut s = Standing::first();
    while s.have < least && !s.ended {
        let got = read_more(input, src, s.have);
        s = s.after_read(s.have, got);
    }
    s
}
