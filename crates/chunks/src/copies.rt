// Copies between lent bytes and the blocks of a chain, in pieces: blocks that follow each other in the chain and in the pool are copied at once.
ghost use Rattle.std.specs.Prelude.{◌≡◌, ◌+◌, ◌-◌, ◌*◌, ◌≤◌, ◌<◌, ◌++◌, length, take, drop};
ghost use Rattle.chunks.specs.Chain.{hop};
ghost use Rattle.chunks.specs.Blocks.{BLOCK, hold, put};
ghost use Rattle.chunks.specs.Steps.{PIECE, Lined, Lies, Gathers, Scatters};

use crate::{BLOCK, MOST, hold, link};

// The most bytes that are moved at once.
const PIECE: usize = 65536;

// Bytes that lie in one piece from the start of a block on: how many, and the last block that they are in.
#[derive(Clone, Copy, PartialEq, Eq, Debug)]
struct Piece {
    len: usize,
    last: u32,
}

// Copies all of src to the front of dst.
// By way of an array, of which the compiler makes one move: straight to dst, a push and pop of 64 B takes a tenth longer.
fn copy(src: &[u8], dst: &mut [u8])
    requires { (length src.now ≤ PIECE) × (length src.now ≤ length dst.old) }
    ensures { dst.new ≡ src.now ++ drop (length src.now) dst.old }
{
    let n = src.len();
    let mut t = [0u8; PIECE];
    t[..n].copy_from_slice(src);
    dst[..n].copy_from_slice(&t[..n]);
}

// Copies part into the pool, from byte `used` of the block on.
fn fill(pool: &mut [u8], node: u32, used: usize, part: &[u8])
    requires { used + length part.now ≤ PIECE }
    ensures { node * BLOCK + used + length part.now ≤ length pool.old → pool.new ≡ put pool.old (node * BLOCK + used) part.now }
{
    // Through `get_mut` a proof knows the pool's length afterwards, and no byte.
    let a = (node as usize) * BLOCK + used;
    let e = a + part.len();
    if e <= pool.len() {
        copy(part, &mut pool[a..e]);
    }
}

// Copies the pool's bytes, from byte `from` of the block on, to all of out.
fn drain(pool: &[u8], node: u32, from: usize, out: &mut [u8])
    requires { from + length out.old ≤ PIECE }
    ensures { node * BLOCK + from + length out.old ≤ length pool.now → out.new ≡ take (length out.old) (drop (node * BLOCK + from) pool.now) }
{
    let a = (node as usize) * BLOCK + from;
    if let Some(part) = pool.get(a..a + out.len()) {
        copy(part, out);
    }
}

// The last of the blocks from `at` on that lie in the pool as in the chain, each right after the one before: at most `most`.
fn run(links: &[u32], at: u32, most: usize) -> u32
    requires { (0 < most) × (most ≤ PIECE) }
    ensures { (at ≤ result) × (result < at + most) × Lined links.now at result }
{
    let stop = (at as usize + (most - 1)).min(links.len()).min(MOST) as u32;
    (at..stop)
        .find(|&k| links[k as usize] != k + 1)
        .unwrap_or(stop.max(at))
}

// The bytes, at most `need`, that lie in one piece from the start of the block on.
fn piece_at(links: &[u32], at: u32, need: usize) -> Piece
    requires { 0 < need }
    ensures { Lies links.now at need result }
{
    if need <= BLOCK {
        return Piece {
            len: need,
            last: at,
        };
    }
    let last = run(links, at, hold(need.min(PIECE)));
    let room = (((last - at) as usize) + 1) * BLOCK;
    Piece {
        len: need.min(room),
        last,
    }
}

// Copies the chain's bytes, from byte `from` of its first block on, to all of out, piece by piece.
pub(crate) fn gather(links: &[u32], pool: &[u8], at: u32, from: usize, out: &mut [u8])
    requires { from < BLOCK }
    ensures { Gathers links.now pool.now at from (from + length out.old) (length out.old) out.new }
{
    // Counted by `got`: after a loop that takes parts off a `&mut [u8]` a proof knows no byte of the whole.
    let n = out.len();
    let mut got = n.min(BLOCK - from);
    drain(pool, at, from, &mut out[..got]);
    let mut last = at;
    while got < n {
        let node = link(links, last);
        let p = piece_at(links, node, n - got);
        let e = got + p.len;
        drain(pool, node, 0, &mut out[got..e]);
        last = p.last;
        got = e;
    }
}

// Copies body into the chain's blocks, from byte `used` of the first on, piece by piece. Returns the last of them.
pub(crate) fn scatter(links: &[u32], pool: &mut [u8], at: u32, used: usize, body: &[u8]) -> u32
    requires { used < BLOCK }
    ensures value { result ≡ hop links.now at (hold (used + length body.now) - 1) }
    ensures scatters { Scatters links.now pool.old at used (used + length body.now) body.now pool.new }
{
    let (part, mut rest) = body.split_at(body.len().min(BLOCK - used));
    fill(pool, at, used, part);
    let mut last = at;
    while !rest.is_empty() {
        let node = link(links, last);
        let p = piece_at(links, node, rest.len());
        let (part, more) = rest.split_at(p.len);
        fill(pool, node, 0, part);
        last = p.last;
        rest = more;
    }
    last
}
