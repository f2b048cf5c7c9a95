// The lent memory as one: the stream table, the links and the pool, with what is counted beside them. The three stay parameters of each
// call: a struct of three `&mut` slices owes their names, lengths and untouched parts in every contract, and is no plainer.
#![tactic(auto)]

ghost use Rattle.std.specs.Prelude.{◌≡◌, ◌+◌, ◌-◌, ◌%◌, ◌^◌};
ghost use Rattle.table.specs.Table.{stored};
ghost use Rattle.memory.specs.Counts.{left, table_fits, links_fit, fits, next, counted};
ghost use Rattle.memory.specs.Moves.{Stores, Feeds, Drains, Makes, Frees, Ends, Starts};

use chunks::{Free, Queue};
use rules::Slot;
use stream::Stream;
use table::row::Row;

// The sizes, the free blocks, how many streams are in the table, and how many bytes are unread.
#[derive(Clone, Copy, Debug, PartialEq, Eq)]
pub struct Memory {
    pub slots: u32,
    pub pool: u32,
    pub free: Free,
    pub listed: u32,
    pub unread: u32,
}

// The sum's low 32 bits: all of it, in valid memory.
fn more(n: u32, by: usize) -> u32
    ensures { result ≡ (n + by) % (2 ^ 32) }
{
    n.wrapping_add((by & 0xffff_ffff) as u32)
}

// The difference; 0 where there is none.
fn less(n: u32, by: usize) -> u32
    ensures { result ≡ n - by }
{
    (n as usize).saturating_sub(by) as u32
}

// How many streams are in the table once one of them leaves or stays.
fn left(n: u32, was: bool, stays: bool) -> u32
    ensures { result ≡ left n was stays }
{
    if was && !stays { less(n, 1) } else { n }
}

// Puts a held slot's row.
fn put(table: &mut [u64], k: u32, slot: Slot, stream: Stream, listed: bool, queue: Queue)
    ensures { table.new ≡ stored table.old k slot.0 (next stream listed queue) }
{
    table::store(
        table,
        k,
        slot,
        Row {
            held: true,
            listed,
            stream,
            queue,
        },
    );
}

// Whether a lent table of this length has the size for k slots.
pub fn table_fits(k: u32, table_len: usize) -> bool
    ensures { result ≡ table_fits k table_len }
{
    table_len == table::size(k)
}

// Whether a lent table and lent links of these lengths have the sizes for k slots and p bytes.
pub fn links_fit(k: u32, p: u32, table_len: usize, links_len: usize) -> bool
    ensures { result ≡ links_fit k p table_len links_len }
{
    table_fits(k, table_len) && links_len == chunks::blocks(k, p)
}

// Whether a lent table, links and pool of these lengths have the sizes for k slots and p bytes.
pub fn fits(k: u32, p: u32, table_len: usize, links_len: usize, pool_len: usize) -> bool
    ensures { result ≡ fits k p table_len links_len pool_len }
{
    links_fit(k, p, table_len, links_len) && pool_len == chunks::pool_len(k, p)
}

// Frees every slot and every block.
pub fn lay_out(table: &mut [u64], links: &mut [u32], slots: u32, pool: u32) -> Memory
    ensures { Starts slots pool result table.new links.new }
{
    table::init(table);
    let free = chunks::init(links);
    Memory {
        slots,
        pool,
        free,
        listed: 0,
        unread: 0,
    }
}

impl Memory {
    // The bytes that may still be queued.
    pub fn room(self) -> u32
        ensures { result ≡ self.pool - self.unread }
    {
        self.pool.saturating_sub(self.unread)
    }

    // The memory with these free blocks and counts.
    fn counted(self, free: Free, listed: u32, unread: u32) -> Memory
        ensures { result ≡ counted self free listed unread }
    {
        Memory {
            free,
            listed,
            unread,
            ..self
        }
    }

    // Puts the stream at its slot. `row` is what the slot holds.
    pub fn store(
        self,
        table: &mut [u64],
        slot: Slot,
        row: Row,
        stream: Stream,
        listed: bool,
    ) -> Memory
        ensures { Stores self table.old slot.0 row stream listed result table.new }
    {
        put(table, self.slots, slot, stream, listed, row.queue);
        self.counted(
            self.free,
            left(self.listed, row.listed, listed),
            self.unread,
        )
    }

    // Puts the stream at its slot, with body after the unread bytes.
    pub fn feed(
        self,
        table: &mut [u64],
        links: &mut [u32],
        pool: &mut [u8],
        slot: Slot,
        row: Row,
        stream: Stream,
        listed: bool,
        body: &[u8],
    ) -> Memory
        ensures { Feeds self table.old links.old pool.old slot.0 row stream listed body.now result table.new links.new pool.new }
    {
        let pushed = chunks::push(links, pool, self.free, row.queue, body);
        put(table, self.slots, slot, stream, listed, pushed.queue);
        let count = left(self.listed, row.listed, listed);
        self.counted(pushed.free, count, more(self.unread, body.len()))
    }

    // The stream at its slot, with the oldest bytes moved to out, as many as there are and it has room for.
    pub fn drain(
        self,
        table: &mut [u64],
        links: &mut [u32],
        pool: &[u8],
        slot: Slot,
        row: Row,
        stream: Stream,
        out: &mut [u8],
    ) -> Memory
        ensures { Drains self table.old links.old pool.now slot.0 row stream out.old result table.new links.new out.new }
    {
        let popped = chunks::pop(links, pool, self.free, row.queue, out);
        put(table, self.slots, slot, stream, row.listed, popped.queue);
        self.counted(popped.free, self.listed, less(self.unread, popped.count))
    }

    // Puts a new stream at a free slot, with body queued.
    pub fn make(
        self,
        table: &mut [u64],
        links: &mut [u32],
        pool: &mut [u8],
        slot: Slot,
        stream: Stream,
        body: &[u8],
    ) -> Memory
        ensures { Makes self table.old links.old pool.old slot.0 stream body.now result table.new links.new pool.new }
    {
        let pushed = chunks::push(links, pool, self.free, chunks::empty(), body);
        let queue = pushed.queue;
        table::insert(
            table,
            self.slots,
            slot,
            Row {
                held: true,
                listed: true,
                stream,
                queue,
            },
        );
        let unread = more(self.unread, body.len());
        self.counted(pushed.free, more(self.listed, 1), unread)
    }

    // Frees the slot, and its bytes are room again. `row` is what the slot holds.
    pub fn free(self, table: &mut [u64], links: &mut [u32], slot: Slot, row: Row) -> Memory
        ensures { Frees self table.old links.old slot.0 row result table.new links.new }
    {
        let queue = row.queue;
        let free = chunks::discard(links, self.free, queue);
        table::clear(table, self.slots, slot);
        let unread = less(self.unread, queue.unread as usize);
        self.counted(free, left(self.listed, row.listed, false), unread)
    }

    // Ends every stream in the table, and empties it.
    pub fn end_all(self, table: &mut [u64]) -> Memory
        ensures { Ends self table.old result table.new }
    {
        table::end_all(table, self.slots);
        self.counted(self.free, 0, self.unread)
    }
}
