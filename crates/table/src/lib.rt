// The stream table in lent cells: K keys, 2 × K hints, then K rows of six cells. A hint is never trusted.
// No struct of cells and k: callers would build it for one call, and the functions that write can't take it.
#![tactic(auto)]

pub mod row;

ghost use Rattle.std.specs.Prelude.{◌≡◌, ◌≤◌, ◌<◌, length};
ghost use Rattle.table.specs.Rows.{blank};
ghost use Rattle.table.specs.Table.{size, zeros, place, row_at, stored, hint_place, hinted, inserted, ended, scanned, lowest_free, Finds, unacknowledged};

use frame::header::StreamId;
use row::{ROW, Row};
use rules::{Mode, Slot};

// The cells before the rows, for each slot: a key and two hints.
const FRONT: usize = 3;

// The number of cells that k slots take.
pub fn size(k: u32) -> usize
    ensures { result ≡ size k }
{
    (FRONT + ROW) * k as usize
}

// Frees every slot.
pub fn init(table: &mut [u64])
    ensures { table.new ≡ zeros (length table.old) }
{
    table.fill(0);
}

// Where the slot's row starts.
fn place(k: u32, slot: Slot) -> usize
    ensures { result ≡ place k slot.0 }
{
    FRONT * k as usize + ROW * slot.0 as usize
}

// The slot's row.
#[tactic(auto, unfolding(crate::specs::Table::row_at))]
pub fn load(table: &[u64], k: u32, slot: Slot) -> Row
    ensures { result ≡ row_at table.now k slot.0 }
{
    let a = place(k, slot);
    match table.get(a..a + ROW) {
        Some(cells) => row::unpack(table[slot.0 as usize], cells.as_array().unwrap()),
        None => Row::blank(),
    }
}

// Puts the row at the slot.
#[tactic(auto, unfolding(crate::specs::Table::stored))]
pub fn store(table: &mut [u64], k: u32, slot: Slot, row: Row)
    ensures { table.new ≡ stored table.old k slot.0 row }
{
    let a = place(k, slot);
    let e = a + ROW;
    // No get_mut: what it lends says nothing of the cells afterwards.
    if e <= table.len() {
        table[slot.0 as usize] = row.key();
        row.pack(&mut table[a..e]);
    }
}

// Frees the slot.
pub fn clear(table: &mut [u64], k: u32, slot: Slot)
    ensures { table.new ≡ stored table.old k slot.0 blank }
{
    store(table, k, slot, Row::blank());
}

// Where the id's hint is.
fn hint_place(k: u32, id: StreamId) -> usize
    requires { 0 < k }
    ensures { result ≡ hint_place k id }
{
    let n = k as usize;
    n + id.0 as usize / 2 % (2 * n)
}

// The slot that the id's hint says.
fn hint(table: &[u64], k: u32, id: StreamId) -> u32
    ensures { result ≡ hinted table.now k id }
{
    if k == 0 {
        return 0;
    }
    let cell = table.get(hint_place(k, id)).copied().unwrap_or(0);
    row::low(cell)
}

// Puts the row at the slot, and says so in its id's hint.
#[tactic(auto, unfolding(crate::specs::Table::inserted))]
pub fn insert(table: &mut [u64], k: u32, slot: Slot, row: Row)
    ensures { table.new ≡ inserted table.old k slot.0 row }
{
    if slot.0 < k {
        let at = hint_place(k, row.stream.id);
        store(table, k, slot, row);
        // No get_mut: what it lends says nothing of the cells afterwards.
        if at < table.len() {
            table[at] = u64::from(slot.0);
        }
    }
}

// The first slot with this key.
fn scan(table: &[u64], k: u32, key: u64) -> Option<Slot>
    ensures { result ≡ scanned table.now k key }
{
    let n = (k as usize).min(table.len());
    let i = table[..n].iter().position(|x| *x == key)?;
    Some(Slot(i as u32))
}

// The lowest slot that is not in use.
pub fn lowest_free(table: &[u64], k: u32) -> Option<Slot>
    ensures { result ≡ lowest_free table.now k }
{
    scan(table, k, 0)
}

// The slot of the stream with this id, if it is in the table.
pub fn find(table: &[u64], k: u32, id: StreamId) -> Option<Slot>
    ensures { Finds table.now k id result }
{
    let key = u64::from(id.0) + 2;
    let slot = hint(table, k, id);
    if slot < k && table.get(slot as usize).copied() == Some(key) {
        return Some(Slot(slot));
    }
    scan(table, k, key)
}

// How many of our own streams in the table are Open and unacknowledged. A loop: filter and count took a fifth longer.
pub fn ack_backlog(table: &[u64], k: u32, mode: Mode) -> u32
    ensures { result ≡ unacknowledged table.now k mode }
{
    let mut count: u32 = 0;
    for i in 0..k {
        if load(table, k, Slot(i)).is_unacknowledged(mode) {
            count += 1;
        }
    }
    count
}

// Ends every row.
#[tactic(auto, unfolding(crate::specs::Table::ended))]
pub fn end_all(table: &mut [u64], k: u32)
    ensures { table.new ≡ ended table.old k k }
{
    for i in 0..k {
        let row = load(table, k, Slot(i)).end();
        store(table, k, Slot(i), row);
    }
}
