// The line writer: an outcome's line, and the last lines, into lent room. Room and place are two parameters: a writer over a `&mut [u8]` would
// owe the slice's name and length in every contract, and is no plainer.
#![tactic(auto)]

ghost use Rattle.std.specs.Prelude.{◌≡◌, [], ◌∷◌, ◌+◌, ◌-◌, ◌*◌, ◌≤◌, ◌<◌, length};
ghost use Rattle.rules.specs.Replies.{number};
ghost use Rattle.trace_lines.specs.Line.{decimal, hex_digit, hex, or_dash, slot_value, value_text, mark, marks, wakes_text, field, line_of, last_of, end_line, bad_line, config_line};
ghost use Rattle.trace_lines.specs.Writing.{Stores, Room, Writes, line_room, last_room};

use rules::{Reply, Slot, Woke};

// What a line shows beside the header and the bytes read.
#[derive(Clone, Copy, Debug, PartialEq, Eq)]
pub struct Shown {
    pub number: u64,
    pub reply: Reply,
    pub slot: Option<Slot>,
    pub value: Option<u32>,
    pub wakes: Woke,
}

// With this much room from its place on, every line of a trace is written.
pub const LONGEST_LINE: usize = 32892;

// The room that any line asks for beside its bytes.
const ROOM: usize = 100;

const SPACE: u8 = b' ';

const NEWLINE: u8 = b'\n';

const DASH: u8 = b'-';

fn digit(n: u64) -> u8
    requires { n < 10 }
    ensures { result ≡ 48 + n }
{
    b'0' + n as u8
}

fn hex_digit(n: u8) -> u8
    requires { n < 16 }
    ensures { result ≡ hex_digit n }
{
    if n < 10 { b'0' + n } else { 87 + n }
}

fn put_two(out: &mut [u8], at: usize, a: u8, b: u8) -> usize
    requires { at + 2 ≤ length out.old }
    ensures { Stores out.old at (a ∷ b ∷ []) out.new result }
{
    out[at] = a;
    out[at + 1] = b;
    at + 2
}

fn put_text(out: &mut [u8], at: usize, text: &[u8]) -> usize
    requires { Room out.old at text.now }
    ensures { Stores out.old at text.now out.new result }
{
    let end = at + text.len();
    out[at..end].copy_from_slice(text);
    end
}

// The digits of a number, the high ones first. By hand: nothing may allocate, and std says which bytes a `write!` gives for a String alone.
fn put_decimal(out: &mut [u8], at: usize, n: u64) -> usize
    requires { Room out.old at (decimal n) }
    ensures { Stores out.old at (decimal n) out.new result }
{
    if n < 10 {
        out[at] = digit(n);
        return at + 1;
    }
    let p = put_decimal(out, at, n / 10);
    out[p] = digit(n % 10);
    p + 1
}

fn put_hex(out: &mut [u8], at: usize, bytes: &[u8]) -> usize
    requires { Room out.old at (hex bytes.now) }
    ensures { Stores out.old at (hex bytes.now) out.new result }
{
    let mut p = at;
    for b in bytes {
        p = put_two(out, p, hex_digit(b / 16), hex_digit(b % 16));
    }
    p
}

fn put_dash(out: &mut [u8], at: usize, end: u8) -> usize
    requires { at + 2 ≤ length out.old }
    ensures { Stores out.old at (field (45 ∷ []) end) out.new result }
{
    put_two(out, at, DASH, end)
}

#[tactic(auto, using(crate::proofs::Texts::lengths))]
fn put_number(out: &mut [u8], at: usize, n: u64, end: u8) -> usize
    requires { at + 21 ≤ length out.old }
    ensures stores { Stores out.old at (field (decimal n) end) out.new result }
    ensures upper_bound { result ≤ at + 21 }
{
    let p = put_decimal(out, at, n);
    out[p] = end;
    p + 1
}

// The number of a slot.
fn slot_value(slot: Option<Slot>) -> Option<u32>
    ensures { result ≡ slot_value slot }
{
    slot.map(|s| s.0)
}

#[tactic(auto, unfolding(crate::specs::Line::value_text))]
fn put_value(out: &mut [u8], at: usize, value: Option<u32>) -> usize
    requires { at + 21 ≤ length out.old }
    ensures stores { Stores out.old at (field (value_text value) 32) out.new result }
    ensures upper_bound { result ≤ at + 21 }
{
    match value {
        Some(n) => put_number(out, at, u64::from(n), SPACE),
        None => put_dash(out, at, SPACE),
    }
}

// Bytes in hex.
#[tactic(auto, using(crate::proofs::Texts::lengths))]
fn put_bytes(out: &mut [u8], at: usize, bytes: &[u8], end: u8) -> usize
    requires { at + 2 * length bytes.now + 2 ≤ length out.old }
    ensures stores { Stores out.old at (field (or_dash (hex bytes.now)) end) out.new result }
    ensures upper_bound { result ≤ at + 2 * length bytes.now + 2 }
{
    if bytes.is_empty() {
        return put_dash(out, at, end);
    }
    let p = put_hex(out, at, bytes);
    out[p] = end;
    p + 1
}

fn put_mark(out: &mut [u8], at: usize, on: bool, letter: u8) -> usize
    requires { at + 1 ≤ length out.old }
    ensures { Stores out.old at (mark on letter) out.new result }
{
    if on {
        out[at] = letter;
        at + 1
    } else {
        at
    }
}

fn put_marks(out: &mut [u8], at: usize, wakes: Woke) -> usize
    requires { at + 3 ≤ length out.old }
    ensures { Stores out.old at (marks wakes) out.new result }
{
    let reader = put_mark(out, at, wakes.reader, b'r');
    let writer = put_mark(out, reader, wakes.writer, b'w');
    put_mark(out, writer, wakes.opener, b'o')
}

#[tactic(auto, using(crate::proofs::Texts::lengths))]
fn put_wakes(out: &mut [u8], at: usize, wakes: Woke) -> usize
    requires { at + 4 ≤ length out.old }
    ensures stores { Stores out.old at (field (wakes_text wakes) 32) out.new result }
    ensures upper_bound { result ≤ at + 4 }
{
    if wakes.all {
        return put_two(out, at, b'a', SPACE);
    }
    let p = put_marks(out, at, wakes);
    if p == at {
        return put_dash(out, at, SPACE);
    }
    out[p] = SPACE;
    p + 1
}

// All fields, where there is room for any line with as many bytes.
fn put_fields(out: &mut [u8], at: usize, shown: Shown, header: &[u8], bytes: &[u8]) -> usize
    requires { at + line_room (length header.now) (length bytes.now) ≤ length out.old }
    ensures stores { Stores out.old at (line_of shown header.now bytes.now) out.new result }
    ensures upper_bound { result ≤ at + line_room (length header.now) (length bytes.now) }
{
    let reply = u64::from(u32::from(shown.reply));
    let slot = slot_value(shown.slot);
    let number = put_number(out, at, shown.number, SPACE);
    let replied = put_number(out, number, reply, SPACE);
    let slotted = put_value(out, replied, slot);
    let valued = put_value(out, slotted, shown.value);
    let headed = put_bytes(out, valued, header, SPACE);
    let woken = put_wakes(out, headed, shown.wakes);
    put_bytes(out, woken, bytes, NEWLINE)
}

// The room from a place on.
pub fn room_left(size: usize, at: usize) -> usize
    ensures { result ≡ size - at }
{
    size.saturating_sub(at)
}

// The line of an event, and the place after it. It asks for the room of the longest line with as many bytes, and changes nothing where there
// is less.
pub fn line(out: &mut [u8], at: usize, shown: Shown, header: &[u8], bytes: &[u8]) -> Option<usize>
    ensures { Writes (line_room (length header.now) (length bytes.now)) out.old at (line_of shown header.now bytes.now) out.new result }
{
    let pairs = room_left(out.len(), at).checked_sub(ROOM)? / 2;
    if pairs.checked_sub(header.len())? < bytes.len() {
        return None;
    }
    Some(put_fields(out, at, shown, header, bytes))
}

// A last line: a word and two numbers.
fn put_last(out: &mut [u8], at: usize, word: &[u8], a: u64, b: u64) -> Option<usize>
    requires { length word.now ≤ 8 }
    ensures { Writes last_room out.old at (last_of word.now a b) out.new result }
{
    if room_left(out.len(), at) < ROOM {
        return None;
    }
    let said = put_text(out, at, word);
    let first = put_number(out, said, a, SPACE);
    Some(put_number(out, first, b, NEWLINE))
}

// `end_line` and `bad_line` differ in a word, and keep their names: they are two lines of the document, which docs/REFERENCE.md names.
// The last line: the events applied and the growth figure.
pub fn end_line(out: &mut [u8], at: usize, events: u64, growth: u64) -> Option<usize>
    ensures { Writes last_room out.old at (end_line events growth) out.new result }
{
    put_last(out, at, b"end ", events, growth)
}

// The last line of an unreadable trace: the events applied, and the byte of the input at which the failing one starts.
pub fn bad_line(out: &mut [u8], at: usize, events: u64, byte: u64) -> Option<usize>
    ensures { Writes last_room out.old at (bad_line events byte) out.new result }
{
    put_last(out, at, b"bad ", events, byte)
}

// The only line where the settings are refused: the number of the reply. A number, since a setting's and a reply's are of two enums.
pub fn config_line(out: &mut [u8], at: usize, number: u32) -> Option<usize>
    ensures { Writes last_room out.old at (config_line number) out.new result }
{
    if room_left(out.len(), at) < ROOM {
        return None;
    }
    let said = put_text(out, at, b"config ");
    Some(put_number(out, said, u64::from(number), NEWLINE))
}
