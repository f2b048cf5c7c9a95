// The reader of traces: numbers, settings and events, from a part of a trace that need not be whole.
#![tactic(auto)]

ghost use Rattle.std.specs.Prelude.{◌≡◌, ◌≤◌, ◌+◌, IfOk, length};
ghost use Rattle.trace_events.specs.Numbers.{number_at};
ghost use Rattle.trace_events.specs.Format.{settings_at, length_at, frame_at, count_at, read_at, write_at, code_of, rest_at, event_at};

use frame::header::HEADER_SIZE;
use rules::Settings;

// Why nothing is read: the input ends before it does, or no input makes it readable.
#[derive(Clone, Copy, Debug, PartialEq, Eq)]
pub enum Unreadable {
    Short,
    Bad,
}

// A number and the place after it.
#[derive(Clone, Copy, Debug, PartialEq, Eq)]
pub struct Number {
    pub value: u64,
    pub next: usize,
}

// All ten settings as they are typed, and the place after them.
#[derive(Clone, Copy, Debug, PartialEq, Eq)]
pub struct Preamble {
    pub settings: Settings,
    pub next: usize,
}

// What an event asks for, by its numbers and by places of the input. A frame's header stands from `head` to `body`, its body from
// there to the event's end; the bytes to write stand from `start` to the event's end.
#[derive(Clone, Copy, Debug, PartialEq, Eq)]
pub enum Kind {
    Tick,
    Frame { head: usize, body: usize },
    Open,
    Read { slot: u64, count: usize },
    Write { slot: u64, start: usize },
    Close { slot: u64 },
    Drop { slot: u64 },
    Gone,
}

// An event: its time, the place after it, and what it asks for.
#[derive(Clone, Copy, Debug, PartialEq, Eq)]
pub struct Event {
    pub now: u64,
    pub next: usize,
    pub kind: Kind,
}

// What an event's first number says it is.
#[derive(Clone, Copy, Debug, PartialEq, Eq)]
enum Code {
    Tick,
    Frame,
    Open,
    Read,
    Write,
    Close,
    Drop,
    Gone,
}

impl TryFrom<u64> for Code {
    type Error = Unreadable;

    ghost try_from_gives = { λ n result. result ≡ code_of n };

    fn try_from(n: u64) -> Result<Code, Unreadable> {
        match n {
            0 => Ok(Code::Tick),
            1 => Ok(Code::Frame),
            2 => Ok(Code::Open),
            3 => Ok(Code::Read),
            4 => Ok(Code::Write),
            5 => Ok(Code::Close),
            6 => Ok(Code::Drop),
            7 => Ok(Code::Gone),
            _ => Err(Unreadable::Bad),
        }
    }
}

// "at most 16,384": a body or a count.
pub const LARGEST: u64 = 16384;

// The number at a place. Nine groups hold any 63 bits; the tenth may add the 64th and nothing else.
#[tactic(auto, using(crate::proofs::Groups::sum_fits), unfolding(crate::specs::Numbers::number_at))]
pub fn read_number(src: &[u8], at: usize) -> Result<Number, Unreadable>
    ensures { result ≡ number_at src.now at }
{
    let Some(groups) = src.get(at..) else {
        return Err(Unreadable::Short);
    };
    let mut value: u64 = 0;
    let mut weight: u64 = 1;
    // Not over the groups themselves: where they end early the answer is Short, after ten it is Bad.
    for k in 0..10 {
        let Some(&b) = groups.get(k) else {
            return Err(Unreadable::Short);
        };
        if k == 9 && 1 < b {
            return Err(Unreadable::Bad);
        }
        value += u64::from(b % 128) * weight;
        if b < 128 {
            return Ok(Number {
                value,
                next: at + k + 1,
            });
        }
        weight *= 128;
    }
    Err(Unreadable::Bad)
}

// The length field of the header at a place.
fn length_field(src: &[u8], p: usize) -> u64
    requires { p + 12 ≤ length src.now }
    ensures { result ≡ length_at src.now p }
{
    u64::from(u32::from_be_bytes([src[p + 8], src[p + 9], src[p + 10], src[p + 11]]))
}

// A frame, and the place after it.
#[tactic(auto, unfolding(crate::specs::Format::frame_at))]
fn frame(src: &[u8], p: usize) -> Result<(Kind, usize), Unreadable>
    ensures { result ≡ frame_at src.now p }
{
    let left = src.len().saturating_sub(p);
    if left < HEADER_SIZE {
        return Err(Unreadable::Short);
    }
    let body = p + HEADER_SIZE;
    let kind = Kind::Frame { head: p, body };
    if src[p + 1] != 0 {
        return Ok((kind, body));
    }
    let size = length_field(src, p);
    if LARGEST < size {
        return Err(Unreadable::Bad);
    }
    let size = size as usize;
    if left - HEADER_SIZE < size {
        return Err(Unreadable::Short);
    }
    Ok((kind, body + size))
}

// The count of a read or a write.
#[tactic(auto, unfolding(crate::specs::Format::count_at))]
fn counted(src: &[u8], p: usize) -> Result<Number, Unreadable>
    ensures value { result ≡ count_at src.now p }
    ensures upper_bound { IfOk result (λ n. n.value ≤ 16384) }
{
    let count = read_number(src, p)?;
    if LARGEST < count.value {
        return Err(Unreadable::Bad);
    }
    Ok(count)
}

// A read, and the place after it.
#[tactic(auto, unfolding(crate::specs::Format::read_at))]
fn read(src: &[u8], p: usize) -> Result<(Kind, usize), Unreadable>
    ensures { result ≡ read_at src.now p }
{
    let slot = read_number(src, p)?;
    let count = counted(src, slot.next)?;
    let kind = Kind::Read {
        slot: slot.value,
        count: count.value as usize,
    };
    Ok((kind, count.next))
}

// A write with as many bytes as its count says, and the place after it.
#[tactic(auto, unfolding(crate::specs::Format::write_at))]
fn write(src: &[u8], p: usize) -> Result<(Kind, usize), Unreadable>
    ensures { result ≡ write_at src.now p }
{
    let slot = read_number(src, p)?;
    let count = counted(src, slot.next)?;
    let size = count.value as usize;
    let bytes = src.get(count.next..).ok_or(Unreadable::Short)?;
    if bytes.len() < size {
        return Err(Unreadable::Short);
    }
    let kind = Kind::Write {
        slot: slot.value,
        start: count.next,
    };
    Ok((kind, count.next + size))
}

// What follows the code and the time, and the place after it.
#[tactic(auto, unfolding(crate::specs::Format::close_at, crate::specs::Format::drop_at))]
fn rest(src: &[u8], code: Code, p: usize) -> Result<(Kind, usize), Unreadable>
    ensures { result ≡ rest_at src.now code p }
{
    match code {
        Code::Tick => Ok((Kind::Tick, p)),
        Code::Frame => frame(src, p),
        Code::Open => Ok((Kind::Open, p)),
        Code::Read => read(src, p),
        Code::Write => write(src, p),
        Code::Close => {
            let slot = read_number(src, p)?;
            Ok((Kind::Close { slot: slot.value }, slot.next))
        }
        Code::Drop => {
            let slot = read_number(src, p)?;
            Ok((Kind::Drop { slot: slot.value }, slot.next))
        }
        Code::Gone => Ok((Kind::Gone, p)),
    }
}

// The event at a place of a part of a trace.
#[tactic(auto, unfolding(crate::specs::Format::event_at))]
pub fn read_event(src: &[u8], at: usize) -> Result<Event, Unreadable>
    ensures { result ≡ event_at src.now at }
{
    let first = read_number(src, at)?;
    let code = Code::try_from(first.value)?;
    let time = read_number(src, first.next)?;
    let (kind, next) = rest(src, code, time.next)?;
    Ok(Event {
        now: time.value,
        next,
        kind,
    })
}

// The ten settings that a trace starts with.
#[tactic(auto, unfolding(crate::specs::Format::settings_at))]
pub fn read_settings(src: &[u8]) -> Result<Preamble, Unreadable>
    ensures { result ≡ settings_at src.now }
{
    let mode = read_number(src, 0)?;
    let streams = read_number(src, mode.next)?;
    let limit = read_number(src, streams.next)?;
    let after_close = read_number(src, limit.next)?;
    let split = read_number(src, after_close.next)?;
    let interval = read_number(src, split.next)?;
    let first_time = read_number(src, interval.next)?;
    let first_id = read_number(src, first_time.next)?;
    let slots = read_number(src, first_id.next)?;
    let pool = read_number(src, slots.next)?;
    let settings = Settings {
        mode: mode.value,
        max_num_streams: streams.value,
        limit: limit.value,
        read_after_close: after_close.value,
        split: split.value,
        interval: interval.value,
        first_time: first_time.value,
        first_id: first_id.value,
        slots: slots.value,
        pool: pool.value,
    };
    Ok(Preamble {
        settings,
        next: pool.next,
    })
}
