// Reading, after the window step.
ghost use Rattle.std.specs.Prelude.{◌≡◌};
ghost use Rattle.handlers.specs.Locals.{is_shut, nothing_read, read_ended, on_read};

use crate::{Answer, ReadStep, answers};
use rules::{Reply, Slot};
use stream::{ReadEnd, Updated};

// Whether a read gives nothing since the connection ended.
pub fn is_shut(ended: bool, read_after_close: bool) -> bool
    ensures { result ≡ is_shut ended read_after_close }
{
    ended && !read_after_close
}

pub fn nothing_read(slot: Slot) -> Answer
    ensures { result ≡ nothing_read slot }
{
    answers::at_slot(slot, Reply::Done, Some(0), None)
}

fn read_ended(slot: Slot, updated: Updated, n: u32, reading: ReadEnd) -> ReadStep
    ensures { result ≡ read_ended slot updated n reading }
{
    let (stream, reply, value) = match reading {
        ReadEnd::Done(stream) => (stream, Reply::Done, Some(n)),
        ReadEnd::Wait(stream) => (stream, Reply::Wait, None),
    };
    ReadStep {
        stream,
        growth: updated.growth,
        answer: answers::at_slot(slot, reply, value, updated.sent),
    }
}

// What a read does once the window step is taken: as many bytes are to be popped as the answer's value counts.
#[tactic(auto, unfolding(crate::specs::Locals::on_read))]
pub fn on_read(slot: Slot, updated: Updated, unread: u32, asked: usize) -> ReadStep
    ensures { result ≡ on_read slot updated unread asked }
{
    let n = asked.min(unread as usize) as u32;
    let reading = updated.stream.read_end(n);
    read_ended(slot, updated, n, reading)
}
