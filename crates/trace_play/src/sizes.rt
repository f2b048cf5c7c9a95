// The sizes of what is lent.
ghost use Rattle.std.specs.Prelude.{◌≡◌};
ghost use Rattle.trace_play.specs.Places.{sized_for};

use frame::header::HEADER_SIZE;
use trace::SCRATCH;
use trace_lines::LONGEST_LINE;

// What 300 slots and a pool of 16,384 bytes take.
const TABLE: usize = 2700;

const LINKS: usize = 616;

const POOL: usize = 630784;

const LONGEST_EVENT: usize = 16424;

// Whether what is lent is enough for 300 slots and a pool of 16,384 bytes and for the longest event and line, and is a header and the longest read.
pub(crate) fn sized_for(
    table: usize,
    links: usize,
    pool: usize,
    sent: usize,
    bytes: usize,
    src: usize,
    out: usize,
) -> bool
    ensures { result ≡ sized_for table links pool sent bytes src out }
{
    TABLE <= table
        && LINKS <= links
        && POOL <= pool
        && LONGEST_EVENT <= src
        && LONGEST_LINE <= out
        && sent == HEADER_SIZE
        && bytes == SCRATCH
}
