// Round trips: when a ping is due, and what a pong says.
#![tactic(auto)]

ghost use Rattle.std.specs.Prelude.{◌≡◌};
ghost use Rattle.rtt.specs.Pings.{start, next_ping, handle_pong, elapsed};

use frame::header::Header;

// Whether a pong is awaited, and since when; or when the next ping is due.
#[derive(Clone, Copy, Debug, PartialEq, Eq)]
pub enum RttState {
    Waiting { next: u64 },
    AwaitingPong { sent_at: u64, id: u32 },
}

// The last measured round trip may be 0; there is none before the first pong.
#[derive(Clone, Copy, Debug, PartialEq, Eq)]
pub struct Rtt {
    pub state: RttState,
    pub next_id: u32,
    pub round_trip: Option<u64>,
}

// The pings after a look at the time, and the ping to send now.
#[derive(Clone, Copy, Debug, PartialEq, Eq)]
pub struct Pinged {
    pub rtt: Rtt,
    pub ping: Option<Header>,
}

// A pong that was not awaited, or of another id: an error of the remote's.
#[derive(Clone, Copy, Debug, PartialEq, Eq)]
pub struct UnexpectedPong;

// The time since `noted`; 0 where time went back.
pub fn elapsed(noted: u64, now: u64) -> u64
    ensures { result ≡ elapsed noted now }
{
    now.saturating_sub(noted)
}

impl Rtt {
    // No round trip is known yet, and the first ping is due at `first`.
    pub fn new(first: u64, id: u32) -> Self
        ensures { result ≡ start first id }
    {
        Rtt {
            state: RttState::Waiting { next: first },
            next_id: id,
            round_trip: None,
        }
    }

    // The ping that is due, which is then awaited; or none.
    pub fn next_ping(self, now: u64) -> Pinged
        ensures { result ≡ next_ping self now }
    {
        match self.state {
            RttState::Waiting { next } if next <= now => {
                let id = self.next_id;
                Pinged {
                    rtt: Rtt {
                        state: RttState::AwaitingPong { sent_at: now, id },
                        next_id: id.wrapping_add(1),
                        ..self
                    },
                    ping: Some(frame::ping(id)),
                }
            }
            _ => Pinged {
                rtt: self,
                ping: None,
            },
        }
    }

    // The round trip that an awaited pong ends, with the next ping an interval away.
    pub fn handle_pong(
        self,
        received_id: u32,
        now: u64,
        interval: u64,
    ) -> Result<Rtt, UnexpectedPong>
        ensures { result ≡ handle_pong self received_id now interval }
    {
        match self.state {
            RttState::AwaitingPong { sent_at, id } if received_id == id => Ok(Rtt {
                state: RttState::Waiting {
                    next: now.saturating_add(interval),
                },
                round_trip: Some(elapsed(sent_at, now)),
                ..self
            }),
            _ => Err(UnexpectedPong),
        }
    }

    pub fn get(self) -> Option<u64>
        ensures { result ≡ self.round_trip }
    {
        self.round_trip
    }
}
