// The windows of one stream: what the remote may still send, what we may, and when the remote is granted more.
#![tactic(auto)]

ghost use Rattle.std.specs.Prelude.{◌≡◌};
ghost use Rattle.flow_control.specs.Windows.{fresh, due, pace_of, budget, new_maximum, moved, grown, grow, next_window_update};
ghost use Rattle.flow_control.specs.Windows.{growth_returned, consume_send, increase_send, consume_receive};

use frame::header::{Credit, DEFAULT_CREDIT};

#[derive(Clone, Copy, Debug, PartialEq, Eq)]
pub struct FlowController {
    pub last_window_update: u64,
    pub receive_window: u32,
    pub max_receive_window: u32,
    pub send_window: u32,
}

// How soon after the last update this one comes, measured in round trips.
#[derive(Clone, Copy, Debug, PartialEq, Eq)]
pub enum Pace {
    Unmeasured,
    Late,
    Early,
}

// Why an update that is due leaves the maximum as it does.
#[derive(Clone, Copy, Debug, PartialEq, Eq)]
pub enum Reason {
    Unmeasured,
    Late,
    Doubled,
    HeldDown,
}

// An update that is due: why the maximum is what it is, and the credit that the update grants.
#[derive(Clone, Copy, Debug, PartialEq, Eq)]
pub struct Due {
    pub reason: Reason,
    pub credit: Credit,
}

// What the window step depends on beside the flow state.
#[derive(Clone, Copy, Debug, PartialEq, Eq)]
pub struct Conditions {
    pub unread: u32,
    pub time: u64,
    pub round_trip: Option<u64>,
    pub limit: u64,
    pub max_num_streams: u32,
    pub growth: u64,
}

// What the window step grants, and the connection's growth figure after it.
#[derive(Clone, Copy, Debug, PartialEq, Eq)]
pub struct Granted {
    pub growth: u64,
    pub update: Option<Due>,
}

// A window cannot take a change.
#[derive(Clone, Copy, Debug, PartialEq, Eq)]
pub struct InvalidWindowUpdate;

// Whether fewer than two round trips have passed since `noted`.
fn pace_of(round_trip: Option<u64>, noted: u64, now: u64) -> Pace
    ensures { result ≡ pace_of round_trip noted now }
{
    match round_trip {
        None => Pace::Unmeasured,
        Some(t) if rtt::elapsed(noted, now) / 2 < t => Pace::Early,
        Some(_) => Pace::Late,
    }
}

// What the connection's limit still allows beyond the windows that each stream is sure of.
fn budget(conditions: Conditions) -> u64
    ensures { result ≡ budget conditions }
{
    let sure = u64::from(conditions.max_num_streams) * u64::from(DEFAULT_CREDIT);
    conditions
        .limit
        .saturating_sub(sure)
        .saturating_sub(conditions.growth)
}

// The maximum doubled, as far as 32 bits and the budget allow.
fn new_maximum(maximum: u32, spare: u64) -> u32
    ensures { result ≡ new_maximum maximum spare }
{
    let old = u64::from(maximum);
    let doubled = (2 * old).min(u64::from(u32::MAX));
    (old + (doubled - old).min(spare)) as u32
}

// Whether the maximum was doubled.
fn grown(old: u32, maximum: u32) -> Reason
    ensures { result ≡ grown old maximum }
{
    if u64::from(maximum) == 2 * u64::from(old) {
        Reason::Doubled
    } else {
        Reason::HeldDown
    }
}

impl FlowController {
    // A new stream's windows.
    pub fn new(send_window: u32, now: u64) -> Self
        ensures { result ≡ fresh send_window now }
    {
        FlowController {
            last_window_update: now,
            receive_window: DEFAULT_CREDIT,
            max_receive_window: DEFAULT_CREDIT,
            send_window,
        }
    }

    // The bytes that the remote has used up and we have read, counted against `maximum`.
    fn due(self, maximum: u32, unread: u32) -> u32
        ensures { result ≡ due maximum self unread }
    {
        maximum
            .saturating_sub(self.receive_window)
            .saturating_sub(unread)
    }

    // Grants all that is due against `maximum`.
    fn grant(
        &mut self,
        maximum: u32,
        conditions: Conditions,
        growth: u64,
        reason: Reason,
    ) -> Granted
        ensures { (self.new ≡ (moved self.old maximum conditions growth reason).flow)
            × (result ≡ (moved self.old maximum conditions growth reason).granted) }
    {
        let due = self.due(maximum, conditions.unread);
        *self = FlowController {
            last_window_update: conditions.time,
            receive_window: self.receive_window + due,
            max_receive_window: maximum,
            ..*self
        };
        Granted {
            growth,
            update: Some(Due {
                reason,
                credit: Credit(due),
            }),
        }
    }

    // Raises the maximum, and the growth figure by as much.
    fn grow(&mut self, conditions: Conditions) -> Granted
        ensures { (self.new ≡ (grow self.old conditions (new_maximum self.old.max_receive_window (budget conditions))).flow)
            × (result ≡ (grow self.old conditions (new_maximum self.old.max_receive_window (budget conditions))).granted) }
    {
        let old = self.max_receive_window;
        let maximum = new_maximum(old, budget(conditions));
        let growth = conditions.growth + u64::from(maximum - old);
        self.grant(maximum, conditions, growth, grown(old, maximum))
    }

    // The credit due to the remote is taken into the receive window, and what is granted is returned. Less than half of the maximum is not
    // worth a frame.
    pub fn next_window_update(&mut self, conditions: Conditions) -> Granted
        ensures { (self.new ≡ (next_window_update self.old conditions).flow)
            × (result ≡ (next_window_update self.old conditions).granted) }
    {
        let maximum = self.max_receive_window;
        let growth = conditions.growth;
        if self.due(maximum, conditions.unread) < maximum / 2 {
            return Granted {
                growth,
                update: None,
            };
        }
        match pace_of(
            conditions.round_trip,
            self.last_window_update,
            conditions.time,
        ) {
            Pace::Unmeasured => self.grant(maximum, conditions, growth, Reason::Unmeasured),
            Pace::Late => self.grant(maximum, conditions, growth, Reason::Late),
            Pace::Early => self.grow(conditions),
        }
    }

    // The connection's growth figure once the stream's handle is dropped.
    pub fn growth_returned(self, growth: u64) -> u64
        ensures { result ≡ growth_returned growth self }
    {
        growth.saturating_sub(u64::from(self.max_receive_window.saturating_sub(DEFAULT_CREDIT)))
    }

    // The send window falls by i bytes.
    pub fn consume_send_window(&mut self, i: u32) -> Result<(), InvalidWindowUpdate>
        ensures { (self.new ≡ (consume_send self.old i).flow)
            × (result ≡ (consume_send self.old i).verdict) }
    {
        self.send_window = self.send_window.checked_sub(i).ok_or(InvalidWindowUpdate)?;
        Ok(())
    }

    // The send window rises by a credit.
    pub fn increase_send_window_by(&mut self, i: Credit) -> Result<(), InvalidWindowUpdate>
        ensures { (self.new ≡ (increase_send self.old i).flow)
            × (result ≡ (increase_send self.old i).verdict) }
    {
        self.send_window = self
            .send_window
            .checked_add(i.0)
            .ok_or(InvalidWindowUpdate)?;
        Ok(())
    }

    // The receive window falls by i bytes.
    pub fn consume_receive_window(&mut self, i: u32) -> Result<(), InvalidWindowUpdate>
        ensures { (self.new ≡ (consume_receive self.old i).flow)
            × (result ≡ (consume_receive self.old i).verdict) }
    {
        self.receive_window = self
            .receive_window
            .checked_sub(i)
            .ok_or(InvalidWindowUpdate)?;
        Ok(())
    }
}
