// The connection's settings, calls and replies: what the rules of document 01 speak of.
#![tactic(auto)]

ghost use Rattle.std.specs.Prelude.{◌≡◌, ◌≤◌, cond};
ghost use Rattle.rules.specs.Settings.{checked, checked_within, config_of, holds, judged, last_four, mode_of, setting_number};
ghost use Rattle.rules.specs.Replies.{number};

use frame::header::DEFAULT_CREDIT;

// The ten numbers of a connection as they are typed.
#[derive(Clone, Copy, Debug, PartialEq, Eq)]
pub struct Settings {
    pub mode: u64,
    pub max_num_streams: u64,
    pub limit: u64,
    pub read_after_close: u64,
    pub split: u64,
    pub interval: u64,
    pub first_time: u64,
    pub first_id: u64,
    pub slots: u64,
    pub pool: u64,
}

#[derive(Clone, Copy, Debug, PartialEq, Eq)]
pub enum Mode {
    Client,
    Server,
}

// Settings that are in range.
#[derive(Clone, Copy, Debug, PartialEq, Eq)]
pub struct Config {
    pub mode: Mode,
    pub max_num_streams: u32,
    pub limit: u64,
    pub read_after_close: bool,
    pub split: u32,
    pub interval: u64,
    pub first_time: u64,
    pub first_id: u32,
    pub slots: u32,
    pub pool: u32,
}

// The most slots and bytes of pool that a program permits, beside the bounds of every connection.
#[derive(Clone, Copy, Debug, PartialEq, Eq)]
pub struct Most {
    pub slots: u64,
    pub pool: u64,
}

// The settings in the order in which they are read.
#[derive(Clone, Copy, Debug, PartialEq, Eq)]
pub enum Setting {
    Mode,
    Streams,
    Limit,
    ReadAfterClose,
    Split,
    Interval,
    FirstTime,
    FirstId,
    Slots,
    Pool,
}

// The number of a slot, which is what a handle is.
#[derive(Clone, Copy, Debug, PartialEq, Eq)]
pub struct Slot(pub u32);

// The numbered replies.
#[derive(Clone, Copy, Debug, PartialEq, Eq)]
pub enum Reply {
    Done,
    Wait,
    GoAway,
    TooManyStreams,
    NoMoreStreamIds,
    Closed,
    WriteClosed,
    NoSlot,
    NoRoom,
    NotHeld,
    Time,
    Version,
    Type,
    Body,
    Size,
}

// Who waited and waits no more; `all` where the connection ended.
#[derive(Clone, Copy, Debug, PartialEq, Eq)]
pub struct Woke {
    pub reader: bool,
    pub writer: bool,
    pub opener: bool,
    pub all: bool,
}

// Nobody waited.
pub const NOBODY: Woke = Woke {
    reader: false,
    writer: false,
    opener: false,
    all: false,
};

// Times are nanoseconds, 0..2^62-1.
pub const LAST_TIME: u64 = 4611686018427387903;

// The largest number of 32 bits.
const TOP: u64 = u32::MAX as u64;

// As many slots as a connection may have.
const MOST_SLOTS: u64 = 1024;

// Refuses a setting that fails its test.
fn demand(holds: bool, setting: Setting) -> Result<(), Setting>
    ensures { result ≡ cond holds (Ok tt) (Err setting) }
{
    if holds { Ok(()) } else { Err(setting) }
}

// Not TryFrom: a number above 1 is refused before, as the first wrong setting.
fn mode_of(n: u64) -> Mode
    ensures { result ≡ mode_of n }
{
    if n == 0 { Mode::Client } else { Mode::Server }
}

impl Settings {
    // The settings as they are used, or the first of them, in the order in which they are read, that is wrong.
    pub fn check(self) -> Result<Config, Setting>
        ensures { result ≡ checked self }
    {
        self.check_within(Most {
            slots: MOST_SLOTS,
            pool: TOP,
        })
    }

    // The same, of a program that permits no more than this.
    pub fn check_within(self, most: Most) -> Result<Config, Setting>
        ensures { result ≡ checked_within most self }
    {
        demand(self.mode <= 1, Setting::Mode)?;
        demand(self.max_num_streams <= 512, Setting::Streams)?;
        let sure = self.max_num_streams * u64::from(DEFAULT_CREDIT);
        demand(sure <= self.limit, Setting::Limit)?;
        demand(self.read_after_close <= 1, Setting::ReadAfterClose)?;
        demand(1 <= self.split && self.split <= TOP, Setting::Split)?;
        let interval = 1 <= self.interval && self.interval <= LAST_TIME;
        demand(interval, Setting::Interval)?;
        self.check_last(most)
    }

    fn check_last(self, most: Most) -> Result<Config, Setting>
        requires { (self.max_num_streams ≤ 512) × (self.split ≤ 4294967295) }
        ensures { result ≡ judged (holds most self) last_four (Ok (config_of self)) }
    {
        demand(self.first_time <= LAST_TIME, Setting::FirstTime)?;
        demand(self.first_id <= TOP, Setting::FirstId)?;
        let some = 1 <= self.slots && self.slots <= MOST_SLOTS;
        let enough = self.max_num_streams <= self.slots && self.slots <= most.slots;
        demand(some && enough, Setting::Slots)?;
        demand(self.pool <= TOP && self.pool <= most.pool, Setting::Pool)?;
        Ok(self.config())
    }

    // The settings as the connection uses them.
    fn config(self) -> Config
        requires { (self.max_num_streams ≤ 512) × (self.split ≤ 4294967295) × (self.first_id ≤ 4294967295) × (self.slots ≤ 1024) × (self.pool ≤ 4294967295) }
        ensures { result ≡ config_of self }
    {
        Config {
            mode: mode_of(self.mode),
            max_num_streams: self.max_num_streams as u32,
            limit: self.limit,
            read_after_close: self.read_after_close == 1,
            split: self.split as u32,
            interval: self.interval,
            first_time: self.first_time,
            first_id: self.first_id as u32,
            slots: self.slots as u32,
            pool: self.pool as u32,
        }
    }
}

// The number of the reply where this setting is the first wrong one.
impl From<Setting> for u32 {
    ghost from_gives = { λ setting n. n ≡ setting_number setting };

    fn from(setting: Setting) -> u32 {
        match setting {
            Setting::Mode => 21,
            Setting::Streams => 22,
            Setting::Limit => 23,
            Setting::ReadAfterClose => 24,
            Setting::Split => 25,
            Setting::Interval => 26,
            Setting::FirstTime => 27,
            Setting::FirstId => 28,
            Setting::Slots => 29,
            Setting::Pool => 30,
        }
    }
}

impl From<Reply> for u32 {
    ghost from_gives = { λ reply n. n ≡ number reply };

    fn from(reply: Reply) -> u32 {
        match reply {
            Reply::Done => 0,
            Reply::Wait => 1,
            Reply::GoAway => 2,
            Reply::TooManyStreams => 3,
            Reply::NoMoreStreamIds => 4,
            Reply::Closed => 5,
            Reply::WriteClosed => 6,
            Reply::NoSlot => 7,
            Reply::NoRoom => 8,
            Reply::NotHeld => 9,
            Reply::Time => 10,
            Reply::Version => 11,
            Reply::Type => 12,
            Reply::Body => 13,
            Reply::Size => 14,
        }
    }
}
