// The model: document 01's rules as definitions, and what is proved of them; in code only its numbers.
#![tactic(auto)]

// ---- 'Numbers'

// Roles are 0 to 63.
pub const ROLES: u8 = 64;

// Events and conditions are 0 to 127, two for each role.
pub const EVENTS: u8 = 128;

// Priorities are 0 to 15.
pub const PRIORITIES: u8 = 16;

// The last instant that is stepped.
pub const LAST_INSTANT: u32 = 16777215;

pub const PERIODIC_ROWS: u16 = 128;

pub const TRIGGER_ROWS: u16 = 256;

// The most requests of one instant.
pub const REQUESTS: usize = 32;

pub const LONGEST_DELAY: u8 = 60;

// The rows of the waiting buffer: for an instant, and for 60 after it.
pub const WAITING_ROWS: u64 = 61;

// ---- 'The sheet'

// An end that says 'no end'.
pub const NO_END: u32 = 0xffffffff;

pub const LONGEST_PERIOD: u32 = 10080;

// The most events of a trigger.
pub const BODY_EVENTS: u8 = 4;

// The most conditions of a trigger.
pub const BODY_CONDITIONS: u8 = 4;
