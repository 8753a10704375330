// The engine's state: one array of numbers, lent. What it means is the model `view` (specs/View); where each part stands is said once more here, for the code (specs/Places has the picture).
// Kept (5, 6): the C interface lends `uint64_t state[4616]`, whose parts stand side by side (specs/Places): a struct in its place would be a copy, and one that borrows it would be made anew at each call.
#![tactic(auto)]

pub mod naming;
pub mod parts;
pub mod reads;
pub mod stores;

// Where each part starts, and how many numbers there are.
pub const HOLDERS: usize = 0;

pub const ASSIGNED: usize = 4096;

pub const JUNIORS: usize = 4352;

pub const SSD_CARDS: usize = 4416;

pub const SSD_ROLES: usize = 4432;

pub const DSD_CARDS: usize = 4448;

pub const DSD_ROLES: usize = 4464;

pub const OWNERS: usize = 4480;

pub const ACTIVE: usize = 4544;

pub const USERS: usize = 4608;

pub const ROLES: usize = 4612;

pub const ASSIGNMENT_COUNT: usize = 4613;

pub const GRANT_COUNT: usize = 4614;

pub const LINE_COUNT: usize = 4615;

pub const PLACES: usize = 4616;
