// Lists of roles, as commands are given them. A list may be of any length and in any order; one that is not strictly ascending is answered 14.
#![tactic(auto)]

ghost use Rattle.lists.specs.Reading.{Reads};

// What a list of roles holds: whether it is strictly ascending, whether some number is beyond the roles' range, and the set of its roles.
// Kept (1): `ascending` stays a flag and `read` gives no Result: its promise `Reads` says what a list holds that is not ascending, too.
#[derive(Clone, Copy)]
pub struct Listed {
    pub ascending: bool,
    pub beyond: bool,
    pub roles: u64,
}

// Reads the list once, from its start.
pub fn read(list: &[u16]) -> Listed
    ensures { Reads list.now result }
{
    let mut ascending = true;
    let mut beyond = false;
    let mut roles: u64 = 0;
    let mut bound: u32 = 0;
    for &r in list {
        ascending &= bound <= u32::from(r);
        let over = 64 <= r;
        beyond |= over;
        roles = roleset::with(roles, r);
        bound = u32::from(r) + 1;
    }
    Listed {
        ascending,
        beyond,
        roles,
    }
}
