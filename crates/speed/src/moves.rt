// Single moves, by number: each is one command with arguments that change from round to round, done or refused as said in the school's policy. A move with no number here is none, and costs what choosing a move costs.
// Kept (1, 7): a move stays a number, as speed/moves and the C program name it (90 to 92 too, which `run` has): an enum of the fifty would say each number a second time, and be matched as often.
use crate::school::{Post, of_bench, pair_of, top};
use model::Kind;
use numbers::{Answer, Role, Session, SetName, User};
use state::PLACES;

// The spare role of the bench's user: the review of another bench, or the role in the middle of a chain.
fn spare(depth: u16, b: u16) -> Role {
    if depth < 3 {
        of_bench(b % 16 + 2, Post::Review)
    } else {
        Role { number: 17 }
    }
}

// The senior of a line that may be drawn: the bench's lead, or the top of the first chain.
fn senior(depth: u16, b: u16) -> Role {
    if depth < 3 {
        of_bench(b, Post::Lead)
    } else {
        Role { number: depth - 1 }
    }
}

// `user`, `nouser` and `end-all`, `role` and `norole`: done, refused with 4, 8 and 16. Of the users with a session open, 0 to 15, and those with none.
fn of_users(state: &mut [u64; PLACES], m: u64, b: u16) -> Answer {
    let user = User { number: b };
    let idle = User {
        number: b % 16 + 16,
    };
    match m {
        0 => users::user(state, User { number: 255 }),
        1 => users::nouser(state, User { number: 255 }),
        2 => users::user(state, user),
        3 => roles::norole(state, Role { number: 63 }),
        4 => roles::role(state, Role { number: 63 }),
        5 => roles::role(state, Role { number: b }),
        6 => roles::norole(state, of_bench(b, Post::Capture)),
        7 => users::nouser(state, user),
        8 => users::end_all(state, idle),
        _ => Ok(()),
    }
}

// `assign` and `deassign`: done, refused with 4, 10, 2 and 5.
fn of_assignments(state: &mut [u64; PLACES], m: u64, depth: u16, b: u16) -> Answer {
    let user = User { number: b };
    let own = Role {
        number: top(depth, b),
    };
    let r = spare(depth, b);
    match m {
        10 => assigning::assign(state, user, r),
        11 | 15 => assigning::deassign(state, user, r),
        12 => assigning::assign(state, user, own),
        13 => assigning::assign(state, user, of_bench(b, Post::Release)),
        14 => assigning::assign(state, User { number: 255 }, r),
        _ => Ok(()),
    }
}

// `grant` and `revoke`: done, refused with 4 and 5.
fn of_grants(state: &mut [u64; PLACES], m: u64, i: u64, b: u16) -> Answer {
    let obj = (i % 256) as u16;
    let r = Role { number: b };
    match m {
        20 => granting::grant(state, 5, obj, r),
        21 => granting::revoke(state, 5, obj, r),
        22 => granting::grant(state, 0, b % 16 * 16, of_bench(b, Post::Capture)),
        23 => granting::revoke(state, 6, obj, r),
        _ => Ok(()),
    }
}

// `inherit` and `disinherit`: done, refused with 4, 6, 10, 5 and 11. With the line of move 36 the session of the bench's lead would have the release of the next bench in effect, which a dynamic set holds apart from the lead's review.
fn of_lines(state: &mut [u64; PLACES], m: u64, depth: u16, b: u16) -> Answer {
    let r = spare(depth, b);
    let s = senior(depth, b);
    let lead = of_bench(b, Post::Lead);
    let capture = of_bench(b, Post::Capture);
    match m {
        30 => inheriting::inherit(state, s, r),
        31 | 35 => inheriting::disinherit(state, s, r),
        32 => inheriting::inherit(state, lead, capture),
        33 => inheriting::inherit(state, capture, lead),
        34 => inheriting::inherit(state, lead, of_bench(b, Post::Release)),
        36 => inheriting::inherit(state, lead, of_bench(b % 16 + 1, Post::Release)),
        _ => Ok(()),
    }
}

// The commands of sets, of either kind: done, refused with 10 or 11, 5 and 7.
fn of_sets(state: &mut [u64; PLACES], m: u64, kind: Kind, b: u16) -> Answer {
    let name = SetName { number: b };
    let other = of_bench(b % 16 + 5, Post::Capture);
    match m {
        0 => sets::drop_set(state, kind, name),
        1 => sets::make_set(state, kind, name, 2, &pair_of(kind, b)),
        2 => sets::add_member(state, kind, name, other),
        3 | 6 => sets::drop_member(state, kind, name, other),
        4 => sets::set_cardinality(state, kind, name, 2),
        5 => sets::add_member(state, kind, name, of_bench(b, Post::Lead)),
        7 => sets::set_cardinality(state, kind, name, 3),
        _ => Ok(()),
    }
}

// `session`: its answer.
fn opened(state: &mut [u64; PLACES], u: User, list: &[u16]) -> Answer {
    sessions::session(state, u, list).map(|_| ())
}

// `session` and `end`, `activate` and `drop`: done, refused with 9, 3, 4, 5 and 11. Sixteen sessions are open, so that the next is session 16. The two roles of move 68 are those that a dynamic set holds apart; move 69 opens a session for a user with none.
fn of_sessions(state: &mut [u64; PLACES], m: u64, depth: u16, b: u16) -> Answer {
    let user = User { number: b };
    let next = User { number: b % 16 + 1 };
    let idle = User {
        number: b % 16 + 16,
    };
    let own = Session { number: b };
    let lead = top(depth, b);
    let capture = of_bench(b, Post::Capture);
    match m {
        60 => opened(state, user, &[lead]),
        61 => sessions::end(state, user, Session { number: 16 }),
        62 => sessions::activate(state, user, own, capture),
        63 => sessions::drop(state, user, own, capture),
        64 => opened(state, next, &[lead]),
        65 => sessions::end(state, next, own),
        66 => sessions::activate(state, user, own, Role { number: lead }),
        67 => sessions::drop(state, user, own, of_bench(b, Post::Release)),
        68 => opened(state, user, &pair_of(Kind::Dynamic, b)),
        69 => opened(state, idle, &[lead]),
        _ => Ok(()),
    }
}

// Move m of round i. The bench is an even one, so that at every depth its user may take the spare role.
pub(crate) fn moved(state: &mut [u64; PLACES], m: u64, depth: u16, i: u64) -> Answer {
    let b = (i % 8 * 2) as u16;
    match m / 10 {
        0 => of_users(state, m, b),
        1 => of_assignments(state, m, depth, b),
        2 => of_grants(state, m, i, b),
        3 => of_lines(state, m, depth, b),
        4 => of_sets(state, m % 10, Kind::Static, b),
        5 => of_sets(state, m % 10, Kind::Dynamic, b),
        6 => of_sessions(state, m, depth, b),
        _ => Ok(()),
    }
}
