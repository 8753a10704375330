// The policies that are measured. At depth 2 the school's course: sixteen benches, each with the roles capture, review, release and lead, the lead above capture and review; static sets hold capture and release of a bench apart, dynamic sets the review of a bench and the release of the next. At depth 4, 8, 16, 32 or 63 the same 64 roles stand in chains of that many, and the static sets hold role 63 apart from the lowest sixteen.
use model::Kind;
use numbers::{Role, SetName, User};
use state::PLACES;

// A bench's roles, in the order of their numbers.
#[derive(Clone, Copy)]
pub(crate) enum Post {
    Capture,
    Review,
    Release,
    Lead,
}

// The number of a bench's role.
fn number_at(b: u16, post: Post) -> u16 {
    b % 16 * 4 + post as u16
}

// A bench's role.
pub(crate) fn of_bench(b: u16, post: Post) -> Role {
    Role {
        number: number_at(b, post),
    }
}

// The roles right below role r: those of a lead, or the next of a chain.
fn below(depth: u16, r: u16) -> [Option<u16>; 2] {
    if depth < 3 && r % 4 == 3 {
        [Some(r - 3), Some(r - 2)]
    } else if depth < 3 || r % depth == 0 {
        [None, None]
    } else {
        [Some(r - 1), None]
    }
}

// The role that user u starts with: the lead of a bench, or the top of a chain.
pub(crate) fn top(depth: u16, u: u16) -> u16 {
    match depth {
        8 => u % 8 * 8 + 7,
        16 => u % 4 * 16 + 15,
        32 => u % 2 * 32 + 31,
        63 => 62 + u % 2,
        _ => number_at(u, Post::Lead),
    }
}

// The second role of user u, in the school: the release of the next bench.
fn other(depth: u16, u: u16) -> Option<Role> {
    (depth < 3).then_some(of_bench(u % 16 + 1, Post::Release))
}

// The two roles that a set of the school holds apart: of a static set capture and release of bench n, of a dynamic set its review and the next one's release.
pub(crate) fn pair_of(kind: Kind, n: u16) -> [u16; 2] {
    let b = n % 16;
    match kind {
        Kind::Static => [number_at(b, Post::Capture), number_at(b, Post::Release)],
        Kind::Dynamic if b == 15 => [number_at(0, Post::Release), number_at(b, Post::Review)],
        Kind::Dynamic => [number_at(b, Post::Review), number_at(b + 1, Post::Release)],
    }
}

// Kept (5): the depth names the policy that is measured. A struct of it and the state would borrow the state, and be taken apart at each command of the engine.
fn add_lines(state: &mut [u64; PLACES], depth: u16, r: u16) {
    for junior in below(depth, r).into_iter().flatten() {
        let _ = inheriting::inherit(state, Role { number: r }, Role { number: junior });
    }
}

fn add_grant(state: &mut [u64; PLACES], n: u16) {
    let b = n / 48 % 16;
    let kind = n / 16 % 3;
    let obj = b * 16 + n % 16;
    let r = Role {
        number: b * 4 + kind,
    };
    let _ = granting::grant(state, kind, obj, r);
}

fn add_sets(state: &mut [u64; PLACES], depth: u16, n: u16) {
    let name = SetName { number: n };
    if depth < 3 {
        let apart = pair_of(Kind::Static, n);
        let _ = sets::make_set(state, Kind::Static, name, 2, &apart);
        let active = pair_of(Kind::Dynamic, n);
        let _ = sets::make_set(state, Kind::Dynamic, name, 2, &active);
    } else {
        let _ = sets::make_set(state, Kind::Static, name, 2, &[n, 63]);
    }
}

fn add_assignments(state: &mut [u64; PLACES], depth: u16, u: u16) {
    let user = User { number: u };
    let first = Role {
        number: top(depth, u),
    };
    let _ = assigning::assign(state, user, first);
    if let Some(second) = other(depth, u) {
        let _ = assigning::assign(state, user, second);
    }
}

fn add_session(state: &mut [u64; PLACES], depth: u16, u: u16) {
    let _ = sessions::session(state, User { number: u }, &[top(depth, u)]);
}

// The users, the roles, the lines below each role, the grants, the sets of each name, the assignments of each user, and the sessions of sixteen users.
pub(crate) fn build(state: &mut [u64; PLACES], depth: u16, users: u16) {
    state::stores::start(state);
    (0..users).for_each(|u| {
        let _ = users::user(state, User { number: u });
    });
    (0..64).for_each(|r| {
        let _ = roles::role(state, Role { number: r });
    });
    (0..64).for_each(|r| add_lines(state, depth, r));
    (0..768).for_each(|n| add_grant(state, n));
    (0..16).for_each(|n| add_sets(state, depth, n));
    (0..users).for_each(|u| add_assignments(state, depth, u));
    (0..16).for_each(|u| add_session(state, depth, u));
}
