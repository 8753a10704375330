// What the promises of the engine are about. The definitions stand in specs/; this crate has the few types that code and definitions share.
#![tactic(auto)]

use numbers::{Role, Session, SetName, User};

// The two kinds of separation set.
#[derive(Clone, Copy)]
pub enum Kind {
    Static,
    Dynamic,
}

// An SSD or DSD set: roles and a cardinality. In a state of the engine's own, one that is not there has no roles and the cardinality 0.
// Kept (1): `there` stays a flag and the set no Option: a state of any numbers may hold roles where no set is there, and `View.set_of`, `norole` and `policycheck::formed` speak of them.
#[derive(Clone, Copy)]
pub struct RoleSet {
    pub there: bool,
    pub card: u64,
    pub roles: u64,
}

// A session: its owner and its active roles. In a state of the engine's own, one that is not live has the owner 0 and no roles.
// Kept (1): `live` stays a flag and the session no Option: a state of any numbers may hold active roles where no session is live, and `View.session_of`, `shedded` of model/specs/Words and `policycheck::formed` speak of them.
#[derive(Clone, Copy)]
pub struct SessionRecord {
    pub live: bool,
    pub owner: u64,
    pub active: u64,
}

// Every command. A list of roles, where the command takes one, is passed beside it.
#[derive(Clone, Copy)]
pub enum Command {
    AddUser(User),
    AddRole(Role),
    NoUser(User),
    NoRole(Role),
    Assign(User, Role),
    Deassign(User, Role),
    Grant(u16, u16, Role),
    Revoke(u16, u16, Role),
    Inherit(Role, Role),
    Disinherit(Role, Role),
    MakeSet(Kind, SetName, u16),
    DropSet(Kind, SetName),
    AddMember(Kind, SetName, Role),
    DropMember(Kind, SetName, Role),
    SetCardinality(Kind, SetName, u16),
    OpenSession(User),
    Activate(User, Session, Role),
    DropActive(User, Session, Role),
    EndSession(User, Session),
    EndAll(User),
}

// Every question.
#[derive(Clone, Copy)]
pub enum Question {
    Check(Session, u16, u16),
    AssignedUsers(Role),
    AssignedRoles(User),
    AuthUsers(Role),
    AuthRoles(User),
    RolePerms(Role),
    UserPerms(User),
    SessionRoles(Session),
    SessionPerms(Session),
    RoleOps(Role, u16),
    UserOps(User, u16),
    Sets(Kind),
    SetRoles(Kind, SetName),
    SetCount(Kind, SetName),
}
