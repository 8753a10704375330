// What a line asks for: the command or question that its word names, with its numbers. A list of roles is passed beside it.
#![tactic(auto)]

ghost use Rattle.std.specs.Prelude.{◌≡◌};
ghost use Rattle.words.specs.Rows.{number};
ghost use Rattle.meaning.specs.Meaning.{meant};

use Meant::{Ask, Do};
use model::{Command, Kind, Question};
use numbers::{Role, Session, SetName, User};
use words::Word;

// A command to obey, or a question to ask.
#[derive(Clone, Copy)]
pub enum Meant {
    Do(Command),
    Ask(Question),
}

// What a word asks for, with its first three numbers.
#[tactic(auto, unfolding(crate::specs::Meaning::meant, crate::specs::Meaning::meanings))]
fn of_word(word: Word, a: u16, b: u16, c: u16) -> Meant
    ensures { Some result ≡ meant (number word) a b c }
{
    let user_a = User { number: a };
    let role_a = Role { number: a };
    let role_b = Role { number: b };
    let role_c = Role { number: c };
    let session_a = Session { number: a };
    let session_b = Session { number: b };
    let set_a = SetName { number: a };
    let ssd = Kind::Static;
    let dsd = Kind::Dynamic;
    match word {
        Word::User => Do(Command::AddUser(user_a)),
        Word::Role => Do(Command::AddRole(role_a)),
        Word::NoUser => Do(Command::NoUser(user_a)),
        Word::NoRole => Do(Command::NoRole(role_a)),
        Word::Assign => Do(Command::Assign(user_a, role_b)),
        Word::Deassign => Do(Command::Deassign(user_a, role_b)),
        Word::Grant => Do(Command::Grant(a, b, role_c)),
        Word::Revoke => Do(Command::Revoke(a, b, role_c)),
        Word::Inherit => Do(Command::Inherit(role_a, role_b)),
        Word::Disinherit => Do(Command::Disinherit(role_a, role_b)),
        Word::Session => Do(Command::OpenSession(user_a)),
        Word::Activate => Do(Command::Activate(user_a, session_b, role_c)),
        Word::Drop => Do(Command::DropActive(user_a, session_b, role_c)),
        Word::End => Do(Command::EndSession(user_a, session_b)),
        Word::Ssd => Do(Command::MakeSet(ssd, set_a, b)),
        Word::NoSsd => Do(Command::DropSet(ssd, set_a)),
        Word::SsdAdd => Do(Command::AddMember(ssd, set_a, role_b)),
        Word::SsdDrop => Do(Command::DropMember(ssd, set_a, role_b)),
        Word::SsdCard => Do(Command::SetCardinality(ssd, set_a, b)),
        Word::Dsd => Do(Command::MakeSet(dsd, set_a, b)),
        Word::NoDsd => Do(Command::DropSet(dsd, set_a)),
        Word::DsdAdd => Do(Command::AddMember(dsd, set_a, role_b)),
        Word::DsdDrop => Do(Command::DropMember(dsd, set_a, role_b)),
        Word::DsdCard => Do(Command::SetCardinality(dsd, set_a, b)),
        Word::Check => Ask(Question::Check(session_a, b, c)),
        Word::AssignedUsers => Ask(Question::AssignedUsers(role_a)),
        Word::AssignedRoles => Ask(Question::AssignedRoles(user_a)),
        Word::AuthUsers => Ask(Question::AuthUsers(role_a)),
        Word::AuthRoles => Ask(Question::AuthRoles(user_a)),
        Word::RolePerms => Ask(Question::RolePerms(role_a)),
        Word::UserPerms => Ask(Question::UserPerms(user_a)),
        Word::SessionRoles => Ask(Question::SessionRoles(session_a)),
        Word::SessionPerms => Ask(Question::SessionPerms(session_a)),
        Word::RoleOps => Ask(Question::RoleOps(role_a, b)),
        Word::UserOps => Ask(Question::UserOps(user_a, b)),
        Word::SsdSets => Ask(Question::Sets(ssd)),
        Word::SsdRoles => Ask(Question::SetRoles(ssd, set_a)),
        Word::SsdCount => Ask(Question::SetCount(ssd, set_a)),
        Word::DsdSets => Ask(Question::Sets(dsd)),
        Word::DsdRoles => Ask(Question::SetRoles(dsd, set_a)),
        Word::DsdCount => Ask(Question::SetCount(dsd, set_a)),
        Word::EndAll => Do(Command::EndAll(user_a)),
    }
}

// What the word with a number asks for. A number past the last word asks for nothing.
pub fn meaning(word: u16, a: u16, b: u16, c: u16) -> Option<Meant>
    ensures { result ≡ meant word a b c }
{
    let word = words::numbered(word)?;
    Some(of_word(word, a, b, c))
}
