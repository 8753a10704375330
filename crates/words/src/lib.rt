// The words of a script: which word a text is, a word put into a buffer, and how many numbers each takes.
#![tactic(auto)]

ghost use Rattle.std.specs.Prelude.{◌≡◌, ◌≤◌, map, MatchOption};
ghost use Rattle.std.specs.Option.{option_map};
ghost use Rattle.text.specs.Putting.{Put};
ghost use Rattle.words.specs.Rows.{described, in_order, named, number};
ghost use Rattle.words.specs.ScriptWords.{spelling, takes, which, word_count, word_of, words};

use Follows::{Exactly, ThenRoles};

// The words, in the order of their numbers. A new word comes last, and its row is the last of the table.
#[derive(Clone, Copy, PartialEq, Eq)]
pub enum Word {
    User,
    Role,
    NoUser,
    NoRole,
    Assign,
    Deassign,
    Grant,
    Revoke,
    Inherit,
    Disinherit,
    Session,
    Activate,
    Drop,
    End,
    Ssd,
    NoSsd,
    SsdAdd,
    SsdDrop,
    SsdCard,
    Dsd,
    NoDsd,
    DsdAdd,
    DsdDrop,
    DsdCard,
    Check,
    AssignedUsers,
    AssignedRoles,
    AuthUsers,
    AuthRoles,
    RolePerms,
    UserPerms,
    SessionRoles,
    SessionPerms,
    RoleOps,
    UserOps,
    SsdSets,
    SsdRoles,
    SsdCount,
    DsdSets,
    DsdRoles,
    DsdCount,
    EndAll,
}

// What follows a word: so many numbers, or so many and then a list of roles of any length.
enum Follows {
    Exactly(u16),
    ThenRoles(u16),
}

// A word, its letters, and what follows it.
struct Row(Word, &'static [u8], Follows);

// A row for each word, in their order.
static ROWS: &[Row] = &[
    Row(Word::User, b"user", Exactly(1)),
    Row(Word::Role, b"role", Exactly(1)),
    Row(Word::NoUser, b"nouser", Exactly(1)),
    Row(Word::NoRole, b"norole", Exactly(1)),
    Row(Word::Assign, b"assign", Exactly(2)),
    Row(Word::Deassign, b"deassign", Exactly(2)),
    Row(Word::Grant, b"grant", Exactly(3)),
    Row(Word::Revoke, b"revoke", Exactly(3)),
    Row(Word::Inherit, b"inherit", Exactly(2)),
    Row(Word::Disinherit, b"disinherit", Exactly(2)),
    Row(Word::Session, b"session", ThenRoles(1)),
    Row(Word::Activate, b"activate", Exactly(3)),
    Row(Word::Drop, b"drop", Exactly(3)),
    Row(Word::End, b"end", Exactly(2)),
    Row(Word::Ssd, b"ssd", ThenRoles(2)),
    Row(Word::NoSsd, b"nossd", Exactly(1)),
    Row(Word::SsdAdd, b"ssd-add", Exactly(2)),
    Row(Word::SsdDrop, b"ssd-drop", Exactly(2)),
    Row(Word::SsdCard, b"ssd-card", Exactly(2)),
    Row(Word::Dsd, b"dsd", ThenRoles(2)),
    Row(Word::NoDsd, b"nodsd", Exactly(1)),
    Row(Word::DsdAdd, b"dsd-add", Exactly(2)),
    Row(Word::DsdDrop, b"dsd-drop", Exactly(2)),
    Row(Word::DsdCard, b"dsd-card", Exactly(2)),
    Row(Word::Check, b"check", Exactly(3)),
    Row(Word::AssignedUsers, b"assigned-users", Exactly(1)),
    Row(Word::AssignedRoles, b"assigned-roles", Exactly(1)),
    Row(Word::AuthUsers, b"auth-users", Exactly(1)),
    Row(Word::AuthRoles, b"auth-roles", Exactly(1)),
    Row(Word::RolePerms, b"role-perms", Exactly(1)),
    Row(Word::UserPerms, b"user-perms", Exactly(1)),
    Row(Word::SessionRoles, b"session-roles", Exactly(1)),
    Row(Word::SessionPerms, b"session-perms", Exactly(1)),
    Row(Word::RoleOps, b"role-ops", Exactly(2)),
    Row(Word::UserOps, b"user-ops", Exactly(2)),
    Row(Word::SsdSets, b"ssd-sets", Exactly(0)),
    Row(Word::SsdRoles, b"ssd-roles", Exactly(1)),
    Row(Word::SsdCount, b"ssd-count", Exactly(1)),
    Row(Word::DsdSets, b"dsd-sets", Exactly(0)),
    Row(Word::DsdRoles, b"dsd-roles", Exactly(1)),
    Row(Word::DsdCount, b"dsd-count", Exactly(1)),
    Row(Word::EndAll, b"end-all", Exactly(1)),
];

// The table, as the definition tells it.
fn rows() -> &'static [Row]
    ensures rows { map described result.now ≡ words }
    ensures in_order { map (λ r. r.0) result.now ≡ in_order }
{
    ROWS
}

// The number of a word: its place in the table.
pub fn number(word: Word) -> u16
    ensures { result ≡ number word }
{
    word as u16
}

// Kept (1): what is promised of a number of a word, here and of `meaning`, holds of any number: one that takes a `Word` would ask more of the caller.
// The row at a number. There is none past the last word.
fn row_of(k: u16) -> Option<&'static Row>
    ensures row { MatchOption result (word_count ≤ k) (λ row. described row.now ≡ word_of k) }
    ensures word { option_map (λ row. row.now.0) result ≡ named k }
{
    rows().get(usize::from(k))
}

// The word with a number, if it is that of one.
pub fn numbered(k: u16) -> Option<Word>
    ensures { result ≡ named k }
{
    row_of(k).map(|row| row.0)
}

// The word that the text is, if it is one.
pub fn which(text: &[u8]) -> Option<Word>
    ensures { result ≡ named (which text.now) }
{
    rows().iter().find(|row| text == row.1).map(|row| row.0)
}

// Puts the word with a number; of no word, no bytes.
pub fn put_word(buf: &mut [u8], at: usize, k: u16) -> usize
    ensures { Put buf.old at (spelling k) buf.new result }
{
    let Some(Row(_, letters, _)) = row_of(k) else {
        return at;
    };
    text::put_text(buf, at, letters)
}

// How many numbers stand before the list of roles.
pub fn before_list(k: u16) -> u16
    ensures { result ≡ (word_of k).numbers }
{
    let Some(Row(_, _, follows)) = row_of(k) else {
        return 0;
    };
    match follows {
        Exactly(count) | ThenRoles(count) => *count,
    }
}

// May the word be followed by so many numbers?
pub fn takes(k: u16, n: u16) -> bool
    ensures { result ≡ takes k n }
{
    let Some(Row(_, _, follows)) = row_of(k) else {
        return n == 0;
    };
    match follows {
        Exactly(count) => n == *count,
        ThenRoles(count) => *count <= n,
    }
}
