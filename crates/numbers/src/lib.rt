// Numbers that cannot be mistaken for each other, and the answer sheet.
#![tactic(auto)]

ghost use Rattle.std.specs.Prelude.{◌≡◌, ℕ, leb};
ghost use Rattle.numbers.specs.Answers.{number_of, answer_of};
ghost use Rattle.numbers.specs.Reading.{Refuses};
ghost use Rattle.numbers.specs.Ranges.{users, roles, sessions, sets, activation_beyond};

// User, role, session and set numbers all start at 0, so each has a type of its own: one given where another belongs does not type-check. Each holds any 16-bit number, since a number beyond its range is refused by an answer.
#[derive(Clone, Copy, PartialEq, Eq)]
pub struct User {
    pub number: u16,
}

#[derive(Clone, Copy, PartialEq, Eq)]
pub struct Role {
    pub number: u16,
}

#[derive(Clone, Copy, PartialEq, Eq)]
pub struct Session {
    pub number: u16,
}

// The name of an SSD or DSD set.
#[derive(Clone, Copy, PartialEq, Eq)]
pub struct SetName {
    pub number: u16,
}

// What is numbered, from 0 on: how many numbers there are, and whether one is beyond them.
pub trait Numbered: Copy {
    const COUNT: u16;

    ghost COUNT: { ℕ };

    ghost its_number: { Self → ℕ };

    // The number, which may be beyond its range.
    fn number(self) -> u16
        ensures { result ≡ its_number self };

    // Is the number beyond its range?
    fn is_beyond(self) -> bool
        ensures { result ≡ leb COUNT (its_number self) }
    {
        Self::COUNT <= self.number()
    }
}

impl Numbered for User {
    const COUNT: u16 = 256;

    ghost COUNT = { users };

    ghost its_number = { λ u. u.number };

    fn number(self) -> u16 {
        self.number
    }
}

impl Numbered for Role {
    const COUNT: u16 = 64;

    ghost COUNT = { roles };

    ghost its_number = { λ r. r.number };

    fn number(self) -> u16 {
        self.number
    }
}

impl Numbered for Session {
    const COUNT: u16 = 64;

    ghost COUNT = { sessions };

    ghost its_number = { λ x. x.number };

    fn number(self) -> u16 {
        self.number
    }
}

impl Numbered for SetName {
    const COUNT: u16 = 16;

    ghost COUNT = { sets };

    ghost its_number = { λ n. n.number };

    fn number(self) -> u16 {
        self.number
    }
}

// Why a command or a question is refused, by the numbers of the answer sheet.
#[derive(Clone, Copy, PartialEq, Eq)]
pub enum Refusal {
    BeyondRange = 1,
    Missing = 2,
    OtherOwner = 3,
    AlreadyThere = 4,
    NotThere = 5,
    InheritsItself = 6,
    BadCardinality = 7,
    StandsInSet = 8,
    NotAuthorised = 9,
    BreaksStatic = 10,
    BreaksDynamic = 11,
    TableFull = 12,
    NotOfForm = 14,
    BufferShort = 15,
    HasOpenSessions = 16,
}

// An answer of the sheet: done, or refused.
pub type Answer = Result<(), Refusal>;

// The paper's number of an answer: 0 where it was done.
pub fn number_of(a: Answer) -> u16
    ensures { result ≡ number_of a }
{
    match a {
        Ok(()) => 0,
        Err(refusal) => refusal as u16,
    }
}

// A number that no refusal has.
#[derive(Clone, Copy, PartialEq, Eq)]
pub struct NoRefusal(pub u16);

impl TryFrom<u16> for Refusal {
    type Error = NoRefusal;

    ghost try_from_gives = { Refuses };

    fn try_from(n: u16) -> Result<Self, NoRefusal> {
        match n {
            1 => Ok(Refusal::BeyondRange),
            2 => Ok(Refusal::Missing),
            3 => Ok(Refusal::OtherOwner),
            4 => Ok(Refusal::AlreadyThere),
            5 => Ok(Refusal::NotThere),
            6 => Ok(Refusal::InheritsItself),
            7 => Ok(Refusal::BadCardinality),
            8 => Ok(Refusal::StandsInSet),
            9 => Ok(Refusal::NotAuthorised),
            10 => Ok(Refusal::BreaksStatic),
            11 => Ok(Refusal::BreaksDynamic),
            12 => Ok(Refusal::TableFull),
            14 => Ok(Refusal::NotOfForm),
            15 => Ok(Refusal::BufferShort),
            16 => Ok(Refusal::HasOpenSessions),
            _ => Err(NoRefusal(n)),
        }
    }
}

// The answer with this number, if there is one.
pub fn answer_of(n: u16) -> Option<Answer>
    ensures { result ≡ answer_of n }
{
    if n == 0 {
        return Some(Ok(()));
    }
    match Refusal::try_from(n) {
        Ok(refusal) => Some(Err(refusal)),
        Err(NoRefusal(_)) => None,
    }
}

// Is one of the three numbers of `activate u s r` or `drop u s r` beyond its range? With the session and the role swapped, neither the calls nor the contract type-check.
pub fn activation_beyond(u: User, s: Session, r: Role) -> bool
    ensures { result ≡ activation_beyond u s r }
{
    u.is_beyond() || s.is_beyond() || r.is_beyond()
}
