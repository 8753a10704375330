// Why the desk fails, as it says on standard error.
use std::{fmt, io};

#[derive(Drop)]
pub(crate) enum Fault<'a> {
    Usage,
    // a name that cannot be taken: which, and why
    Name(&'static str, &'static str),
    // what the system says of the file of that name
    File(&'a str, io::Error),
    Unloaded,
    Unread,
    Unprinted,
    Unsaved,
}

impl fmt::Display for Fault<'_> {
    fn fmt<W: fmt::Write>(&self, f: &mut fmt::Formatter<W>) -> fmt::Result {
        match self {
            Fault::Usage => f.write_str("desk: usage: desk POLICY [NEW] < SCRIPT"),
            Fault::Name(which, why) => write!(f, "desk: {which}: {why}"),
            Fault::File(name, e) => write!(f, "{name}: {e}"),
            Fault::Unloaded => {
                f.write_str("desk: no line is answered: the policy file does not load")
            }
            Fault::Unread => {
                f.write_str("desk: nothing is answered: the script could not be read whole")
            }
            Fault::Unprinted => {
                f.write_str("desk: not all was printed, and nothing is saved: a write failed")
            }
            Fault::Unsaved => f.write_str("desk: nothing is saved: no room for the file"),
        }
    }
}
