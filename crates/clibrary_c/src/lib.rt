// The functions of `clibrary` under their names for C, each with the promise that it has there. include/marruskil.h declares them.
#![tactic(auto)]

ghost use Rattle.std.specs.Prelude.{◌≡◌};
ghost use Rattle.model.specs.Model.{empty};
ghost use Rattle.model.specs.commands.Sessions.{check};
ghost use Rattle.policyform.specs.Promises.{Loads};
ghost use Rattle.script.specs.Script.{obey};
ghost use Rattle.state.specs.View.{view};
ghost use Rattle.clibrary.specs.Calls.{Obeys, ChecksAt, SavesAt, loaded};

use state::PLACES;

// The numbers become the empty policy with no session, whatever they were.
#[unsafe(no_mangle)]
pub extern "C" fn marruskil_start(state: &mut [u64; PLACES])
    ensures { view state.new ≡ empty }
{
    clibrary::marruskil_start(state);
}

// Obeys one line of a script.
#[unsafe(no_mangle)]
pub extern "C" fn marruskil_obey(state: &mut [u64; PLACES], line: &[u8], out: &mut [u8]) -> usize
    ensures { Obeys (view state.old) (obey (view state.old) line.now) out.old out.new result state.new }
{
    clibrary::marruskil_obey(state, line, out)
}

// May the session do the operation on the object?
#[unsafe(no_mangle)]
pub extern "C" fn marruskil_check(
    state: &[u64; PLACES],
    session: u64,
    operation: u64,
    object: u64,
    res: &mut u8,
    looked: &mut u16,
) -> u16
    ensures { ChecksAt (check (view state.now) session operation object) res.old res.new looked.old looked.new result }
{
    clibrary::marruskil_check(state, session, operation, object, res, looked)
}

// Loads a policy file, any bytes.
#[unsafe(no_mangle)]
pub extern "C" fn marruskil_load(state: &mut [u64; PLACES], file: &[u8]) -> u16
    ensures { Loads (view state.old) file.now (loaded result state.new) }
{
    clibrary::marruskil_load(state, file)
}

// Saves the policy and sessions as a file.
#[unsafe(no_mangle)]
pub extern "C" fn marruskil_save(state: &[u64; PLACES], out: &mut [u8], length: &mut usize) -> u16
    ensures { SavesAt (view state.now) out.old out.new length.old length.new result }
{
    clibrary::marruskil_save(state, out, length)
}
