// The policy file: a state is saved to a lent buffer, and loaded from any bytes.
// Kept (6): no heap: a file is written into an array that is as long as the longest.
#![tactic(auto)]

ghost use Rattle.std.specs.Prelude.{◌≡◌, ◌≤◌, length};
ghost use Rattle.numbers.specs.Answers.{number_of};
ghost use Rattle.state.specs.View.{view, told};
ghost use Rattle.policyform.specs.Encode.{encode};
ghost use Rattle.policyform.specs.Promises.{Saves, Loads};
ghost use Rattle.policycheck.specs.Tests.{Tells};
ghost use Rattle.state.specs.Results.{given_number};

use numbers::{Answer, Refusal};
use state::PLACES;
use state::stores::put_all;

// A policy of ours never needs more bytes.
pub const LONGEST_FILE: usize = 36048;

// Saves the state, and answers the length of its file: it is written into a buffer of our own, since one that is too short is not touched. A policy of ours fits there.
pub fn save(state: &[u64; PLACES], out: &mut [u8]) -> Result<usize, Refusal>
    ensures { Saves (view state.now) out.old out.new (number_of result) (given_number result) }
{
    let mut file = [0u8; LONGEST_FILE];
    let length = policywrite::write(state, &mut file);
    if out.len() < length {
        return Err(Refusal::BufferShort);
    }
    if length <= LONGEST_FILE {
        out[..length].copy_from_slice(&file[..length]);
    } else {
        policywrite::write(state, out);
    }
    Ok(length)
}

// Are the bytes the file of the state? It is written again and compared.
fn is_file(state: &[u64; PLACES], bytes: &[u8]) -> bool
    requires { length bytes.now ≤ 36048 }
    ensures { Tells result (encode (view state.now) ≡ bytes.now) }
{
    let mut file = [0u8; LONGEST_FILE];
    let length = policywrite::write(state, &mut file);
    length == bytes.len() && &file[..length] == bytes
}

// Loads a file: the bytes are gathered into an array of our own without a test, this state is tested, and it is written again and compared with the bytes. It is stored where it is accepted.
pub fn load(state: &mut [u64; PLACES], bytes: &[u8]) -> Answer
    ensures { Loads (view state.old) bytes.now (told result state.new) }
{
    if LONGEST_FILE < bytes.len() {
        return Err(Refusal::NotOfForm);
    }
    let mut read = [0u64; PLACES];
    policyread::gather(bytes, &mut read);
    if !policycheck::formed(&read) || !is_file(&read, bytes) {
        return Err(Refusal::NotOfForm);
    }
    policycheck::broken(&read)?;
    put_all(state, &read);
    Ok(())
}
