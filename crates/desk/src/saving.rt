// A file is saved whole or not at all: it is written beside its name, flushed, and only then given the name. Until then what stood under the name is
// as it was. Where a step fails, the file beside is removed.
// Kept (6): fixed memory: the file is made in an array of fixed size, of which the front that is used is lent as a slice.
ghost use Rattle.std.specs.Prelude.{◌≡◌, IfOk, OnOk, OnErr, string_bytes};
ghost use Rattle.std.specs.Io.KnownBytes.{Appends};
ghost use Rattle.state.specs.View.{view};
ghost use Rattle.streams.specs.Writing.{WritesFront};
ghost use Rattle.desk.specs.Desk.{Leaves, Saved, part_name};

use crate::Job;
use crate::fault::Fault;
use policyfile::LONGEST_FILE;
use state::PLACES;
use std::alloc::{AllocError, Allocator};
use std::fs::{OpenFile, OpenOptions};
use std::io::Write;
use std::random::RandomSource;
use std::rt::Files;
use std::{fs, io};

// The file of the policy that a job leaves. No other bytes are one.
#[derive(Clone, Copy)]
struct NewFile<'a> {
    of: Job<'a>,
    bytes: &'a [u8],
    ghost saved: { ∥ Saved of.file.now of.script.now bytes.now ∥₁ },
}

// A number that no other run will draw.
fn random(rt: &impl RandomSource) -> u64 {
    let mut bytes = [0u8; 8];
    let _ = rt.fill_bytes(&mut bytes);
    u64::from_le_bytes(bytes)
}

// Makes the name of the file beside: the name, `.part-` and the number's sixteen digits.
fn put_part_name<A: Allocator>(alloc: A, name: &str, number: u64) -> Result<String<A>, AllocError>
    ensures { IfOk result (λ part. string_bytes part ≡ part_name name.now number) }
{
    format!(in alloc; "{name}.part-{number:016x}")
}

// Writes the file, and waits until its device has it.
fn fill<F: Write + OpenFile>(to: &mut F, file: NewFile) -> io::Result<()>
    ensures writes { OnOk result (Appends (F.contents to.old) (F.contents to.new) file.entry.bytes.now) }
    ensures front { OnErr result (WritesFront file.entry.bytes.now (F.contents to.old) (F.contents to.new)) }
{
    streams::write_whole(to, file.bytes)?;
    to.sync_all()
}

// The folder of a name: what stands up to its last slash.
fn folder_of(name: &str) -> &str {
    match name.rfind('/') {
        Some(at) => &name[..at + 1],
        None => ".",
    }
}

// Has the folder's device keep the new name too, where the system can: until then a crash of the machine may bring the old file back, whole.
fn flush_folder(rt: &impl Files, name: &str) {
    if let Ok(folder) = fs::open(rt, folder_of(name)) {
        let _ = folder.sync_all();
    }
}

// Writes the file as a new one of the name `part`, which is then closed, and gives it the name.
fn replace(rt: &impl Files, file: NewFile, part: &str, name: &str) -> io::Result<()> {
    let mut to = OpenOptions::new()
        .write(true)
        .create_new(true)
        .open(rt, part)?;
    let filled = fill(&mut to, file);
    drop(to);
    let given = filled.and_then(|()| fs::rename(rt, part, name));
    if given.is_err() {
        let _ = fs::remove_file(rt, part);
    }
    given
}

// Saves the file under the name.
fn save_file<R: Alloc + Files + RandomSource>(rt: &R, file: NewFile, name: &str) -> io::Result<()> {
    let part = put_part_name(rt.alloc(), name, random(rt))?;
    replace(rt, file, part.as_str(), name)?;
    flush_folder(rt, name);
    Ok(())
}

// Saves the policy that is left under the name. A policy of ours always fits the buffer.
pub(crate) fn save_state<'a, R: Alloc + Files + RandomSource>(
    rt: &R,
    job: Job,
    state: &[u64; PLACES],
    name: &'a str,
) -> Result<(), Fault<'a>>
    requires { Leaves job.file.now job.script.now (view state.now) }
{
    let mut out = [0u8; LONGEST_FILE];
    let size = policyfile::save(state, &mut out).map_err(|_| Fault::Unsaved)?;
    let file = NewFile {
        of: job,
        bytes: &out[..size],
    };
    save_file(rt, file, name).map_err(|e| Fault::File(name, e))
}
