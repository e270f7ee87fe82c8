// The auditor's program: the names of a sheet and of a slip as arguments, and to standard output the program's first line or its refusal line.
// A file that cannot be opened is told on standard error, and nothing is written to standard output.
#![tactic(auto)]

ghost use Rattle.std.specs.Prelude.{◌≡◌, ◌≤◌, length, take, IfOk, IfSome};
ghost use Rattle.lines.specs.Put.{Put};
ghost use Rattle.audit.specs.Audit.{audit};
ghost use Rattle.auditor.specs.Line.{audit_line};

use std::alloc::Global;
use std::env::{Env, FillError};
use std::io::Read;
use std::rt::Files;
use std::{fs, io, str};

// The line of a sheet and a slip, at the front of a room; how many bytes it is.
fn print(sheet: &[u8], slip: &[u8], out: &mut [u8]) -> usize
    requires { 80 ≤ length out.old }
    ensures { Put out.old 0 (audit_line (audit sheet.now slip.now)) out.new result × (result ≤ 80) }
{
    match audit::audit(sheet, slip) {
        Ok(held) => lines::put_accepted(out, held.side, held.total),
        Err(refusal) => lines::put_refused(out, refusal),
    }
}

// A line on standard error: what failed, and why.
fn fail(rt: &impl Eprint, what: &str, why: &str) -> io::Result<()> {
    eprintln!(rt; "{what}: {why}")
}

// Argument i, or why there is none.
fn name<'a>(rt: &impl Env, i: usize, room: &'a mut [u8]) -> Result<&'a str, &'static str> {
    match rt.arg(i, room) {
        Ok(length) => str::from_utf8(&room[..length]).map_err(
            |_| "Invalid or incomplete multibyte or wide character",
        ),
        Err(FillError::NotPresent) => Err("Invalid argument"),
        Err(FillError::TooLong) => Err("File name too long"),
    }
}

// Why a file cannot be opened, in the system's words alone: the error's text has its number behind them.
fn tell_unopened(rt: &(impl Eprint + AllocGlobal), name: &str, error: io::Error) -> io::Result<()> {
    let text = format!(in rt.alloc(); "{error}")?;
    match text.split_once(" (os error ") {
        Some((why, _)) => fail(rt, name, why),
        None => fail(rt, name, &text),
    }
}

// Opens the file that argument i names, or tells why there is none.
fn open<R: Env + Files + Eprint + AllocGlobal>(rt: &R, i: usize) -> io::Result<Option<R::File>> {
    let mut room = [0u8; 4095];
    let name = match name(rt, i, &mut room) {
        Ok(name) => name,
        Err(why) => {
            fail(rt, "a sheet's and a slip's name are wanted", why)?;
            return Ok(None);
        }
    };
    match fs::open(rt, name) {
        Ok(file) => Ok(Some(file)),
        Err(error) => {
            tell_unopened(rt, name, error)?;
            Ok(None)
        }
    }
}

// The first bytes of a file, at most so many.
fn read_most<R: Read + Drop>(alloc: Global, file: R, most: u64) -> io::Result<Vec<u8>>
    ensures { IfOk result (λ bytes. IfSome (R.remaining file) (λ held. bytes.items ≡ take most held)) }
{
    let mut bytes = Vec::new(alloc);
    file.take(most).read_to_end(&mut bytes)?;
    Ok(bytes)
}

// One byte more than a sheet or a slip may have is read, so that a longer file is seen to be longer.
fn main(rt: HostRuntime) -> io::Result<()> {
    let Some(first) = open(&rt, 1)? else {
        return Ok(());
    };
    let Some(second) = open(&rt, 2)? else {
        return Ok(());
    };
    let sheet = read_most(rt.alloc(), first, 65537)?;
    let slip = read_most(rt.alloc(), second, 1175)?;
    let mut line = [0u8; 80];
    let count = print(&sheet, &slip, &mut line);
    rt.write_all(&line[..count])
}
