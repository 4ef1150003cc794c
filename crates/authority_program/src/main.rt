//! The server as a program: `authority ORIGIN ZONEFILE NOW` serves a zone's framed questions from standard input to
//! standard output.
#![tactic(auto)]

ghost use Rattle.std.specs.Prelude.{◌≡◌, ◌≢◌, length, IfOk, None, Ok};
ghost use Rattle.authority.specs.Programs.{IsExitStatus};

use authority::program;
use std::alloc::{AllocError, Global};
use std::io::{self, BufReader, BufWriter, ErrorKind, Write};
use std::process::ExitCode;
use std::{env, fs};

// The status for want of memory before the zone is served, with its line.
fn out_of_memory(faults: &mut impl Write) -> u8
    ensures { result ≡ 4 }
{
    let _ = writeln!(faults, "stream: OutOfMemory");
    4
}

// The text of the zone's file, or None where it can't be read as text or the words name no file.
fn zone_text(rt: &HostRuntime, words: &[String]) -> Result<Option<String>, AllocError>
    ensures { length words.now ≢ 3 → result ≡ Ok None }
{
    let [_, path, _] = words else {
        return Ok(None);
    };
    match fs::read_to_string(rt, path.as_str()) {
        Ok(text) => Ok(Some(text)),
        Err(error) => {
            if error.kind() == ErrorKind::OutOfMemory {
                return Err(AllocError);
            }
            Ok(None)
        }
    }
}

// The arguments behind the program's name. Where one isn't UTF-8 there are none, which the program answers by its usage.
fn arguments(rt: &HostRuntime, alloc: Global) -> io::Result<Vec<String>> {
    match env::args(rt) {
        Ok(words) => Ok(words.skip(1).collect(alloc)?),
        Err(error) if error.kind() == ErrorKind::InvalidData => Ok(Vec::new(alloc)),
        Err(error) => Err(error),
    }
}

// Runs the program; the error is want of memory before the zone is served.
fn run(rt: &HostRuntime, alloc: Global, faults: &mut impl Write) -> io::Result<u8>
    ensures { IfOk result IsExitStatus }
{
    let words = arguments(rt, alloc)?;
    let zone = zone_text(rt, &words)?;
    let text = match &zone {
        Some(text) => Some(text.as_str()),
        None => None,
    };
    let mut reader = BufReader::new(alloc, rt.stdin())?;
    let mut writer = BufWriter::new(alloc, rt.stdout())?;
    Ok(program::run(alloc, &words, text, &mut reader, &mut writer, faults))
}

fn main(rt: HostRuntime) -> ExitCode {
    let mut faults = rt.stderr();
    match run(&rt, rt.alloc(), &mut faults) {
        Ok(status) => ExitCode::from(status),
        Err(_) => ExitCode::from(out_of_memory(&mut faults)),
    }
}
