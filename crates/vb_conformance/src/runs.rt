//! The runs of a script: by command lines of the program, and on hosts of other kinds.

use crate::leased::Leasing;
use crate::listing::Listing;
use crate::noticed::Noticing;
use crate::script::Script;
use std::alloc::{AllocError, Global};
use std::io;
use std::rt::Files;
use std::sync::Wait;
use std::thread::Threads;
use vb_command::{ArgumentsFault, Play, run_command, run_script_on};

/// The line in place of command lines where a script isn't for the program's.
const NO_COMMAND: &str = "-";

/// How often each device of the host `full` finds no memory for its guest.
static REFUSALS: [u32; 2] = [2, 1];

/// The first run of a line of the list that doesn't write what the script's files say, if there is
/// one: its command line, or its host. Fails where a file can't be read, and where the line has a
/// word that is no host's.
pub fn first_difference<R>(rt: &R, line: &str) -> io::Result<Option<String>>
where
    R: Files + Threads + Wait + Sync + AllocGlobal,
{
    let (name, hosts) = line.split_once(' ').unwrap_or((line, ""));
    let script = Script::read(rt, name)?;
    for command in script.commands.lines() {
        if command != NO_COMMAND && !is_written_by(rt, &script, command) {
            return Ok(Some(String::from_str(rt.alloc(), command)?));
        }
    }
    first_host(rt.alloc(), &script, hosts)
}

/// The first of these hosts, a word each, on which a script doesn't write what its files say, if
/// there is one.
fn first_host(alloc: Global, script: &Script, hosts: &str) -> io::Result<Option<String>> {
    for host in hosts.split_whitespace() {
        let is_written = match host {
            "leased" => is_written_on(alloc, script, &mut Leasing),
            "listed" => is_written_on(alloc, script, &mut Listing { refusals: &[] }),
            "noticed" => is_written_on(alloc, script, &mut Noticing),
            "full" => is_written_on(
                alloc,
                script,
                &mut Listing {
                    refusals: &REFUSALS,
                },
            ),
            _ => return Err(io::Error::from(io::ErrorKind::InvalidData)),
        };
        if !is_written {
            return Ok(Some(String::from_str(alloc, host)?));
        }
    }
    Ok(None)
}

/// Whether the program writes what the files of a script say, by a command line.
fn is_written_by<R>(rt: &R, script: &Script, command: &str) -> bool
where
    R: Threads + Wait + Sync + AllocGlobal,
{
    let (mut output, mut errors) = (Vec::new(rt.alloc()), Vec::new(rt.alloc()));
    let words = words_of(rt.alloc(), command);
    let text = script.text.as_slice();
    let status = run_command(rt, rt.alloc(), words, text, &mut output, &mut errors);
    script.says(&output, &errors, status)
}

/// Whether a host writes what the files of a script say.
fn is_written_on<P: Play>(alloc: Global, script: &Script, host: &mut P) -> bool {
    let (mut output, mut errors) = (Vec::new(alloc), Vec::new(alloc));
    let text = script.text.as_slice();
    let status = run_script_on(alloc, host, text, &mut output, &mut errors);
    script.says(&output, &errors, status)
}

/// The words of a command line, the program's name first.
fn words_of(alloc: Global, command: &str) -> Result<Vec<String>, ArgumentsFault> {
    let mut words = Vec::new(alloc);
    let program = String::from_str(alloc, "vb_sim")?;
    words.push(program).map_err(AllocError::from)?;
    for word in command.split_whitespace() {
        let word = String::from_str(alloc, word)?;
        words.push(word).map_err(AllocError::from)?;
    }
    Ok(words)
}
