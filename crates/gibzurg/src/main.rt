//! The program: runs the journal of a month's book or reads the day of a meter, and says in words what came of it.
#![tactic(auto)]

mod auditing;
mod buffers;
mod choices;
mod differences;
mod dollars;
mod expected;
mod facts;
mod fields;
mod help;
mod journal;
mod metering;
mod numbers;
mod open_book;
mod record;
mod session;
mod settling;
#[cfg(test)]
mod tests;
mod trouble;
mod words;

use std::io::Read;
use std::process::ExitCode;
use std::{env, fs};
use trouble::Trouble;

fn main(rt: HostRuntime) -> ExitCode {
    match run(&rt) {
        Ok(()) => ExitCode::SUCCESS,
        Err(trouble) => {
            let _ = rt.eprintln(trouble);
            ExitCode::FAILURE
        }
    }
}

/// Runs the command that the program was started with.
fn run(rt: &HostRuntime) -> Result<(), Trouble> {
    let mut words = env::args(rt)?;
    let _program = words.next();
    let Some(command) = words.next() else {
        return print_help(rt);
    };
    let file = words.next();
    if words.next().is_some() {
        return Err(Trouble::UnknownCommand);
    }
    match (command.as_str(), file) {
        ("help", None) => print_help(rt),
        ("settle", Some(path)) => settling::settle(rt, text(rt, path.as_str())?.as_str()),
        ("audit", Some(path)) => auditing::audit(rt, text(rt, path.as_str())?.as_str()),
        ("meter", Some(path)) => metering::meter(rt, bytes(rt, path.as_str())?.as_slice()),
        _ => Err(Trouble::UnknownCommand),
    }
}

/// The bytes of a file, or of standard input where the path is `-`.
fn bytes(rt: &HostRuntime, path: &str) -> Result<Vec<u8>, Trouble> {
    if path != "-" {
        return Ok(fs::read(rt, path)?);
    }
    let mut bytes = Vec::new(rt.alloc());
    rt.stdin().read_to_end(&mut bytes)?;
    Ok(bytes)
}

/// The same as text. A byte that is no text becomes a mark that no word has.
fn text(rt: &HostRuntime, path: &str) -> Result<String, Trouble> {
    let bytes = bytes(rt, path)?;
    Ok(String::from_utf8_lossy(rt.alloc(), bytes.as_slice())?)
}

/// Prints the commands, and a small journal to start from.
fn print_help(rt: &HostRuntime) -> Result<(), Trouble> {
    Ok(rt.println(help::PAGE)?)
}
