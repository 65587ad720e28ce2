//! The program: what the words ask for, over the real outside.
#![tactic(auto)]

ghost use Rattle.std.specs.Prelude.{◌≡◌};
ghost use Rattle.cyphal.specs.ErrorLine.{code_of};

mod arguments;
mod bus_names;
mod bus_word;
mod counted;
mod dsdl_line;
mod error_line;
mod help;
mod jobs;
mod law;
mod node_id;
mod number;
mod path;
mod plan_file;
mod program;
mod remote_file;
mod run_words;
mod top;
#[cfg(test)]
mod top_tests;
mod words;
mod work;

use cy_outside::{RealSink, RealSource, RealTree};
use error_line::put_error;
use node_run::Status;
use program::program;
use std::io;
use std::process::ExitCode;
use std::rt::Files;

fn main(rt: HostRuntime) -> ExitCode {
    // A folder takes the place of a standard stream that is closed, which else the first file would
    // take: each read and each write of it fails.
    let _folders = [rt.open_dir("/"), rt.open_dir("/"), rt.open_dir("/")];
    let mut err = RealSink::new(rt.stderr());
    let words = match words_of(&rt) {
        Ok(words) => words,
        Err(status) => {
            let _ = put_error(&mut err, &status);
            return ExitCode::from(code_of(&status));
        }
    };
    let mut tree = RealTree::new(&rt);
    let mut input = RealSource::new(rt.stdin());
    let mut out = RealSink::new(rt.stdout());
    let code = program(
        rt.alloc(),
        words.as_slice(),
        &mut tree,
        &mut input,
        &mut out,
        &mut err,
    );
    ExitCode::from(code)
}

/// The words of the command line behind the program's name. Words that aren't UTF-8 are no command.
fn words_of(rt: &HostRuntime) -> Result<Vec<String>, Status> {
    match std::env::args(rt) {
        Ok(words) => match words.skip(1).collect(rt.alloc()) {
            Ok(words) => Ok(words),
            Err(_) => Err(Status::NoMemory),
        },
        Err(error) if error.kind() == io::ErrorKind::OutOfMemory => Err(Status::NoMemory),
        Err(_) => Err(Status::Usage),
    }
}

/// The number of a status, with which the program ends.
fn code_of(status: &Status) -> u8
    ensures { result ≡ code_of status.now }
{
    match status {
        Status::Ok => 0,
        Status::Usage => 1,
        Status::Dsdl { .. } => 2,
        Status::Plan { .. } => 3,
        Status::Log { .. } => 4,
        Status::Text { .. } => 5,
        Status::Unreadable { .. } => 6,
        Status::NotNewer { .. } => 7,
        Status::ReadFault => 8,
        Status::WriteFault => 9,
        Status::NoMemory => 10,
        Status::LogLong => 11,
        Status::NoFile { .. } => 12,
    }
}
