//! The program: the words and streams of the process, the local services, and the top call.
#![tactic(auto)]

use std::alloc::Global;
use std::io::ErrorKind;
use std::process::ExitCode;
use std::rt::Env;
use std::{env, io};
use tv_gate::GateAsker;
use tv_io::{ReaderSource, WriterSink, write_all};
use tv_local::LocalGate;
use tv_top::{Status, taverna};

/// The words after the program's name. Where one isn't UTF-8 there are none, which give no command either.
fn words(rt: &(impl Env + Alloc<A = Global>)) -> io::Result<Vec<String>> {
    let mut words = Vec::new(rt.alloc());
    match env::args(rt) {
        Ok(all) => {
            for word in all.skip(1) {
                words.push(word)?;
            }
        }
        Err(error) => {
            if error.kind() == ErrorKind::OutOfMemory {
                return Err(error);
            }
        }
    }
    Ok(words)
}

fn main(rt: HostRuntime) -> ExitCode {
    let mut source = ReaderSource::new(rt.stdin());
    let mut out = WriterSink::new(rt.stdout());
    let mut err = WriterSink::new(rt.stderr());
    let gate = LocalGate::new();
    let mut asker = GateAsker::new(&gate);
    let status = match words(&rt) {
        Ok(words) => taverna(
            &rt,
            rt.alloc(),
            words.as_slice(),
            &mut source,
            &mut out,
            &mut err,
            &gate,
            &mut asker,
        ),
        Err(_) => {
            let _ = write_all(&mut err, Status::NoMemory.line().as_bytes());
            Status::NoMemory
        }
    };
    ExitCode::from(status.code())
}
