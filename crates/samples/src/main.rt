// Serves each file that an argument names, under a line with its name.
#![tactic(auto)]

use std::env::FillError;
use std::fs::File;
use std::io;
use std::io::{ErrorKind, Write};
use std::rt::Env;

// A file of a name. The system's names are bytes, and those that are no text cannot be asked for.
fn opened(rt: &HostRuntime, name: &[u8]) -> io::Result<File> {
    let path = str::from_utf8(name).map_err(|_| io::Error::from(ErrorKind::InvalidFilename))?;
    File::open(rt, path)
}

// Says why a file is passed over.
fn fail(rt: &HostRuntime, name: &[u8], why: io::Error) -> io::Result<()> {
    let mut to = rt.stderr();
    to.write_all(name)?;
    writeln!(to, ": {why}")
}

// Serves the file that an argument names; answers whether there is such an argument.
fn one(rt: &HostRuntime, i: usize) -> io::Result<bool> {
    let mut name = [0u8; 4096];
    let n = match rt.arg(i, &mut name) {
        Ok(n) => n,
        Err(FillError::TooLong) => 0,
        Err(FillError::NotPresent) => return Ok(false),
    };
    let name = &name[..n];
    let mut from = match opened(rt, name) {
        Ok(from) => from,
        Err(why) => {
            fail(rt, name, why)?;
            return Ok(true);
        }
    };
    let mut to = rt.stdout();
    to.write_all(b"# ")?;
    to.write_all(name)?;
    to.write_all(b"\n")?;
    bench_lib::between(&mut from, &mut to)?;
    Ok(true)
}

fn main(rt: HostRuntime) -> io::Result<()> {
    for i in 1..usize::MAX {
        if !one(&rt, i)? {
            break;
        }
    }
    Ok(())
}
