// The files of the command line.
#![tactic(auto)]

use std::env::Env;
use std::fs::File;
use std::io::{self, Read};

// What C says of a name that is no text: std opens files by names in UTF-8 alone.
const EILSEQ: i32 = 84;

// Reads until the memory is full or the input ends.
fn read_all<R: Read>(input: &mut R, text: &mut [u8]) -> io::Result<usize> {
    let mut n = 0;
    while n < text.len() {
        let k = input.read(&mut text[n..])?;
        if k == 0 {
            return Ok(n);
        }
        n += k;
    }
    Ok(n)
}

fn open(rt: &HostRuntime, name: &[u8]) -> io::Result<File> {
    match std::str::from_utf8(name) {
        Ok(path) => File::open(rt, path),
        Err(_) => Err(io::Error::from_raw_os_error(EILSEQ)),
    }
}

// Reads a file, or standard input where its name is `-`.
fn read_file(rt: &HostRuntime, name: &[u8], text: &mut [u8]) -> io::Result<usize> {
    if matches!(name, b"-") {
        return read_all(&mut rt.stdin(), text);
    }
    let mut file = open(rt, name)?;
    read_all(&mut file, text)
}

// Reads the file that the argument i names into the front part of the memory for it, and answers its length; none where that failed,
// which is said.
pub fn read_argument(rt: &HostRuntime, i: usize, text: &mut [u8]) -> Option<usize> {
    let mut name = [0u8; 65536];
    let n = rt.arg(i, &mut name).unwrap_or(0);
    match read_file(rt, &name[..n], text) {
        Ok(length) => Some(length),
        Err(error) => {
            cli_output::fail(rt, &name[..n], error);
            None
        }
    }
}
