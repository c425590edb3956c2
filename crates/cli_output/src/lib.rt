// How the command writes its lines.
#![tactic(auto)]

use std::env::Env;
use std::io::{self, Cursor, Write};

const USAGE: [u8; 347] = *b"usage: classad check FILE..\n       \
classad print FILE\n       \
classad match FIRST SECOND [BUDGET]\n       \
classad trace FIRST SECOND [BUDGET]\n       \
classad graph FIRST SECOND\n       \
classad help\n       \
classad --version\n\
FILE, FIRST and SECOND may be - for standard input, at most once.\n\
BUDGET is digits, 0 to 65535; without it the budget is 65535.\n";

// Writes on standard error. Where that fails, there is no place left to say so.
fn complain(rt: &HostRuntime, bytes: &[u8]) {
    let _ = Print::write_all(&rt.stderr(), bytes);
}

// The system's words for an error, without the number that std puts behind them.
fn words(text: &[u8]) -> &[u8] {
    let behind = b" (os error ";
    for n in 0..text.len() {
        if text[n..].starts_with(behind) {
            return &text[..n];
        }
    }
    text
}

// Says on standard error why something failed.
pub fn fail(rt: &HostRuntime, name: &[u8], error: io::Error) {
    let mut text = Cursor::new([0u8; 256]);
    let _ = write!(text, "{error}");
    let n = text.position().min(256) as usize;
    complain(rt, b"classad: ");
    complain(rt, name);
    complain(rt, b": ");
    complain(rt, words(&text.get_ref()[..n]));
    complain(rt, b"\n");
}

// What the command takes, on standard error, as the command line is wrong.
pub fn misused(rt: &HostRuntime) {
    complain(rt, &USAGE);
}

// Standard output. Once it does not take what is written, that is said on standard error, and nothing more is written.
#[derive(Drop)]
pub struct Output {
    rt: HostRuntime,
    lost: bool,
}

impl Output {
    pub fn new(rt: HostRuntime) -> Output {
        Output { rt, lost: false }
    }

    pub fn is_lost(&self) -> bool {
        self.lost
    }

    // What comes of a write.
    fn told(&mut self, written: io::Result<()>) {
        if let Err(error) = written {
            self.lost = true;
            fail(&self.rt, b"standard output", error);
        }
    }

    pub fn say(&mut self, bytes: &[u8]) {
        if !self.lost {
            let written = Print::write_all(&self.rt, bytes);
            self.told(written);
        }
    }

    pub fn byte(&mut self, b: u8) {
        self.say(&[b]);
    }

    pub fn number(&mut self, n: u64) {
        if !self.lost {
            let written = self.rt.print(n);
            self.told(written);
        }
    }

    // A label and a number.
    pub fn counted(&mut self, label: &[u8], n: u64) {
        self.say(label);
        self.number(n);
    }

    // The argument i of the command line, which is a file's name.
    pub fn argument(&mut self, i: usize) {
        let mut name = [0u8; 65536];
        let n = self.rt.arg(i, &mut name).unwrap_or(0);
        self.say(&name[..n]);
    }

    pub fn side(&mut self, second: bool) {
        if second {
            self.say(b"second");
        } else {
            self.say(b"first");
        }
    }

    // What the command takes.
    pub fn usage(&mut self) {
        self.say(&USAGE);
    }

    pub fn version(&mut self) {
        self.say(b"classad 0.1.0\n");
    }

    // What is said behind the name of a file whose text is accepted.
    pub fn accepted(&mut self, definitions: usize, nodes: usize) {
        self.counted(b": accepted, ", definitions as u64);
        self.counted(b" definitions, ", nodes as u64);
        self.say(b" nodes\n");
    }
}
