// This module runs the scripts of a program: those that it is given by name, or one on standard input.
ghost use Rattle.std.specs.Prelude.{◌<◌, length};

use crate::arguments::{ARGUMENT_BYTES, argument, argument_count};
use crate::buffers::Buffers;
use crate::chunks::{Stop, run_script};
use crate::program::Program;
use std::fs::{File, OpenOptions};
use std::io;
use std::io::Write;
use std::rt::Files;
use std::str::from_utf8;

// A chunk has at most this many bytes.
const CHUNK_BYTES: usize = 65536;

// A reason why something failed has at most this many bytes.
const REASON_BYTES: usize = 512;

impl Program<'_> {
    // Writes a text to standard error.
    fn print_error(&self, text: &[u8]) {
        let _ = self.rt.stderr().write_all(text);
    }

    // Writes to standard error what failed, a colon and why, and ends the line. The number that std puts behind the
    // reason, as " (os error 2)", is left out.
    fn fail(&self, what: &[u8], error: io::Error) {
        let mut line = [0u8; REASON_BYTES];
        let mut room = line.as_mut_slice();
        let _ = write!(room, "{error}");
        let n = REASON_BYTES.saturating_sub(room.len());
        self.print_error(what);
        self.print_error(b": ");
        if let Ok(reason) = from_utf8(&line[..n]) {
            let words = match reason.split_once(" (os error ") {
                Some((before, _)) => before,
                None => reason,
            };
            self.print_error(words.as_bytes());
        }
        self.print_error(b"\n");
    }

    // Prints two lines on standard error: which script cannot be read and why, and what the program takes.
    fn refuse(&self, name: &[u8], error: io::Error) {
        self.print_error(self.name);
        self.print_error(b": cannot read ");
        self.fail(name, error);
        self.print_error(self.name);
        self.print_error(
            b" takes scripts by name, or one on standard input: an event a line, tabs between its fields\n",
        );
    }

    // Takes how a script ended. Prints on standard error that it cannot be read, if that stopped it, or returns why
    // nothing more can be written.
    fn go_on(&self, name: &[u8], ended: Result<(), Stop>) -> io::Result<()> {
        match ended {
            Ok(()) => Ok(()),
            Err(Stop::NotRead(error)) => {
                self.refuse(name, error);
                Ok(())
            }
            Err(Stop::NotWritten(error)) => Err(error),
        }
    }

    // Opens the file of this name, which has to be UTF-8.
    fn open_script(&self, name: &[u8]) -> io::Result<File> {
        match from_utf8(name) {
            Ok(path) => self.rt.open_file(OpenOptions::new().read(true), path),
            Err(_) => Err(io::Error::new(io::ErrorKind::InvalidFilename, "the name is not UTF-8")),
        }
    }

    // Runs the script in the file of this name, or returns what stopped it.
    fn run_file(&self, name: &[u8], inp: &mut [u8], buffers: &mut Buffers) -> Result<(), Stop>
        requires { 0 < length inp.old }
    {
        let mut file = self.open_script(name).map_err(Stop::NotRead)?;
        run_script(&mut file, &mut self.rt.stdout(), self.tables, inp, buffers)
    }

    // Runs each script from the empty state, or returns why nothing more can be written. A script that cannot be read
    // does not stop the ones after it.
    fn run_each(&self) -> io::Result<()> {
        let mut inp = [0u8; CHUNK_BYTES];
        let mut buffers = Buffers::new();
        let n = argument_count(self.rt);
        if n < 2 {
            let ended = run_script(
                &mut self.rt.stdin(),
                &mut self.rt.stdout(),
                self.tables,
                &mut inp,
                &mut buffers,
            );
            return self.go_on(b"standard input", ended);
        }
        for i in 1..n {
            let mut path = [0u8; ARGUMENT_BYTES];
            let name = argument(self.rt, i, &mut path).unwrap_or(b"");
            let ended = self.run_file(name, &mut inp, &mut buffers);
            self.go_on(name, ended)?;
        }
        Ok(())
    }

    // Runs each script from the empty state. Prints on standard error why nothing more can be written, if that stopped them.
    pub(crate) fn run_scripts(&self) {
        if let Err(error) = self.run_each() {
            self.print_error(self.name);
            self.fail(b": cannot write", error);
        }
    }
}
