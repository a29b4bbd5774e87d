//! Words that the system draws.
use crate::cause::Cause;
use crate::program::Program;
use byteorder::{ByteOrder, LittleEndian};
use std::fs::File;
use std::io;
use std::io::Read;

/// Where the system gives bytes that nobody can foresee.
const SOURCE: &str = "/dev/urandom";

fn read_words(program: &Program<'_>) -> io::Result<[u64; 2]> {
    let mut bytes = [0; 16];
    File::open(program.rt, SOURCE)?.read_exact(&mut bytes)?;
    let mut words = [0; 2];
    LittleEndian::read_u64_into(&bytes, &mut words);
    Ok(words)
}

/// Two words that are drawn anew at each call. Where they cannot be had there are none, and standard error tells why.
pub fn draw_words(program: &Program<'_>) -> Option<[u64; 2]> {
    match read_words(program) {
        Ok(words) => Some(words),
        Err(error) => {
            program.tell(SOURCE, &Cause::from(error));
            None
        }
    }
}
