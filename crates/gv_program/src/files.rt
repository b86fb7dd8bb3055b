//! Files and addresses that the arguments name.
ghost use Rattle.std.specs.Prelude.{◌≡◌, IfErr};

use crate::fault::ProgramFault;
use gv_text::{ReadSource, ScriptFault, Source};
use std::alloc::{AllocError, Global};
use std::fs;
use std::rt::Files;

/// How many bytes one read may give.
const CHUNK_LEN: usize = 1 << 13;

/// A file that is read.
pub fn opened<T: Files>(files: &T, path: &str) -> Result<ReadSource<T::File>, ProgramFault>
    ensures { IfErr result (λ fault. fault ≡ ProgramFault.NotOpened) }
{
    match fs::open(files, path) {
        Ok(file) => Ok(ReadSource::new(file)),
        Err(_) => Err(ProgramFault::NotOpened),
    }
}

/// All that a reader gives.
pub fn read_all<S: Source>(alloc: Global, reader: &mut S) -> Result<Vec<u8>, ProgramFault> {
    let mut bytes = Vec::new(alloc);
    let mut chunk = [0u8; CHUNK_LEN];
    for _reads in 0..u64::MAX {
        let count = match reader.read(&mut chunk) {
            Ok(count) => count,
            Err(_) => return Err(ProgramFault::from(ScriptFault::ReadFault)),
        };
        if count == 0 {
            break;
        }
        add(&mut bytes, &chunk, count)?;
    }
    Ok(bytes)
}

/// Adds the front of a chunk.
fn add(bytes: &mut Vec<u8>, chunk: &[u8], count: usize) -> Result<(), AllocError> {
    bytes.extend_from_slice(&chunk[..count.min(chunk.len())])
}

/// The address that a word is, in bytes: hexadecimal digits, with or without `0x`.
pub fn address(word: &str) -> Result<u64, ProgramFault> {
    let digits = without_prefix(word);
    if !digits.bytes().all(|byte| byte.is_ascii_hexdigit()) {
        return Err(ProgramFault::NoAddress);
    }
    match u64::from_str_radix(digits, 16) {
        Ok(addr) => Ok(addr),
        Err(_) => Err(ProgramFault::NoAddress),
    }
}

/// What follows `0x` in a word, or the word.
fn without_prefix(word: &str) -> &str {
    for prefix in ["0x", "0X"] {
        if let Some(digits) = word.strip_prefix(prefix) {
            return digits;
        }
    }
    word
}
