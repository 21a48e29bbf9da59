// Audits the bundle on standard input and prints one line: ok N, fault R at entry I, or fault R. With an argument 1, 2 or 3, so many bytes at the end
// of the bundle's table only fill its last word, and are no part of the table that is audited.
#![tactic(auto)]

ghost use Rattle.std.specs.Prelude.{◌≡◌, ◌<◌, ◌≤◌, length};
ghost use Rattle.io.specs.Counts.{IsPrefixLen};
ghost use Rattle.bundle.specs.Bundle.{most_bytes};
ghost use Rattle.audit_image.specs.Input.{LineOfInput, fill_of};

use crate::line::Line;
use std::env::{Env, FillError};

mod line;

// The largest bundle: three counts, two addresses, and both sections at their most.
const MOST: usize = 20 + section::INDEX_MOST + section::TABLE_MOST;

// The line of an input: the first n bytes of the buffer are all of it, or as many as there is room for.
fn audited(buffer: &[u8], n: usize, fill: u32) -> Line
    requires room { most_bytes < length buffer.now }
    requires received { n ≤ length buffer.now }
    ensures line { LineOfInput buffer.now n fill result }
    ensures length { IsPrefixLen result.len result.bytes }
{
    line::printed(bundle::audit_bundle(&buffer[..n], fill))
}

// One byte more is read, so that leftovers are seen. The kit's io hands over a buffer and a count; a reader of std would trust one more call of libc.
fn run(fill: u32) {
    let mut buffer = [0u8; MOST + 1];
    let n = io::read_full(0, &mut buffer);
    let line = audited(&buffer, n, fill);
    io::write_all(1, &line.bytes[..line.len]);
}

// The fill that an argument says; nothing where it is no digit from 1 to 3.
fn fill_of(argument: &[u8]) -> Option<u32>
    ensures { result ≡ fill_of argument.now }
{
    match argument {
        [b'1'] => Some(1),
        [b'2'] => Some(2),
        [b'3'] => Some(3),
        _ => None,
    }
}

// Whether there is an argument at a place; at 0 stands the program's own name.
fn is_given(env: &impl Env, place: usize) -> bool {
    let mut argument = [0u8; 1];
    !matches!(env.arg(place, &mut argument), Err(FillError::NotPresent))
}

// The fill that the first argument says; 0 where there is none.
fn fill_given(env: &impl Env) -> Option<u32> {
    let mut argument = [0u8; 1];
    match env.arg(1, &mut argument) {
        Ok(n) => fill_of(&argument[..n]),
        Err(FillError::NotPresent) => Some(0),
        Err(FillError::TooLong) => None,
    }
}

fn main(rt: HostRuntime) {
    match fill_given(&rt) {
        Some(fill) if !is_given(&rt, 2) => run(fill),
        _ => {
            let _ = eprintln!(rt; "usage: audit_image [1 | 2 | 3] < BUNDLE");
        }
    }
}
