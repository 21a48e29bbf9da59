// The line that the program prints, as bytes.
ghost use Rattle.std.specs.Prelude.{◌≡◌, ◌++◌, ◌+◌, ◌≤◌, length, decimal};
ghost use Rattle.io.specs.Counts.{IsPrefixLen};
ghost use Rattle.audit_image.specs.Line.{line_of, room, written};

use audit::Fault;
use bundle::BundleFault;

// Room for the longest line, with ten digits for each number.
pub(crate) const ROOM: usize = 37;

// The first `len` bytes are written.
#[derive(Clone, Copy)]
pub(crate) struct Line {
    pub bytes: [u8; ROOM],
    pub len: usize,
}

// A line with a text after it.
fn say(line: Line, text: &[u8]) -> Line
    requires bytes { length line.bytes ≡ room }
    requires fits { line.len + length text.now ≤ room }
    ensures text { written result ≡ written line ++ text.now }
    ensures bytes { length result.bytes ≡ room }
    ensures length { result.len ≡ line.len + length text.now }
{
    let from = line.len;
    let mut bytes = line.bytes;
    for k in 0..text.len() {
        bytes[from + k] = text[k];
    }
    Line {
        bytes,
        len: from + text.len(),
    }
}

// A line with a number after it.
fn say_number(line: Line, n: u32) -> Line
    requires bytes { length line.bytes ≡ room }
    requires fits { line.len + 10 ≤ room }
    ensures text { written result ≡ written line ++ decimal n }
    ensures bytes { length result.bytes ≡ room }
    ensures length { result.len ≤ line.len + 10 }
{
    let mut digits = [0u8; 20];
    let k = io::decimal(n as u64, &mut digits);
    say(line, &digits[..k])
}

// The line of a report: ok N, fault R at entry I, or fault R.
#[tactic(auto, using(crate::proofs::Lines::passed_line, crate::proofs::Lines::fault_line, crate::proofs::Lines::entry_line, crate::proofs::Copy::counted))]
pub(crate) fn printed(report: Result<u32, BundleFault>) -> Line
    ensures text { written result ≡ line_of report }
    ensures length { IsPrefixLen result.len result.bytes }
{
    let empty = Line {
        bytes: [0; ROOM],
        len: 0,
    };
    match report {
        Ok(entries) => say(say_number(say(empty, b"ok "), entries), b"\n"),
        Err(BundleFault::Bundle(r)) => say(say_number(say(empty, b"fault "), r.number()), b"\n"),
        Err(BundleFault::Entry(Fault { refusal, entry })) => {
            let fault = say_number(say(empty, b"fault "), refusal.number());
            say(say_number(say(fault, b" at entry "), entry), b"\n")
        }
    }
}
