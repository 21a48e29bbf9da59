// Runs cases that a text lists, one to a line: each line is written again with its answer, the refusal's number and the row, in hex.
#![tactic(auto)]

use crate::text::{ROOM, bytes, number};
use anrukfal::{
    anrukfal_bundle, anrukfal_call_site, anrukfal_index_entry, anrukfal_instruction,
    anrukfal_pointer, anrukfal_prel31, anrukfal_search, anrukfal_table_entry,
};

mod images;
mod text;

// The longest text.
const MOST: usize = 262144;

// The numbers of a row. Written by the kit's io: what prints by a format trusts one more call of the system.
pub(crate) fn show_row<T: Copy + Into<u64>>(row: &[T]) {
    for x in row {
        io::write_all(1, b" ");
        io::print_hex(1, (*x).into(), 1);
    }
}

// The answer of a case.
pub(crate) fn show(number: u32, row: &[u32]) {
    io::write_all(1, b" = ");
    io::print_hex(1, number as u64, 1);
    show_row(row);
}

// relative WORD PLACE, pointer ENCODING AT DATA, instruction AT WORDS, entry INDEX_ADDRESS NUMBER INDEX, table TABLE_ADDRESS OFFSET TABLE,
// callsite FUNCTION COUNTER DATA, search INDEX_ADDRESS COUNTER INDEX, bundle BYTES: the numbers, and the bytes. The letter comes from the text, so it is
// matched.
fn answer(name: u8, a: u32, b: u32, data: &[u8]) {
    let mut two = [1u32; 2];
    let mut four = [1u32; 4];
    let mut five = [1u32; 5];
    let mut six = [1u32; 6];
    match name {
        b'r' => show(0, &[anrukfal_prel31(a, b)]),
        b'p' => show(anrukfal_pointer(data, b, (a % 256) as u8, &mut two), &two),
        b'i' => show(anrukfal_instruction(data, a, &mut four), &four),
        b'e' => show(anrukfal_index_entry(data, a, b, &mut six), &six),
        b't' => show(anrukfal_table_entry(data, a, b, &mut six), &six),
        b'c' => show(anrukfal_call_site(data, a, b, &mut five), &five),
        b's' => show(anrukfal_search(data, a, b, &mut two), &two),
        b'b' => show(anrukfal_bundle(data, &mut six), &six),
        _ => {}
    }
}

// One case: the first letter of its name says which call it is, and so which of its words are bytes. The letter comes from the text, so it is matched.
fn case(line: &[u8]) {
    let Some(name) = line.first().copied() else {
        return;
    };
    let word = match name {
        b'l' | b'a' | b'f' => return images::answer(name, line),
        b'b' => 1,
        b'i' => 2,
        _ => 3,
    };
    let mut room = [0u8; ROOM];
    let data = bytes(line, word, &mut room);
    answer(name, number(line, 1), number(line, 2), data);
}

// Every line of a text.
fn each(text: &[u8]) {
    for line in text.split_inclusive(|b| *b == b'\n') {
        let line = line.strip_suffix(b"\n").unwrap_or(line);
        io::write_all(1, line);
        case(line);
        io::write_all(1, b"\n");
    }
}

// The cases of standard input. Read by the kit's io too, into a room with a count: std's reader trusts more calls of the system.
pub fn run() {
    let mut text = [0u8; MOST];
    let n = io::read_full(0, &mut text);
    each(&text[..n]);
}
