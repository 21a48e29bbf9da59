// Cases of a whole image: lookup, step and audit.
use crate::text::{ROOM, bytes, number};
use crate::{show, show_row};
use anrukfal::{anrukfal_audit, anrukfal_lookup, anrukfal_step};
use std::array;

// The registers that a case lists.
fn core_of(line: &[u8]) -> [u32; 16] {
    array::from_fn(|i| number(line, 7 + i))
}

// VFP register k holds k in each of its bytes.
fn vfp() -> [u64; 32] {
    array::from_fn(|k| (k as u64).wrapping_mul(0x0101_0101_0101_0101))
}

fn step(line: &[u8], index: &[u8], a: u32, table: &[u8], b: u32) {
    let mut room = [0u8; ROOM];
    let stack = bytes(line, 6, &mut room);
    let c = number(line, 5);
    let mut core = core_of(line);
    let mut vfp = vfp();
    let mut row = [1u32; 2];
    let number = anrukfal_step(index, a, table, b, stack, c, &mut core, &mut vfp, &mut row);
    show(number, &row);
    show_row(&core);
    show_row(&vfp);
}

// audit INDEX_ADDRESS INDEX TABLE_ADDRESS TABLE; with more after it lookup .. COUNTER, and frame .. STACK_ADDRESS STACK R0 .. R15. The letter comes from
// the text, so it is matched.
pub(crate) fn answer(name: u8, line: &[u8]) {
    let mut index_room = [0u8; ROOM];
    let mut table_room = [0u8; ROOM];
    let index = bytes(line, 2, &mut index_room);
    let table = bytes(line, 4, &mut table_room);
    let a = number(line, 1);
    let b = number(line, 3);
    match name {
        b'l' => {
            let mut row = [1u32; 9];
            let number = anrukfal_lookup(index, a, table, b, number(line, 5), &mut row);
            show(number, &row)
        }
        b'a' => {
            let mut row = [1u32; 1];
            let number = anrukfal_audit(index, a, table, b, &mut row);
            show(number, &row)
        }
        _ => step(line, index, a, table, b),
    }
}
