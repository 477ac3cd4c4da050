// What document 01 says of every answer, whatever its columns.
use crate::call::Call;
use crate::slices::{Block, kept, number_then_zeros, zeroed};
use lists::word_at;

// Is the buffer of line b what the one of line a may become under this number, which is 0 where so many words were written?
fn is_after(block: &Block, a: usize, b: usize, number: u64, is_nodes: bool, written: u64) -> bool {
    let before = block.slice(a);
    let after = block.slice(b);
    match number {
        0 => kept(before, after, written),
        15 | 17 if !is_nodes => zeroed(before, after),
        _ => kept(before, after, 0),
    }
}

// A stage writes 2^k words.
fn is_stage_after(block: &Block, a: usize, b: usize, number: u64) -> bool {
    let k = block.number(0);
    let written = if k > 10 { 0 } else { 1 << k };
    is_after(block, a, b, number, false, written)
}

// The building call says how many column words and nodes it writes.
fn are_built_after(block: &Block, number: u64) -> bool {
    let returned = block.slice(6);
    let columns = word_at(returned, 1);
    let nodes = word_at(returned, 2);
    is_after(block, 4, 7, number, false, columns) && is_after(block, 5, 8, number, true, nodes << 2)
}

// Are the buffers what they may become under this number?
fn are_buffers_right(call: Call, block: &Block, number: u64) -> bool {
    match call {
        Call::Build => are_built_after(block, number),
        Call::LookupMPoly => is_stage_after(block, 3, 5, number),
        Call::LookupHPoly => is_stage_after(block, 5, 7, number),
        Call::EqXy => is_stage_after(block, 2, 4, number),
        Call::RowSum | Call::Sizes => true,
    }
}

// What a block shows.
#[derive(Clone, Copy, PartialEq, Eq)]
pub enum Shown {
    Done,
    Refused,
}

// What the block of a call shows; none where it is not right.
pub fn judge(call: Call, block: &Block) -> Option<Shown> {
    let returned = block.slice(call.returned_line());
    let number = word_at(returned, 0);
    if returned.len() != call.returned_words() || !are_buffers_right(call, block, number) {
        return None;
    }
    if number == 0 {
        return Some(Shown::Done);
    }
    number_then_zeros(returned).then_some(Shown::Refused)
}
