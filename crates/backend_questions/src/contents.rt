// Questions 1 to 4, put to the contents.
ghost use Rattle.std.specs.Prelude.{◌≡◌, ◌+◌, ◌*◌, ◌%◌, ◌^◌, ◌<◌, min};
ghost use Rattle.backend.specs.Circuit.{section_at, entry};
ghost use Rattle.backend.specs.Questions.{q1, q2, q3, q4};

use backend_sections::contents::{
    CELL_COUNT, CELLS, CONSTRAINT_COUNT, FIRST_COUNT, FIRST_START, GROUP_COUNT, INSTANCE_COUNT,
    K_WORD, LENGTH_COUNT, NODE_COUNT, NODES, PAIRS, PREPROCESS, PREPROCESS_COUNT, ROUND_COUNT,
    ROUNDS, STATED_WORD, WIDTH_COUNT,
};
use lists::word_at;

const LARGEST_K: u64 = 10;

// "Are there 20 words or more?"; of document 02: "question 1 wants 22 words".
pub fn question_1(circuit: &[u64]) -> bool
    ensures { result ≡ q1 circuit.now }
{
    22 <= circuit.len()
}

// "Is k from 1 to 10?"
pub fn question_2(circuit: &[u64]) -> bool
    ensures { result ≡ q2 circuit.now }
{
    let k = word_at(circuit, K_WORD);
    (1 <= k) & (k <= LARGEST_K)
}

// 3, put to the contents. Word 1 is the maximum degree + 1, and the pairs and the groups have no limit of their own.
pub fn question_3(circuit: &[u64]) -> bool
    ensures { result ≡ q3 circuit.now }
{
    let stated = word_at(circuit, STATED_WORD);
    let instances = word_at(circuit, INSTANCE_COUNT);
    let preprocess = word_at(circuit, PREPROCESS_COUNT);
    let rounds = word_at(circuit, ROUND_COUNT);
    let nodes = word_at(circuit, NODE_COUNT);
    let constraints = word_at(circuit, CONSTRAINT_COUNT);
    let widths = word_at(circuit, WIDTH_COUNT);
    let lengths = word_at(circuit, LENGTH_COUNT);
    let cells = word_at(circuit, CELL_COUNT);
    let columns = (instances <= 8) & (preprocess <= 32) & (1 <= rounds) & (rounds <= 4);
    let expressions = (nodes <= 1024) & (constraints <= 32) & (widths <= 8);
    let copies = (lengths <= 1024) & (cells <= 4096);
    (stated <= 33) & columns & expressions & copies
}

// The words of one entry, 0 where they pass 64 bits.
fn entry_words(k: u64, s: usize) -> u64
    ensures { result ≡ entry k (section_at s) % 2 ^ 64 }
{
    match s {
        PREPROCESS => { if k < 64 { 1 << k } else { 0 } }
        NODES => 4,
        ROUNDS | PAIRS | CELLS => 2,
        _ => 1,
    }
}

// The words of a section, room + 1 where they are more than the room.
fn words_in(k: u64, s: usize, count: u64, room: u64) -> u64
    requires { room + 1 < 2 ^ 64 }
    ensures { result ≡ min (count * entry k (section_at s)) (room + 1) }
{
    let size = entry_words(k, s);
    if count == 0 {
        return 0;
    }
    if size == 0 {
        return room + 1;
    }
    if room / size < count {
        return room + 1;
    }
    count * size
}

// 4, put to the contents: the sections follow without gaps, nothing follows the last, and there are as many group numbers as lookups.
pub fn question_4(circuit: &[u64]) -> bool
    ensures { result ≡ q4 circuit.now }
{
    let k = word_at(circuit, K_WORD);
    let len = circuit.len() as u64;
    let mut at: u64 = 22;
    if len < at {
        return false;
    }
    for s in 0..10 {
        let start = word_at(circuit, FIRST_START + s * 2);
        let count = word_at(circuit, FIRST_COUNT + s * 2);
        let words = words_in(k, s, count, len - at);
        if start != at {
            return false;
        }
        if len - at < words {
            return false;
        }
        at += words;
    }
    let groups = word_at(circuit, GROUP_COUNT);
    let widths = word_at(circuit, WIDTH_COUNT);
    (at == len) & (groups == widths)
}
