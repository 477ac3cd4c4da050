// The section that a word of the circuit stands in, and its name.
use backend_sections::contents::{
    CELLS, CONSTRAINTS, GROUPS, INSTANCES, LENGTHS, NEXT_START, NODES, PAIRS, PREPROCESS, ROUNDS,
    WIDTHS,
};
use lists::word_at;

// The section that a word past the contents stands in, by the starts; none for a word of the contents.
pub fn section_of(circuit: &[u64], at: u64) -> Option<usize> {
    if at < 22 {
        return None;
    }
    (0..GROUPS)
        .find(|s| at < word_at(circuit, NEXT_START + s * 2))
        .or(Some(GROUPS))
}

// Its name.
pub fn section_name(section: Option<usize>) -> &'static str {
    match section {
        Some(INSTANCES) => "the instance lengths",
        Some(PREPROCESS) => "the preprocess columns",
        Some(ROUNDS) => "the rounds",
        Some(NODES) => "the nodes",
        Some(CONSTRAINTS) => "the constraint roots",
        Some(WIDTHS) => "the lookup widths",
        Some(PAIRS) => "the lookup pairs",
        Some(LENGTHS) => "the cycle lengths",
        Some(CELLS) => "the cells",
        Some(GROUPS) => "the group numbers",
        _ => "the table of contents",
    }
}
