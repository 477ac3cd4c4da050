// The questions in document 01's words, and 17 and 18, which document 02 adds.
use std::io;
use std::io::Stderr;

// The question of a number; 16 is the last of document 01's.
// Kept: the numbers are document 01's names of the questions, and each chooses only a text.
fn question(number: u64) -> &'static str {
    match number {
        1 => "Are there 22 words or more?",
        2 => "Is k from 1 to 10?",
        3 => "Is each count and sum in its limit?",
        4 => "Do starts, counts and total length agree?",
        5 => {
            "Has every round a witness column, every round but the last a challenge, and every instance column at most 2^k - 1 values?"
        }
        6 => "Are preprocess values, Constants and scalars below p?",
        7 => "Are the nodes as laid out (document 01, Node words)?",
        8 => {
            "Is every polynomial and user challenge number in range, every rotation from -k to k, and kind 4 absent?"
        }
        9 => "Is each width at least 1, and is there a constraint, lookup or cycle?",
        10 => {
            "Is the degree of each user and lookup constraint at most 1024, and, if a maximum degree stands, does no user constraint exceed it?"
        }
        11 => {
            "Is each cycle non-empty, its polynomials in range, its rows from 1 to 2^k - 1, no cell twice within one cycle?"
        }
        12 => "Have instance, witness and challenge words the exact length?",
        13 => "Are they all below p (instance, witness and challenge words)?",
        14 => "Have both output buffers at least the words needed?",
        15 => "Does each compressed input equal some compressed table row?",
        17 => {
            "Is every denominator other than zero? They are gamma + input and gamma + table on all rows, and the inverted factors on every row but 0."
        }
        18 => {
            "Is the first group number 0 and each next the same or one more, and have the tables of one group the same width and the same trees?"
        }
        _ => {
            "Are witness, columns, nodes, challenges with alpha, and y (k values) of the exact length, the node words those that building writes, and all other values below p?"
        }
    }
}

// Which question was answered no.
pub fn answered_no(err: Stderr, number: u64) -> io::Result<()> {
    println!(err; "question {number} was answered no: {}", question(number))
}
