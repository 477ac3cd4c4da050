// The words of a text: decimal numbers with white space between, and '#' comments to the end of the line. A text is read whole,
// or part by part as a file comes.
#![tactic(auto)]

ghost use Rattle.std.specs.Prelude.{◌≡◌, ℕ, true, false, List, [], ◌∷◌, length, take};
ghost use Rattle.decimal.specs.Text.{is_blank, is_digit, of_text, says, wrong_of};
ghost use Rattle.decimal.specs.Reading.{in_comment, value_begun, heard, told, ahead, Takes, Stopped, Ended, FaultOfText};

// What is wrong with a text; the program that reads it may have numbers from 4 on of its own.
#[derive(Clone, Copy, PartialEq, Eq, Debug)]
pub enum Wrong {
    NoNumber,
    TooLarge,
    TooMany,
    Other(u64),
}

// The numbers of what is wrong.
pub const NOTHING: u64 = 0;

pub const NO_NUMBER: u64 = 1;

pub const TOO_LARGE: u64 = 2;

pub const TOO_MANY: u64 = 3;

impl From<u64> for Wrong {
    ghost from_gives = { λ number wrong. wrong ≡ wrong_of number };

    #[tactic(auto, unfolding(crate::specs::Text::wrong_of))]
    fn from(number: u64) -> Wrong {
        match number {
            NO_NUMBER => Wrong::NoNumber,
            TOO_LARGE => Wrong::TooLarge,
            TOO_MANY => Wrong::TooMany,
            _ => Wrong::Other(number),
        }
    }
}

// What is wrong with a text first, and in which line.
#[derive(Clone, Copy, PartialEq, Eq, Debug)]
pub struct Fault {
    pub wrong: Wrong,
    pub line: u64,
}

// Where the next byte stands: between numbers, in a number with the value so far, in a comment.
#[derive(Clone, Copy, PartialEq, Eq, Debug)]
pub enum Stands {
    Between,
    Number(u64),
    Comment,
}

// The state of a reading: how many words it has, what the next byte stands in, and its line.
#[derive(Clone, Copy, PartialEq, Eq, Debug)]
pub struct Scan {
    pub count: usize,
    pub stands: Stands,
    pub line: u64,
}

// A reading that has taken nothing.
pub fn start() -> Scan
    ensures { (ws t : List ℕ) → ahead result ws t ≡ says (length ws) t }
{
    Scan {
        count: 0,
        stands: Stands::Between,
        line: 1,
    }
}

// The reading ended by what is wrong.
pub fn stop(scan: Scan, wrong: Wrong) -> Result<Scan, Fault>
    ensures stopped { Stopped scan wrong result }
    ensures of_text { of_text wrong ≡ true → FaultOfText result }
{
    let fault = Fault {
        wrong,
        line: scan.line,
    };
    Err(fault)
}

// The reading ended, by the number of what is wrong or by NOTHING; answers how many words there are.
#[tactic(auto, unfolding(crate::specs::Reading::told))]
pub fn stop_by_number(scan: Scan, number: u64) -> Result<usize, Fault>
    ensures { (ws : List ℕ) → heard result ws ≡ told number scan.line (take scan.count ws) }
{
    if number == NOTHING {
        return Ok(scan.count);
    }
    let told = Fault {
        wrong: Wrong::from(number),
        line: scan.line,
    };
    Err(told)
}

// Keeps the number begun, if one is, and stands so in this line.
fn end_number(scan: Scan, words: &mut [u64], stands: Stands, line: u64) -> Result<Scan, Fault>
    ensures { Ended scan words.old stands line result words.new }
{
    let mut count = scan.count;
    if let Stands::Number(value) = scan.stands {
        if count >= words.len() {
            return stop(scan, Wrong::TooMany);
        }
        words[count] = value;
        count += 1;
    }
    Ok(Scan {
        count,
        stands,
        line,
    })
}

// The number begun, 0 where none is.
fn value_begun(scan: Scan) -> u64
    ensures { result ≡ value_begun scan }
{
    match scan.stands {
        Stands::Number(value) => value,
        Stands::Between | Stands::Comment => 0,
    }
}

// Takes a digit.
fn take_digit(scan: Scan, byte: u8) -> Result<Scan, Fault>
    requires comment { in_comment scan ≡ false }
    requires digit { is_digit byte ≡ true }
    ensures { (ws : List ℕ) → Takes scan ws (byte ∷ []) result ws }
{
    let digit = u64::from(byte - b'0');
    let Some(tens) = value_begun(scan).checked_mul(10) else {
        return stop(scan, Wrong::TooLarge);
    };
    let Some(value) = tens.checked_add(digit) else {
        return stop(scan, Wrong::TooLarge);
    };
    Ok(Scan {
        stands: Stands::Number(value),
        ..scan
    })
}

// White space other than newline.
fn is_blank(byte: u8) -> bool
    ensures { result ≡ is_blank byte }
{
    matches!(byte, b' ' | b'\t' | 0x0b..=b'\r')
}

// Takes one byte.
fn take_byte(scan: Scan, byte: u8, words: &mut [u64]) -> Result<Scan, Fault>
    ensures { Takes scan words.old (byte ∷ []) result words.new }
{
    if byte == b'\n' {
        return end_number(scan, words, Stands::Between, scan.line.wrapping_add(1));
    }
    if scan.stands == Stands::Comment {
        return Ok(scan);
    }
    if byte == b'#' {
        return end_number(scan, words, Stands::Comment, scan.line);
    }
    if is_blank(byte) {
        return end_number(scan, words, Stands::Between, scan.line);
    }
    if byte.is_ascii_digit() {
        return take_digit(scan, byte);
    }
    stop(scan, Wrong::NoNumber)
}

// Takes the bytes of a part of the text, up to the first that is wrong.
pub fn take_bytes(scan: Scan, bytes: &[u8], words: &mut [u64]) -> Result<Scan, Fault>
    ensures takes { Takes scan words.old bytes.now result words.new }
    ensures of_text { FaultOfText result }
{
    let mut come = scan;
    for byte in bytes {
        come = take_byte(come, *byte, words)?;
    }
    Ok(come)
}

// Takes the end of the text, and answers how many words it has.
pub fn take_end(scan: Scan, words: &mut [u64]) -> Result<usize, Fault>
    ensures heard { heard result words.new ≡ ahead scan words.old [] }
    ensures of_text { FaultOfText result }
{
    let ended = end_number(scan, words, Stands::Between, scan.line)?;
    Ok(ended.count)
}

// Reads a whole text, and answers how many words it has.
pub fn read(text: &[u8], words: &mut [u64]) -> Result<usize, Fault>
    ensures says { heard result words.new ≡ says (length words.old) text.now }
    ensures of_text { FaultOfText result }
{
    let scan = take_bytes(start(), text, words)?;
    take_end(scan, words)
}

#[cfg(test)]
mod tests {
    use super::*;

    // What is wrong first, and its line: a text's faults are these three.
    #[test]
    fn faults_of_texts(rt: HostRuntime) {
        let cases: [(&[u8], Wrong, u64); 4] = [
            (b"1 x", Wrong::NoNumber, 1),
            (b"1\n\n18446744073709551616", Wrong::TooLarge, 3),
            (b"1 2 # 3\n4 x", Wrong::TooMany, 2),
            (b"1\n2x # 3", Wrong::NoNumber, 2),
        ];
        for (text, wrong, line) in cases {
            let mut words = [0u64; 2];
            assert_eq!(rt; read(text, &mut words), Err(Fault { wrong, line }));
        }
    }

    #[test]
    fn text_by_parts(rt: HostRuntime) {
        let mut words = [0u64; 3];
        let Ok(scan) = take_bytes(start(), b"12 3", &mut words) else {
            return assert!(rt; false);
        };
        let Ok(scan) = take_bytes(scan, b"4#5\n6", &mut words) else {
            return assert!(rt; false);
        };
        assert_eq!(rt; take_end(scan, &mut words), Ok(3));
        assert_eq!(rt; words, [12, 34, 6]);
        let Ok(scan) = take_bytes(start(), b"7 8 9", &mut words[..2]) else {
            return assert!(rt; false);
        };
        let (wrong, line) = (Wrong::TooMany, 1);
        assert_eq!(rt; take_end(scan, &mut words[..2]), Err(Fault { wrong, line }));
    }

    #[test]
    fn stopped_so(rt: HostRuntime) {
        let (wrong, line) = (Wrong::TooLarge, 1);
        assert_eq!(rt; stop(start(), wrong), Err(Fault { wrong, line }));
    }

    #[test]
    fn fault_of_a_part(rt: HostRuntime) {
        let mut words = [0u64; 3];
        let Ok(scan) = take_bytes(start(), b"7\n8", &mut words) else {
            return assert!(rt; false);
        };
        let (wrong, line) = (Wrong::NoNumber, 2);
        assert_eq!(rt;
            take_bytes(scan, b"x", &mut words),
            Err(Fault { wrong, line })
        );
    }
}
