// The parts of a file, as they come.
use std::io;
use std::io::Read;

// Gives the parts of a file to `take`, one after another, until it answers something; that answer, or none where the file ends
// before. It takes at most 2^64 - 1 parts.
pub(crate) fn find_in<T, F: FnMut(&[u8]) -> Option<T>>(
    file: &mut impl Read,
    mut take: F,
) -> io::Result<Option<T>>
    requires { F.IsAlwaysCallable take }
{
    let mut part = [0u8; 65536];
    for _ in 0..u64::MAX {
        let n = file.read(&mut part)?;
        if n == 0 {
            return Ok(None);
        }
        if let Some(found) = take(&part[..n]) {
            return Ok(Some(found));
        }
    }
    Ok(None)
}
