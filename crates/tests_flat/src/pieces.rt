//! Bytes as the pieces that they are spelled of: the fields of a line.
//!
//! | Piece | Is |
//! |---|---|
//! | `oN`, `cN`, `nN`, `wN` | a number in one, four, eight or sixteen bytes, the low byte first |
//! | `bN` | a number in eight bytes, the high byte first, as the wire has it |
//! | `kN`, `sN` | a name of 32 bytes, and one of eight: N is the last byte, and the others are 0 |
//! | `tTEXT` | the bytes of a text |

use std::alloc::Global;
use std::panic::Expect;
use std::process::Abort;
use std::str::FromStr;
use tests_support::transcript::Line;

/// How many pieces a line may have.
const MOST: usize = 64;

/// Ends the test by a line that can't be read.
pub fn unreadable(rt: &impl Abort, line: &Line) -> ! {
    let place = line.place();
    panic!(rt; "{place}\ncan't be read");
}

fn number<T: FromStr>(rt: &impl Abort, line: &Line, text: &str) -> T
where
    T::Err: Drop,
{
    match text.parse::<T>() {
        Ok(number) => number,
        Err(_) => unreadable(rt, line),
    }
}

fn put(rt: &impl Abort, out: &mut Vec<u8>, bytes: &[u8]) {
    out.extend_from_slice(bytes).expect(rt, "memory");
}

/// Zeros, and this byte behind them.
fn put_behind(rt: &impl Abort, out: &mut Vec<u8>, zeros: &[u8], last: u8) {
    put(rt, out, zeros);
    put(rt, out, &[last]);
}

fn put_piece(rt: &impl Abort, out: &mut Vec<u8>, line: &Line, field: &str) {
    if let Some(text) = field.strip_prefix("o") {
        put(rt, out, &[number::<u8>(rt, line, text)]);
    } else if let Some(text) = field.strip_prefix("c") {
        put(rt, out, &number::<u32>(rt, line, text).to_le_bytes());
    } else if let Some(text) = field.strip_prefix("n") {
        put(rt, out, &number::<u64>(rt, line, text).to_le_bytes());
    } else if let Some(text) = field.strip_prefix("w") {
        put(rt, out, &number::<u128>(rt, line, text).to_le_bytes());
    } else if let Some(text) = field.strip_prefix("t") {
        put(rt, out, text.as_bytes());
    } else {
        put_other(rt, out, line, field);
    }
}

fn put_other(rt: &impl Abort, out: &mut Vec<u8>, line: &Line, field: &str) {
    if let Some(text) = field.strip_prefix("b") {
        put(rt, out, &number::<u64>(rt, line, text).to_be_bytes());
    } else if let Some(text) = field.strip_prefix("k") {
        put_behind(rt, out, &[0; 31], number::<u8>(rt, line, text));
    } else if let Some(text) = field.strip_prefix("s") {
        put_behind(rt, out, &[0; 7], number::<u8>(rt, line, text));
    } else {
        unreadable(rt, line);
    }
}

/// The bytes of the fields that are left.
pub fn bytes(rt: &impl Abort, alloc: Global, line: &mut Line) -> Vec<u8> {
    let mut out = Vec::new(alloc);
    for _ in 0..MOST {
        if line.is_over() {
            return out;
        }
        let field = line.field();
        put_piece(rt, &mut out, line, field);
    }
    unreadable(rt, line)
}
