//! The signs of a picture in text.

use crate::lane::Phase;
use crate::mark::What;
use crate::peer_lane::{Standing, Worth};
use crate::weights::digits_of;

/// The signs of marks, and what they say.
pub const MARKS: &[(char, &str)] = &[
    ('v', "handed out"),
    ('+', "right: credited"),
    ('X', "wrong: blocked"),
    ('<', "put back"),
    ('*', "done"),
    ('-', "dropped"),
    (':', "not before later"),
    ('!', "refused"),
];

/// The sign of a mark.
pub fn sign_of(what: What) -> u8 {
    match what {
        What::Delivered => b'v',
        What::Credited => b'+',
        What::Blocked => b'X',
        What::Retried => b'<',
        What::Done => b'*',
        What::Dropped => b'-',
        What::Postponed => b':',
        What::Refused => b'!',
    }
}

/// The sign of a phase, where these peers were asked.
pub fn sign_of_phase(phase: Phase, names: &[u8]) -> u8 {
    match phase {
        Phase::Waiting => b'.',
        Phase::Retrying => b'~',
        Phase::Held => b'o',
        Phase::Asked { peer: None, .. } => b'#',
        Phase::Asked {
            peer: Some(peer),
            ..
        } => letter(peer, names),
        Phase::Judged { .. } => b'=',
    }
}

/// The letter of a peer: `a` for the first of those that were asked, and a question mark behind `z`.
fn letter(peer: u8, names: &[u8]) -> u8 {
    let place = names.iter().position(|name| *name == peer);
    match place.and_then(|place| LETTERS.get(place)) {
        Some(letter) => *letter,
        None => b'?',
    }
}

const LETTERS: &[u8] = b"abcdefghijklmnopqrstuvwxyz";

/// The letter of a peer, as a character.
pub fn letter_of(peer: u8, names: &[u8]) -> char {
    char::from(letter(peer, names))
}

/// The sign of what a peer is worth: how many digits its weight has, unless it may not be asked.
pub fn sign_of_worth(worth: Worth) -> u8 {
    match worth.standing {
        Standing::Free => b'0'.saturating_add(digits_of(worth.weight)),
        Standing::Full => b'=',
        Standing::Blocked => b'x',
    }
}
