//! The values of the keys.

use crate::height::Height;
use bytes::Bytes;
use resolver_base::Fault;
use std::alloc::{AllocError, Global};

/// The value of each key, and what liars have for it.
#[derive(Drop)]
pub struct Shelf {
    right: Vec<Bytes>,
    wrong: Vec<Bytes>,
}

impl Shelf {
    /// The values of so many keys, of so many bytes each.
    pub fn new(alloc: Global, keys: u16, length: u16) -> Result<Shelf, Fault> {
        let mut shelf = Shelf {
            right: Vec::new(alloc),
            wrong: Vec::new(alloc),
        };
        for number in 0..keys {
            let key = Height::of(number);
            shelf.right.push(bytes_of(alloc, key, length, 0)?)?;
            shelf.wrong.push(bytes_of(alloc, key, length, 1)?)?;
        }
        Ok(shelf)
    }

    /// The value of a key, if there is such a key.
    pub fn right(&self, key: Height) -> Option<&Bytes> {
        self.right.get(usize::from(key.number()))
    }

    /// What liars have for a key, if there is such a key.
    pub fn wrong(&self, key: Height) -> Option<&Bytes> {
        self.wrong.get(usize::from(key.number()))
    }

    /// Whether these bytes are the value of this key.
    pub fn is_right(&self, key: Height, value: &[u8]) -> bool {
        match self.right(key) {
            Some(right) => right.as_slice() == value,
            None => false,
        }
    }
}

/// So many bytes that tell this key. One more is added to each where they are to be wrong.
fn bytes_of(alloc: Global, key: Height, length: u16, more: u8) -> Result<Bytes, AllocError> {
    let mut bytes = Vec::with_capacity(alloc, usize::from(length))?;
    for place in 0..length {
        let byte = if place % 2 == 0 { key.high } else { key.low };
        let [_, low] = place.to_be_bytes();
        bytes.push(byte.wrapping_add(low).wrapping_add(more))?;
    }
    Bytes::copy_from_slice(alloc, bytes.as_slice())
}
