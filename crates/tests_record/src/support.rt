//! What is read of a log.

use log::sink::Memory;
use resolver::base::Span;
use resolver_record::Log;
use resolver_script::replay::run;
use std::alloc::Global;
use std::fmt::Debug;
use std::io::BufReader;
use std::panic::Expect;
use std::process::Abort;
use std::str;

/// That this text was found.
pub fn assert_text(rt: &impl Abort, found: &[u8], expected: &[u8]) {
    if found != expected {
        let (found, expected) = (str::from_utf8(found), str::from_utf8(expected));
        panic!(rt; "{found:?} instead of {expected:?}");
    }
}

/// That this was found.
pub fn assert_same<T: PartialEq + Debug + Copy>(rt: &impl Abort, found: T, expected: T) {
    assert_eq!(rt; found, expected);
}

/// The script of a log.
pub fn script_of<K, P, S>(rt: &impl Abort, alloc: Global, log: &Log<K, P, S>) -> Vec<u8>
where
    K: Span + Drop,
    P: Ord + Debug + Drop,
    S: Ord + Debug + Drop,
{
    let mut script = Vec::new(alloc);
    log.write(&mut script).expect(rt, "memory");
    script
}

/// The effects of a log.
pub fn effects_of<K, P, S>(rt: &impl Abort, alloc: Global, log: &Log<K, P, S>) -> Vec<u8>
where
    K: Span + Drop,
    P: Ord + Debug + Drop,
    S: Ord + Debug + Drop,
{
    let mut effects = Vec::new(alloc);
    log.write_effects(&mut effects).expect(rt, "memory");
    effects
}

/// What `resolver-replay` prints of a script.
pub fn replayed(rt: &impl Abort, alloc: Global, script: &[u8]) -> Vec<u8> {
    let traced = Memory::new(alloc);
    let mut input = BufReader::new(alloc, script).expect(rt, "memory");
    let mut output = Vec::new(alloc);
    run(&traced, alloc, &mut input, &mut output).expect(rt, "a script");
    output
}

/// A script without its comments that have effects.
pub fn without_effects(rt: &impl Abort, alloc: Global, script: &[u8]) -> Vec<u8> {
    let mut left = Vec::new(alloc);
    for line in script.split_inclusive(|byte| *byte == b'\n') {
        if !line.starts_with(b"# >") {
            left.extend_from_slice(line).expect(rt, "memory");
        }
    }
    left
}
