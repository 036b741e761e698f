//! How often a key was put back to be tried again.

use crate::support::equal;
use resolver_base::Fault;
use resolver_fetch_scan::place::Place;
use resolver_fetch_waiting::pending::Pending;
use resolver_fetch_waiting::retries::count_retry;
use std::alloc::Global;
use std::collections::BTreeMap;

/// How often a key was put back that was put back so often before, and is once more.
fn put_back(alloc: Global, before: u32) -> Result<Option<u32>, Fault> {
    let mut retries = BTreeMap::new(alloc);
    retries.insert(1_u8, before)?;
    let mut pending = Pending::new(alloc);
    count_retry(&mut retries, &mut pending, 1, Place::retry(10))?;
    Ok(retries.get(&1).copied())
}

#[test]
fn a_key_is_put_back_however_often_it_was(rt: HostRuntime) {
    let alloc = rt.alloc();
    equal(&rt, &put_back(alloc, 65_535), &Ok(Some(65_536)));
    equal(&rt, &put_back(alloc, u32::MAX - 1), &Ok(Some(u32::MAX)));
    equal(&rt, &put_back(alloc, u32::MAX), &Ok(Some(u32::MAX)));
}
