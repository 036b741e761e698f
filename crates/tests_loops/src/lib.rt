//! Tests of `resolver`: of the mocks, through public calls, and of the loops of both machines over `fakes`, which are
//! polled by hand or run in threads of their own. Beside some loops goes a `twin`: a second core is given by hand what
//! a loop takes from its sources, and is to ask and to await the same.
//!
//! They stand in a crate of their own, so that the libraries aren't proved a second time with them.
#![tactic(auto)]

#[cfg(test)]
mod ample;
#[cfg(test)]
mod chaos;
#[cfg(test)]
mod closing;
#[cfg(test)]
mod every;
#[cfg(test)]
mod failing;
#[cfg(test)]
mod fakes;
#[cfg(test)]
mod leaving;
#[cfg(test)]
mod mailboxes;
#[cfg(test)]
mod mocks;
#[cfg(test)]
mod monitor;
#[cfg(test)]
mod ordering;
#[cfg(test)]
mod pair;
#[cfg(test)]
mod plans;
#[cfg(test)]
mod playing;
#[cfg(test)]
mod running;
#[cfg(test)]
mod scan;
#[cfg(test)]
mod script;
#[cfg(test)]
mod support;
#[cfg(test)]
mod twin;
#[cfg(test)]
mod two_engines;
