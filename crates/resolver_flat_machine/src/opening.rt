//! What a core is opened with, as it is spelled.

ghost use Rattle.resolver_fetch_scan.specs.Fetcher.{IsTimely};
ghost use Rattle.resolver_flat.specs.Naming.{shape};
ghost use Rattle.resolver_flat.specs.Reading.{Gives, name_at, option_at};
ghost use Rattle.resolver_flat_machine.specs.Settings.{IsSet, said, settings_at};

use crate::settings::Settings;
use resolver_fetch_scan::config::Config;
use resolver_flat::reading::{count, flag, moment, name};
use resolver_flat::{FlatName, Misread};
use std::num::NonZeroU32;

impl<K> Settings<K> {
    /// The configuration that the settings are.
    pub fn configuration(self) -> Config<K>
        ensures set { IsSet (said self) result }
        ensures timely { IsTimely result.fetch_timeout result.retry_delay }
    {
        Config {
            me: self.me,
            fetch_timeout: self.fetch_timeout,
            retry_delay: self.retry_delay,
            peer_limit: NonZeroU32::new(self.peer_limit),
            priority_requests: self.priority_requests,
        }
    }
}

/// The settings at the front: a name of one's own behind a flag, the timeout, which is not 0, the
/// delay, the limit, and two flags.
#[tactic(auto, unfolding(crate::specs::Settings::settings_at))]
pub fn settings_in<K: FlatName>(bytes: &[u8]) -> Result<(Settings<K>, &[u8]), Misread>
    ensures { Gives (λ x. (said x.0, x.1.now)) result
        (settings_at (shape K.SIZE K.bytes_of K.read_from K.cmp) bytes.now) }
{
    let (me, bytes) = named(bytes)?;
    let (fetch_timeout, bytes) = moment(bytes)?;
    let (retry_delay, bytes) = moment(bytes)?;
    let (peer_limit, bytes) = count(bytes)?;
    let (priority_requests, bytes) = flag(bytes)?;
    let (priority_responses, bytes) = flag(bytes)?;
    if fetch_timeout.nanoseconds == 0 {
        return Err(Misread::Misspelled);
    }
    let settings = Settings {
        me,
        fetch_timeout: fetch_timeout.nanoseconds,
        retry_delay: retry_delay.nanoseconds,
        peer_limit,
        priority_requests,
        priority_responses,
    };
    Ok((settings, bytes))
}

/// A name behind a flag, or none.
#[tactic(auto, unfolding(resolver_flat::specs::Reading::option_at))]
fn named<K: FlatName>(bytes: &[u8]) -> Result<(Option<K>, &[u8]), Misread>
    ensures { Gives (λ x. (x.0, x.1.now)) result
        (option_at (name_at (shape K.SIZE K.bytes_of K.read_from K.cmp)) bytes.now) }
{
    let (is_there, bytes) = flag(bytes)?;
    if !is_there {
        return Ok((None, bytes));
    }
    let (name, bytes) = name(bytes)?;
    Ok((Some(name), bytes))
}
