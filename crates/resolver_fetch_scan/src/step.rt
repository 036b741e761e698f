//! What a scan asks, and what an answer means to it.

ghost use Rattle.std.specs.Prelude.{◌≡◌, ◌≢◌, true, Ok, Err, is_ok, IfErr, IfOk};
ghost use Rattle.resolver_base.specs.declared.fault.Fault.TheVariants.{OutOfMemory};
ghost use Rattle.std.specs.Option.{option_copied};
ghost use Rattle.resolver_fetch_scan.specs.declared.scan.Answer.TheVariants.{Drawn};
ghost use Rattle.resolver_fetch_scan.specs.ScanSteps.{ask_for, id_of, step_checked, step_chosen, step_mode, step_of, step_sent};

use crate::scan::{Answer, Ask};
use crate::trail::{Expected, Reason};
use crate::trying::Trying;
use resolver_base::{Check, Fault};
use resolver_fetch_requests::requests::ID;
use resolver_sampling::sampling::is_weighted;

/// What an answer means to a scan.
#[derive(Drop)]
pub enum Step<P> {
    /// It expects this next.
    Expect(Expected<P>),
    /// The peer may be sent to.
    Clear(P),
    /// The request to the peer gets this id, the first ever.
    Send(P, ID),
    /// The peer was tried in vain.
    Fail(P, Reason),
    /// The request to the peer is on its way.
    Accept(P, ID),
}

/// What an answer means to a scan that tries a key and expects something. One that it doesn't
/// expect, or a number out of range, is refused. Memory may be refused only where it is taken.
pub fn step_of<K, P: Ord + Clone + Drop>(
    trying: &Trying<K, P>,
    expected: &Expected<P>,
    answer: Answer,
) -> Result<Step<P>, Fault>
    requires peers_clone { (x y : P) → P.is_clone x y → y ≡ x }
    ensures ok { IfOk result (λ step. step_of trying.now expected.now answer ≡ Ok step) }
    ensures refused { IfErr result
        (λ fault. fault ≢ OutOfMemory → step_of trying.now expected.now answer ≡ Err fault) }
    ensures takes { IfErr result (λ fault. fault ≡ OutOfMemory
        → is_ok (step_of trying.now expected.now answer) ≡ true) }
{
    match answer {
        Answer::Drawn(number) => drawn(trying, expected, number),
        Answer::Checked(check) => match expected {
            Expected::Checking(peer) => Ok(after_check(peer.clone()?, check)),
            _ => Err(Fault::Unasked),
        },
        Answer::Sent(accepted) => match expected {
            Expected::Sending(peer, id) => Ok(after_send(peer.clone()?, *id, accepted)),
            _ => Err(Fault::Unasked),
        },
    }
}

/// What a number means to a scan that tries a key and expects something.
fn drawn<K, P: Ord + Clone + Drop>(
    trying: &Trying<K, P>,
    expected: &Expected<P>,
    number: u128,
) -> Result<Step<P>, Fault>
    requires peers_clone { (x y : P) → P.is_clone x y → y ≡ x }
    ensures ok { IfOk result (λ step. step_of trying.now expected.now (Drawn number) ≡ Ok step) }
    ensures refused { IfErr result
        (λ fault. fault ≢ OutOfMemory → step_of trying.now expected.now (Drawn number) ≡ Err fault) }
    ensures takes { IfErr result (λ fault. fault ≡ OutOfMemory
        → is_ok (step_of trying.now expected.now (Drawn number)) ≡ true) }
{
    match expected {
        Expected::Mode => mode(trying.retries, number),
        Expected::ByWeight => chosen(trying.by_weight(number)),
        Expected::ByPlace => chosen(trying.by_place(number)),
        Expected::FirstId(peer) => {
            let id = id_of(number)?;
            Ok(Step::Send(peer.clone()?, id))
        }
        _ => Err(Fault::Unasked),
    }
}

/// The way in which a peer is drawn, by a number below four and the key's retries.
fn mode<P>(retries: u32, number: u128) -> Result<Step<P>, Fault>
    ensures { result ≡ step_mode retries number }
{
    if number >= u128::from(retries) + 4 {
        return Err(Fault::OutOfRange);
    }
    if is_weighted(number) {
        Ok(Step::Expect(Expected::ByWeight))
    } else {
        Ok(Step::Expect(Expected::ByPlace))
    }
}

/// The peer that a number chose is looked at; one that chose none was out of range.
fn chosen<P: Clone + Drop>(peer: Option<&P>) -> Result<Step<P>, Fault>
    requires peers_clone { (x y : P) → P.is_clone x y → y ≡ x }
    ensures ok { IfOk result (λ step. step_chosen (option_copied peer.entry) ≡ Ok step) }
    ensures refused { IfErr result
        (λ fault. fault ≢ OutOfMemory → step_chosen (option_copied peer.entry) ≡ Err fault) }
    ensures takes { IfErr result (λ fault. fault ≡ OutOfMemory
        → is_ok (step_chosen (option_copied peer.entry)) ≡ true) }
{
    match peer {
        Some(peer) => Ok(Step::Expect(Expected::Checking(peer.clone()?))),
        None => Err(Fault::OutOfRange),
    }
}

/// Whether a peer may be sent to now.
fn after_check<P>(peer: P, check: Check) -> Step<P>
    ensures { result ≡ step_checked peer check }
{
    match check {
        Check::Clear => Step::Clear(peer),
        Check::Until(moment) => Step::Fail(peer, Reason::Limited(moment)),
    }
}

/// Whether a request is on its way.
fn after_send<P>(peer: P, id: ID, accepted: bool) -> Step<P>
    ensures { result ≡ step_sent peer id accepted }
{
    if accepted {
        Step::Accept(peer, id)
    } else {
        Step::Fail(peer, Reason::Refused)
    }
}

/// The id that a number is.
fn id_of(number: u128) -> Result<ID, Fault>
    ensures { result ≡ id_of number }
{
    if number > u128::from(u64::MAX) {
        return Err(Fault::OutOfRange);
    }
    Ok(number as u64)
}

/// What a scan asks that tries a key and expects something.
pub fn ask_for<K: Clone + Drop, P: Ord + Clone + Drop>(
    priority: bool,
    trying: &Trying<K, P>,
    expected: &Expected<P>,
) -> Result<Ask<K, P>, Fault>
    requires keys_clone { (x y : K) → K.is_clone x y → y ≡ x }
    requires peers_clone { (x y : P) → P.is_clone x y → y ≡ x }
    ensures ok { IfOk result (λ ask. ask ≡ ask_for priority trying.now expected.now) }
    ensures only { IfErr result (λ fault. fault ≡ OutOfMemory) }
{
    match expected {
        Expected::Mode => Ok(Ask::Draw(u128::from(trying.retries) + 4)),
        Expected::ByWeight => Ok(Ask::Draw(trying.total())),
        Expected::ByPlace => Ok(Ask::Draw(trying.count())),
        Expected::Checking(peer) => Ok(Ask::Check(peer.clone()?)),
        Expected::FirstId(_) => Ok(Ask::Draw(1 << 64)),
        Expected::Sending(peer, id) => Ok(Ask::Request {
            peer: peer.clone()?,
            id: *id,
            key: trying.pair.1.clone()?,
            priority,
        }),
    }
}
