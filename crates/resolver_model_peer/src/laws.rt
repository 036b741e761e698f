//! Worked runs of the peer machine's definition, and laws of all its runs. Each function says one of
//! them, and does nothing.

ghost use Rattle.resolver_model_peer.specs.Parties.{parties};
ghost use Rattle.resolver_model_peer.specs.PeerDemandWorked.{PeerDemand};
ghost use Rattle.resolver_model_peer.specs.PeerLaws.{AsksEligible, DemandIsKept, EarnsOnce, IsPaidOnce, IsPaidToSenders, IsWellAskedThroughout, TriesOnce, AskedOnce, IdsAreNew, StaysAwake};
ghost use Rattle.resolver_model_peer.specs.PeerSteps.{RunsJoin};
ghost use Rattle.resolver_model_peer.specs.PeerPoints.{DeadVerdictsPass, JudgesByTheRun, NoSecondReply, PassedOverPass, RepliesOnce, ResponsesAreDelivered, RestsAfterScans};
ghost use Rattle.resolver_model_peer.specs.PeerRunLaws.{RunLaws};
ghost use Rattle.resolver_model_peer.specs.PeerWorked as peer;

/// A scan's questions, and answers that it refuses.
pub fn peer_refusals()
    ensures { peer.PeerRefusals }
{}

/// A subscriber that comes while a response is judged gets the same response, credited once.
pub fn peer_late_subscriber()
    ensures { peer.LateSubscriber }
{}

/// A verdict for a key that was dropped meanwhile earns its peer a credit and changes nothing.
pub fn peer_dropped_then_fetched_again()
    ensures { peer.DroppedThenFetchedAgain }
{}

/// A subscriber that was pruned and came again is named by the older delivery.
pub fn peer_pruned_then_fetched_again()
    ensures { peer.PrunedThenFetchedAgain }
{}

/// A request that times out, uniform draws and limited peers.
pub fn timeout_and_limits()
    ensures { peer.TimeoutAndLimits }
{}

/// A target that is blocked, and then isn't.
pub fn blocked_target()
    ensures { peer.BlockedTarget }
{}

/// Requests that are refused use their ids up, and 0 follows the last.
pub fn refused_sends()
    ensures { peer.RefusedSends }
{}

/// A foreign response, bytes that are no message, and missing data.
pub fn foreign_and_broken_messages()
    ensures { peer.ForeignAndBrokenMessages }
{}

/// Requests of a peer, answered or not, and an end.
pub fn serving()
    ensures { peer.Serving }
{}

/// An invalid response blocks its peer, and its key is tried again.
pub fn invalid_response()
    ensures { peer.InvalidResponse }
{}

/// Late, stale, foreign and broken responses.
pub fn late_and_stale_responses()
    ensures { peer.LateAndStaleResponses }
{}

/// Verdicts that are repeated, and one that nothing waits for.
pub fn verdicts_repeated()
    ensures { peer.VerdictsRepeated }
{}

/// A full peer is asked again once it responds, and not for a credit.
pub fn limit_one_peer()
    ensures { peer.LimitOnePeer }
{}

/// A full peer is asked again once the time of its request is over.
pub fn limit_timeout()
    ensures { peer.LimitTimeout }
{}

/// A peer that left and came back is as full as it was.
pub fn limit_peer_returns()
    ensures { peer.LimitPeerReturns }
{}

/// In a run of the peer machine each response earns its peer at most one credit or one block.
pub fn earns_once<K: Ord, S: Ord, P: Ord>()
    ensures { EarnsOnce (parties K.cmp S.cmp P.cmp) }
{}

/// In a run of the peer machine each request goes to a peer that is eligible for its key.
pub fn asks_eligible<K: Ord, S: Ord, P: Ord>()
    ensures { AsksEligible (parties K.cmp S.cmp P.cmp) }
{}

/// In a run of the peer machine no scan tries a peer twice for a key.
pub fn tries_once<K: Ord, S: Ord, P: Ord>()
    ensures { TriesOnce (parties K.cmp S.cmp P.cmp) }
{}

/// After worked runs of the peer machine its rows have the demand of what it took.
pub fn peer_demand()
    ensures { PeerDemand }
{}

/// In a run of the peer machine that did not fail, the rows have the demand of what it took.
pub fn keeps_demand<K: Ord, S: Ord, P: Ord>()
    ensures { DemandIsKept (parties K.cmp S.cmp P.cmp) }
{}

/// In a run of the peer machine with what the code may refuse, each response earns its peer at most
/// one credit or one block.
pub fn pays_once<K: Ord, S: Ord, P: Ord>()
    ensures { IsPaidOnce (parties K.cmp S.cmp P.cmp) }
{}

/// In a run of the peer machine with what the code may refuse, each request goes to a peer that is
/// eligible for its key, and no scan tries a peer twice for a key.
pub fn asks_well<K: Ord, S: Ord, P: Ord>()
    ensures { IsWellAskedThroughout (parties K.cmp S.cmp P.cmp) }
{}

/// In a run of the peer machine with what the code may refuse, credits and blocks name the peer whose
/// message the response was.
pub fn pays_senders<K: Ord, S: Ord, P: Ord>()
    ensures { IsPaidToSenders (parties K.cmp S.cmp P.cmp) }
{}

/// In a run of the peer machine each request has an id that no request without an answer holds, while
/// these are fewer than the ids.
pub fn ids_are_new<K: Ord, S: Ord, P: Ord>()
    ensures { IdsAreNew (parties K.cmp S.cmp P.cmp) }
{}

/// The peer machine begins awake, and stays awake while the moments of its inputs never go back.
pub fn stays_awake<K: Ord, S: Ord, P: Ord>()
    ensures { StaysAwake (parties K.cmp S.cmp P.cmp) }
{}

/// In a run of the peer machine a key is not asked for again before it has no pair or is retried.
pub fn asked_once<K: Ord, S: Ord, P: Ord>()
    ensures { AskedOnce (parties K.cmp S.cmp P.cmp) }
{}

/// In runs of the peer machine where memory may be refused at any step, a machine stays awake while
/// none is, and ids are new.
pub fn run_laws<K: Ord, S: Ord, P: Ord>()
    ensures { RunLaws (parties K.cmp S.cmp P.cmp) }
{}

/// A Served of an open serve gives one reply in that step, to the peer and under the id of its request,
/// and no other input gives a reply.
pub fn replies_once<K: Ord, S: Ord, P: Ord>()
    ensures { RepliesOnce (parties K.cmp S.cmp P.cmp) }
{}

/// In a run of the peer machine no serve is replied to twice.
pub fn no_second_reply<K: Ord, S: Ord, P: Ord>()
    ensures { NoSecondReply (parties K.cmp S.cmp P.cmp) }
{}

/// What is passed over changes nothing by itself: the step is that of a wake-up.
pub fn passed_over_pass<K: Ord, S: Ord, P: Ord>()
    ensures { PassedOverPass (parties K.cmp S.cmp P.cmp) }
{}

/// A verdict that is not live retires no pair, changes no phase, hands out nothing, and gives at most one
/// credit or block.
pub fn dead_verdicts_pass<K: Ord, S: Ord, P: Ord>()
    ensures { DeadVerdictsPass (parties K.cmp S.cmp P.cmp) }
{}

/// A response that answers a request is delivered in that step, to exactly the subscribers of its key.
pub fn responses_are_delivered<K: Ord, S: Ord, P: Ord>()
    ensures { ResponsesAreDelivered (parties K.cmp S.cmp P.cmp) }
{}

/// After a run of the peer machine that did not fail, its open deliveries are live, and their responses accepted, as
/// the account of what it took and handed out says.
pub fn judges_by_the_run<K: Ord, S: Ord, P: Ord>()
    ensures { JudgesByTheRun (parties K.cmp S.cmp P.cmp) }
{}

/// A wake-up at the moment of an event, or of a scan that ended in vain, begins no scan.
pub fn rests_after_scans<K: Ord, S: Ord, P: Ord>()
    ensures { RestsAfterScans (parties K.cmp S.cmp P.cmp) }
{}

/// A step of the peer machine is a run of one input, and a run that goes on is one run.
pub fn runs_join<K: Ord, S: Ord, P: Ord>()
    ensures { RunsJoin (parties K.cmp S.cmp P.cmp) }
{}
