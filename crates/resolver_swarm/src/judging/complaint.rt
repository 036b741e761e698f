//! What may be wrong with a node.

use std::fmt;
use std::fmt::{Display, Formatter, Write};

/// What is wrong with a node.
#[derive(Clone, Copy, Debug, PartialEq, Eq)]
pub enum Complaint {
    /// The rows aren't the keys that were fetched and not retired.
    Demand,
    /// The rows have other requests than were sent and not ended.
    Requests,
    /// A request went to a peer that may not be asked, or that wasn't checked.
    Ineligible,
    /// A request has the id of another one, or its key isn't wanted, asked for already or judged.
    Request,
    /// A delivery doesn't carry what an asked peer answered.
    Delivery,
    /// A response earned a credit or a block twice, or another peer earned it.
    Earned,
    /// A request's time is over at another moment.
    Deadline,
    /// It was due and wasn't woken for it.
    Overdue,
    /// A key waits, a peer may be asked for it, and nothing will wake the node.
    Asleep,
    /// It has blocked a peer that never lied.
    Blocked,
    /// Nothing more happens, and it lacks a key that an honest peer has.
    Lacking,
}

impl Complaint {
    /// What is wrong, in words.
    pub fn words(self) -> &'static str {
        match self {
            Complaint::Demand => "other keys are demanded than were fetched and not retired",
            Complaint::Requests => "other requests are open than were sent and not ended",
            Complaint::Ineligible => "a peer is asked that may not be asked",
            Complaint::Request => "a request has an id in use, or a key that may not be asked for",
            Complaint::Delivery => "a delivery is not what an asked peer answered",
            Complaint::Earned => "a response earned twice, or another peer earned it",
            Complaint::Deadline => "a request's time is over at another moment",
            Complaint::Overdue => "something is due that it isn't woken for",
            Complaint::Asleep => "a key waits, a peer may be asked, and nothing will wake it",
            Complaint::Blocked => "an honest peer is blocked",
            Complaint::Lacking => "nothing more happens, and it lacks what an honest peer has",
        }
    }
}

impl Display for Complaint {
    fn fmt<W: Write>(&self, f: &mut Formatter<W>) -> fmt::Result {
        f.write_str(self.words())
    }
}
