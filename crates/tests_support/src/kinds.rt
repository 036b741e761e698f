//! What a watcher is told of: kinds of inputs and of effects, of either machine.

/// A kind of input.
#[derive(Clone, Copy)]
pub enum InputKind {
    Fetch,
    Retain,
    Fetched,
    PeerSet,
    Blocked,
    Timeout,
    Wake,
    Verdict,
    Served,
    Net,
    End,
    Drawn,
    Checked,
    Sent,
}

impl InputKind {
    /// The word for it.
    pub fn word(self) -> &'static str {
        match self {
            InputKind::Fetch => "fetch",
            InputKind::Retain => "retain",
            InputKind::Fetched => "fetched",
            InputKind::PeerSet => "peers",
            InputKind::Blocked => "blocked",
            InputKind::Timeout => "timeout",
            InputKind::Wake => "wake",
            InputKind::Verdict => "verdict",
            InputKind::Served => "served",
            InputKind::Net => "net",
            InputKind::End => "stop",
            InputKind::Drawn => "drawn",
            InputKind::Checked => "checked",
            InputKind::Sent => "sent",
        }
    }
}

/// A kind of effect.
#[derive(Clone, Copy)]
pub enum EffectKind {
    Start,
    Abort,
    Draw,
    Check,
    Request,
    Deliver,
    Cancel,
    Produce,
    Reply,
    Credit,
    Block,
}

impl EffectKind {
    /// The words for it.
    pub fn words(self) -> &'static str {
        match self {
            EffectKind::Start => "a start",
            EffectKind::Abort => "an abort",
            EffectKind::Draw => "a draw",
            EffectKind::Check => "a check",
            EffectKind::Request => "a request",
            EffectKind::Deliver => "a delivery",
            EffectKind::Cancel => "a cancel",
            EffectKind::Produce => "a serve",
            EffectKind::Reply => "a reply",
            EffectKind::Credit => "a credit",
            EffectKind::Block => "a block",
        }
    }
}
