//! The ends of channels.
ghost use Rattle.std.specs.Prelude.{◌≤◌};

/// An end of a channel: the index of a domain, and the channel's number there, at most 62.
#[derive(Clone, Copy, PartialEq, Eq)]
pub struct End {
    pub domain: usize,
    pub channel: u64,
    ghost in_range: { channel ≤ 62 },
}
