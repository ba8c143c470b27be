//! The badges of channels.
ghost use Rattle.std.specs.Prelude.{◌≡◌, ◌≤◌, ◌+◌, ◌^◌};

/// The greatest number of a channel (manual of Microkit: channels).
pub const CHANNEL_MAX: u64 = 62;

/// Returns the badge with which a domain is notified over its channel: the bit of the channel.
pub fn notified_badge(channel: u64) -> u64
    requires { channel ≤ CHANNEL_MAX }
    ensures { result ≡ 2 ^ channel }
{
    1 << channel
}

/// Returns the badge with which a protected procedure of a domain is called over its channel: bit
/// 63, and the channel.
pub fn called_badge(channel: u64) -> u64
    requires { channel ≤ CHANNEL_MAX }
    ensures { result ≡ 2 ^ 63 + channel }
{
    (1 << 63) + channel
}
