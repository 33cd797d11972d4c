//! Which channel a key belongs to.

ghost use Rattle.std.specs.Prelude.{◌≡◌, ◌<◌, ◌≤◌};
ghost use Rattle.shard_core.specs.Keys.{channel_of};

use row_types::Key;

/// The channel of a key, of so many channels.
pub fn channel_of(channels: u32, key: Key) -> u32
    requires { 1 ≤ channels }
    ensures channel { result ≡ channel_of channels key.0 }
    ensures there { result < channels }
{
    key.0.rem_euclid(i64::from(channels)).unsigned_abs() as u32
}
