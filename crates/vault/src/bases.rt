//! What no turn changes of a vault.

/// What no turn changes of a vault. No value of it is made.
#[derive(Clone, Copy)]
pub struct VaultBase {
    /// The keeper's count of faults when the vault was made.
    pub start: u64,
    /// Whether the keeper tells its map.
    pub told: bool,
    /// How many notes there were at the last meet.
    pub met: u64,
}
