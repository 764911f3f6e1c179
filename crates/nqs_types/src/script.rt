//! How long a script may be. `specs/Scripts.antt` has the same for contracts.

/// A script has at most so many bytes.
pub const LONGEST_SCRIPT: u32 = 1_048_576;
