//! The limits of a script.
ghost use Rattle.std.specs.Prelude.{◌≡◌};
ghost use Rattle.cell_runs.specs.declared.limits.TheConstants.{MAX_LINES, MAX_PACKETS, MAX_PACKET_BYTES};

/// The most lines of a script.
pub const MAX_LINES: u32 = 20_000;

/// The most packets that the servers of a script send.
pub const MAX_PACKETS: u32 = 200_000;

/// The most bytes that these packets have as frames, all together.
pub const MAX_PACKET_BYTES: u64 = 67_108_864;

/// The limits that the meaning of a script names are these numbers.
pub fn law_limits_are_these()
    ensures lines { MAX_LINES ≡ 20000 }
    ensures packets { MAX_PACKETS ≡ 200000 }
    ensures bytes { MAX_PACKET_BYTES ≡ 67108864 }
{}
