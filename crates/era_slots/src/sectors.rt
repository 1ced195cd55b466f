//! The sectors of a slot as they are written.

ghost use Rattle.std.specs.Prelude.{◌≡◌, ℕ, ◌^◌, ◌<◌, length, take, drop};
ghost use Rattle.std.specs.Int.{w64, to_le_bytes};
ghost use Rattle.era_slots.specs.Slot.{closed_gate, open_gate};

/// The sector of a closed gate: zeros.
#[tactic(auto, unfolding(crate::specs::Slot::closed_gate))]
pub fn closed_sector() -> [u8; 512]
    ensures is { result ≡ closed_gate }
    ensures size { length result ≡ 512 }
{
    [0; 512]
}

/// The sector of an open gate: 1, then zeros.
#[tactic(auto, unfolding(crate::specs::Slot::open_gate))]
pub fn open_sector() -> [u8; 512]
    ensures is { result ≡ open_gate }
    ensures size { length result ≡ 512 }
{
    let mut sector = [0; 512];
    sector[0] = 1;
    sector
}

/// The seven sectors of a commit number and a body.
pub fn body_sectors(number: u64, body: &[u8]) -> [u8; 3584]
    requires { length body.now ≡ 3576 }
    ensures number { take 8 result ≡ to_le_bytes w64 number }
    ensures body { drop 8 result ≡ body.now }
    ensures size { length result ≡ 3584 }
{
    let mut sectors = [0; 3584];
    sectors[..8].copy_from_slice(&number.to_le_bytes());
    sectors[8..].copy_from_slice(body);
    sectors
}
