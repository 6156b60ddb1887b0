//! Cutting a run into the pieces that records hold.

ghost use Rattle.std.specs.Prelude.{◌≡◌, take, drop};
ghost use Rattle.omf_output.specs.Rom.Cut.{room};

/// The bytes from an address to the next that 16 divides, and those after them.
pub fn split_piece(address: u64, bytes: &[u8]) -> (&[u8], &[u8])
    ensures front { result.0.now ≡ take (room address) bytes.now }
    ensures back { result.1.now ≡ drop (room address) bytes.now }
{
    let room = 16 - (address % 16) as usize;
    bytes.split_at(room.min(bytes.len()))
}
