//! Free addresses.

ghost use Rattle.std.specs.Prelude.{◌≡◌, ◌≤◌, ◌+◌, ◌*◌, option_map, ◌^◌, ◌<◌, IfSome, None, Some};
ghost use Rattle.omf_layout.specs.Room.{address_from, limit, next_multiple};

use crate::options::Frames;

/// Returns the lowest multiple of an alignment that is at least `address`.
fn next_multiple(alignment: u16, address: u64) -> u64
    requires some { 1 ≤ alignment }
    requires low { address ≤ 2 ^ 33 }
    ensures { result ≡ next_multiple alignment address }
{
    let alignment = u64::from(alignment);
    (address + (alignment - 1)) / alignment * alignment
}

/// Returns the lowest aligned free address from which `size` bytes fit below the limit.
pub fn address_from(frames: Frames, alignment: u16, free: u64, size: u64) -> Option<u32>
    requires some { 1 ≤ alignment }
    requires low { free ≤ 2 ^ 33 }
    ensures value { result ≡ address_from frames alignment free size }
    ensures below { IfSome result (λ a. a < limit frames) }
    ensures end { IfSome result (λ a. a + size ≤ limit frames) }
    ensures from { IfSome result (λ a. free ≤ a) }
{
    let address = next_multiple(alignment, free);
    let limit = frames.limit();
    if address < limit && size <= limit - address {
        Some(address as u32)
    } else {
        None
    }
}
