//! Sums of bytes modulo 256.

ghost use Rattle.std.specs.Prelude.{◌≡◌, ◌≤◌, ◌%◌, length, sum};
ghost use Rattle.omf_frame.specs.Framing.{raw_bytes, checksum_of};

/// The sum of the bytes modulo 256.
pub fn byte_sum(bytes: &[u8]) -> u8
    ensures { result ≡ sum bytes.now % 256 }
{
    let mut total = 0u8;
    for byte in bytes {
        total = total.wrapping_add(*byte);
    }
    total
}

/// The checksum byte of a record: it makes the sum of the record's bytes 0 modulo 256 (TIS OMF 1.1, "Object record format").
/// The contents have at most 65,534 bytes.
pub fn checksum(kind: u8, body: &[u8]) -> u8
    requires { length body.now ≤ 65534 }
    ensures balanced { sum (raw_bytes (record { kind = kind; body = body.now; checksum = result })) % 256 ≡ 0 }
    ensures same { result ≡ checksum_of kind body.now }
{
    let [low, high] = ((body.len() + 1) as u16).to_le_bytes();
    let front = kind.wrapping_add(low).wrapping_add(high);
    front.wrapping_add(byte_sum(body)).wrapping_neg()
}
