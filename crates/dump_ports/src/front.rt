ghost use Rattle.std.specs.Prelude.{◌≡◌, length, take, min};

/// Moves the first bytes to the front of a buffer, as many as both hold and at most a number of them, and says how
/// many.
pub fn fill_front(bytes: &[u8], most: usize, buffer: &mut [u8]) -> usize
    ensures count { result ≡ min most (min (length bytes.now) (length buffer.old)) }
    ensures filled { take result buffer.new ≡ take result bytes.now }
{
    let n = most.min(bytes.len().min(buffer.len()));
    buffer[..n].copy_from_slice(&bytes[..n]);
    n
}
