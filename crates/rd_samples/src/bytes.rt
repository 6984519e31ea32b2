//! Bytes of images of any kind.

ghost use Rattle.std.specs.Prelude.{◌≡◌, ◌<◌, ◌≤◌, ◌+◌, length, vec_len, IfOk};
ghost use Rattle.rd_samples.specs.Written.{padded, written};

use rd_geometry::NoMemory;
use std::alloc::Global;

/// Writes bytes over those of an image, from a place on. If not all fit, it writes none.
pub fn put(image: &mut [u8], place: usize, bytes: &[u8])
    ensures value { place + length bytes.now ≤ length image.old
        → image.new ≡ written image.old place bytes.now }
    ensures kept { length image.old < place + length bytes.now → image.new ≡ image.old }
    ensures sized { length image.new ≡ length image.old }
{
    if place <= image.len() && bytes.len() <= image.len() - place {
        image[place..place + bytes.len()].copy_from_slice(bytes);
    }
}

/// An array of the first `N` bytes, with a pad for each missing one.
pub fn padded<const N: usize>(bytes: &[u8], pad: u8) -> [u8; N]
    ensures { result ≡ padded N pad bytes.now }
{
    let mut array = [pad; N];
    put(&mut array, 0, &bytes[..bytes.len().min(N)]);
    array
}

/// An array of bytes that distinguish a part of an image from every other: its number, and then
/// the remainder of the number divided by 251.
pub(crate) fn numbered<const N: usize>(number: u16) -> [u8; N] {
    let mut array = [(number % 251) as u8; N];
    put(&mut array, 0, &[(number / 256) as u8, (number % 256) as u8]);
    array
}

/// So many bytes, all 0.
pub(crate) fn zeroed(alloc: Global, count: usize) -> Result<Vec<u8>, NoMemory>
    ensures { IfOk result (λ bytes. vec_len bytes ≡ count) }
{
    Ok(vec![in alloc; 0; count]?)
}
