ghost use Rattle.std.specs.Prelude.{◌≡◌, ◌≢◌, ◌+◌, ◌<◌, ◌≤◌, ◌⊎◌, ℕ, List, length, slice_range};

/// A disk whose image holds units of one length, each at a place of its own. Units are numbered
/// from 0.
pub trait Geometry<'a> {
    /// The bytes of the image.
    ghost image_bytes: { Self → List ℕ };

    /// How many units the disk has.
    ghost unit_count: { Self → ℕ };

    /// How many bytes a unit has.
    ghost unit_length: { Self → ℕ };

    /// The byte of the image at which a unit begins.
    ghost place_of: { Self → ℕ → ℕ };

    /// How many units the disk has.
    fn units(&self) -> u16
        ensures { result ≡ unit_count self.now };

    /// How many bytes a unit has.
    fn unit_len(&self) -> usize
        ensures { result ≡ unit_length self.now };

    /// The byte of the image at which unit `n` begins.
    fn place(&self, n: u16) -> usize
        requires { n < unit_count self.now }
        ensures { result ≡ place_of self.now n };

    /// The bytes of unit `n`, as a slice of the image.
    fn unit(&self, n: u16) -> &'a [u8]
        requires { n < unit_count self.now }
        ensures value { let start = place_of self.now n in
            result.now ≡ slice_range (image_bytes self.now) start (start + unit_length self.now) }
        ensures sized { length result.now ≡ unit_length self.now };

    /// Each unit lies in the image.
    ghost inside: { (disk : Self) (n : ℕ) → n < unit_count disk
        → place_of disk n + unit_length disk ≤ length (image_bytes disk) };

    /// Two different units never overlap: one ends before the other begins.
    ghost apart: { (disk : Self) (m n : ℕ) → m < unit_count disk → n < unit_count disk → m ≢ n
        → (place_of disk m + unit_length disk ≤ place_of disk n)
        ⊎ (place_of disk n + unit_length disk ≤ place_of disk m) };
}
