//! Whether an image is still as it was given.

ghost use Rattle.std.specs.Prelude.{◌≡◌, ◌↔◌, IsTrue};
ghost use Rattle.sha2.specs.Sha256.{sha256};
ghost use Rattle.rd_protocol.specs.Checks.{outcome_of};

use rd_holdings::Outcome;
use sha2::{Digest, Sha256};

/// Whether bytes have this SHA-256.
pub fn has_digest(bytes: &[u8], digest: &[u8; 32]) -> bool
    ensures { IsTrue result ↔ (sha256 bytes.now ≡ digest.now) }
{
    Sha256::digest(bytes) == *digest
}

/// What a check finds, from the bytes of an image and the digest given for them: `Sound` exactly
/// when the digest is the SHA-256 of the bytes (FIPS 180-4), and otherwise `Changed`. It takes no
/// memory.
pub fn check_row(bytes: &[u8], digest: &[u8; 32]) -> Outcome
    ensures sound { (result ≡ Outcome.Sound) ↔ (sha256 bytes.now ≡ digest.now) }
    ensures outcome { result ≡ outcome_of bytes.now digest.now }
{
    if has_digest(bytes, digest) {
        Outcome::Sound
    } else {
        Outcome::Changed
    }
}
