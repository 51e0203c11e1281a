//! Digests as hexadecimal digits. Depends on `hex`.

ghost use Rattle.std.specs.Prelude.{◌≡◌, List, ℕ, IfSome, IfNone};
ghost use Rattle.hex.specs.Hex.{encode_lower};
ghost use Rattle.certificate.specs.Stamps.{IsDigest};

use hex::{FromHex, encode_to_slice};

/// Returns the 64 digits of a digest, letters in lower case.
pub fn digits_of(digest: &[u8; 32]) -> [u8; 64]
    ensures { result ≡ encode_lower digest.now }
{
    let mut digits = [0u8; 64];
    match encode_to_slice(digest.as_slice(), &mut digits) {
        Ok(()) => digits,
        // The buffer has two digits for each byte.
        Err(_) => unreachable!(),
    }
}

/// Returns the digest with these digits. `hex` also reads upper-case letters, so the digits are printed again and compared.
pub fn digest_of(token: &[u8]) -> Option<[u8; 32]>
    ensures some { IfSome result (λ digest. IsDigest digest × (token.now ≡ encode_lower digest)) }
    ensures none { IfNone result ((digest : List ℕ) → IsDigest digest → ¬ (token.now ≡ encode_lower digest)) }
{
    let digest = match <[u8; 32] as FromHex>::from_hex(token) {
        Ok(digest) => digest,
        Err(_) => return None,
    };
    let digits = digits_of(&digest);
    if token == digits.as_slice() {
        Some(digest)
    } else {
        None
    }
}
