//! Theorems of certificates and their texts. The function here does nothing: its contract is the theorem.

ghost use Rattle.std.specs.Prelude.{◌≡◌, ◌++◌, [], ℕ, List};
ghost use Rattle.certificate.specs.Certificates.{Claim, IsWellFormed};
ghost use Rattle.cert_text.specs.Texts.{cert_text};

/// No text belongs to two well-formed certificates, and none is a proper prefix of another. For callers that compare
/// certificates by their bytes, or find one at the start of a longer text.
pub fn certificate_texts_are_distinct()
    ensures one_certificate { (c d : Claim) → IsWellFormed c → IsWellFormed d → cert_text c ≡ cert_text d → c ≡ d }
    ensures no_prefix { (c d : Claim) (rest : List ℕ) → IsWellFormed c → IsWellFormed d → cert_text c ++ rest ≡ cert_text d → rest ≡ [] }
{}
