//! Why a text is not a certificate.

ghost use Rattle.std.specs.Prelude.{◌≡◌};
ghost use Rattle.cert_text.specs.Refusals.{cert_refusal};

use line_text::LineRefusal;
use thiserror::Error;

/// Why bytes are not the text of a certificate. Lines are counted from 1.
#[derive(Clone, Copy, Debug, PartialEq, Eq, Drop, Error)]
pub enum CertRefusal {
    /// The line is invalid, or it begins after the last line.
    #[error("line {0} is not of its form")]
    BadLine(u64),
    /// The line is valid, but its row is not above the row before it.
    #[error("line {0} is out of order")]
    Order(u64),
    /// The bytes end before the end of an expected line.
    #[error("the certificate is cut")]
    CertCut,
    /// Out of memory.
    #[error("out of memory")]
    NoMemory,
}

/// Converts the error of a line to one of a certificate.
pub fn refusal_of_cert(refusal: LineRefusal) -> CertRefusal
    ensures { result ≡ cert_refusal refusal }
{
    match refusal {
        LineRefusal::BadLine(line) => CertRefusal::BadLine(line),
        LineRefusal::Order(line) => CertRefusal::Order(line),
        LineRefusal::Cut => CertRefusal::CertCut,
        LineRefusal::NoMemory => CertRefusal::NoMemory,
    }
}
