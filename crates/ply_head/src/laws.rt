//! Properties of headers and their texts. The functions here do nothing: their contracts are theorems.

ghost use Rattle.std.specs.Prelude.{◌≡◌, ◌↔◌, ◌++◌, ℕ, List, Ok};
ghost use Rattle.ply_head.specs.declared.header.Header.{Header};
ghost use Rattle.ply_head.specs.Headers.{header_of};
ghost use Rattle.ply_head.specs.Grammar.{HasHeader};
ghost use Rattle.ply_head.specs.Readable.{IsReadable, KeepsLimits};
ghost use Rattle.ply_head.specs.Spelling.{spelling};

/// Characterises the results of [`read_head`](crate::read_head) in the format's own terms: a header and a body are read from a
/// text exactly if the text is lines that state the header, one after another, and then the body. Each header that a text has
/// is readable: its names are visible ASCII, no two elements have the same name, nor do two properties of an element, and the
/// counts of lists have integer types. For callers that need to know which files have a header, independently of how they are
/// read.
pub fn texts_with_headers_are_read()
    ensures exactly { (bytes : List ℕ) (head : Header) (body : List ℕ) → (header_of bytes ≡ Ok (head, body)) ↔ HasHeader bytes head body }
    ensures readable { (bytes : List ℕ) (head : Header) (body : List ℕ) → HasHeader bytes head body → IsReadable head }
{}

/// The text that [`push_head`](crate::push_head) prints has the printed header, whatever body follows, if the header is
/// readable and its printed lines keep the limits. Each header that was read is readable. For callers that write a file and
/// read it again.
pub fn printed_headers_are_read()
    ensures readable { (head : Header) (body : List ℕ) → IsReadable head → KeepsLimits head → header_of (spelling head ++ body) ≡ Ok (head, body) }
    ensures again { (bytes : List ℕ) (head : Header) (body other : List ℕ) → header_of bytes ≡ Ok (head, body) → KeepsLimits head → header_of (spelling head ++ other) ≡ Ok (head, other) }
{}
