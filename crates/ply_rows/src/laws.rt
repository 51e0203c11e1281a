//! Properties of bodies and their rows. The function here does nothing: its contract is the theorem.

ghost use Rattle.std.specs.Prelude.{◌≡◌, ◌↔◌, ℕ, List, None};
ghost use Rattle.ply_head.specs.declared.header.Header.{Header};
ghost use Rattle.ply_rows.specs.declared.place.RowAt.{RowAt};
ghost use Rattle.ply_rows.specs.declared.place.Field.{Field};
ghost use Rattle.ply_rows.specs.Bodies.{rows_of};
ghost use Rattle.ply_rows.specs.Grammar.{HasRows};

/// Characterises the output of [`Rows`](crate::Rows) in the format's own terms: the rows of a body are read to their end
/// without an error exactly if the body is a sequence of pieces, one for each property of each row that the header announces,
/// and nothing follows. In a text a piece is one token, or the number of the items and then that number of tokens. In a binary
/// body it is the bytes of one value, or those of the number of the items and then those of the items. For callers that need to
/// know which bodies have rows, independently of how they are read.
pub fn bodies_with_rows_are_read()
    ensures exactly { (head : Header) (body : List ℕ) (rows : List (RowAt × List Field)) → (rows_of head body ≡ record { rows = rows; end = None }) ↔ HasRows head body rows }
{}
