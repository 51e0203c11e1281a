//! The rows of a certificate, of three kinds. Lists of any kind are printed and read by this trait.

ghost use Rattle.std.specs.Prelude.{◌≡◌, ◌++◌, List, ℕ, IfSome, IfNone, OnOk, OnErr, length, take};
ghost use Rattle.line_text.specs.Numbers.{BeginsWithNone};
ghost use Rattle.certificate.specs.Rows.{IsCellRow, IsFlowRow, IsSinkRow};
ghost use Rattle.cert_text.specs.Texts.{inside_word, flow_word, sink_word, cell_line, flow_line, sink_line};

use crate::fields::{amount_first, cell_first, push_cell, push_facet};
use crate::words::{flow, inside, sink};
use crate::{FlowRow, NoMemory, SinkRow};
use line_text::{facet_first, push_number};

/// A row of one of a certificate's three lists: an inside cell, a [`FlowRow`] or a [`SinkRow`].
pub trait Row: Copy {
    // The invariant of the row in a well-formed certificate.
    ghost is_row: { Self → Type 0 };

    // Its line.
    ghost line: { Self → List ℕ };

    // The numbers by which the rows of its list ascend.
    ghost key: { Self → List ℕ };

    // The text before the length of its list.
    ghost word: { List ℕ };

    /// Returns that text.
    fn word() -> &'static [u8]
        ensures { result.now ≡ word };

    /// Returns the row whose line is at the start of a text, and the text after it, or `None` if there is no such line.
    fn first(text: &[u8]) -> Option<(Self, &[u8])>
        ensures some { IfSome result (λ read. is_row read.0 × (text.now ≡ line read.0 ++ read.1.now)) }
        ensures none { IfNone result (BeginsWithNone is_row line text.now) };

    /// Appends its line. After `NoMemory` the previous bytes of `out` are still at its start, and more may follow.
    fn push(self, out: &mut Vec<u8>) -> Result<(), NoMemory>
        ensures ok { OnOk result (out.new.items ≡ out.old.items ++ line self) }
        ensures kept { OnErr result (take (length out.old.items) out.new.items ≡ out.old.items) };

    /// Returns the numbers by which it is sorted.
    fn key(&self) -> &[u32]
        ensures { result.now ≡ key self.now };
}

impl Row for [u32; 4] {
    ghost is_row = { IsCellRow };

    ghost line = { cell_line };

    ghost key = { λ cell. cell };

    ghost word = { inside_word };

    fn word() -> &'static [u8] {
        inside()
    }

    fn first(text: &[u8]) -> Option<([u32; 4], &[u8])> {
        cell_first(text, b'\n')
    }

    fn push(self, out: &mut Vec<u8>) -> Result<(), NoMemory> {
        push_cell(out, self, b'\n')
    }

    fn key(&self) -> &[u32] {
        self
    }
}

impl Row for FlowRow {
    ghost is_row = { IsFlowRow };

    ghost line = { flow_line };

    ghost key = { λ row. row.facet };

    ghost word = { flow_word };

    fn word() -> &'static [u8] {
        flow()
    }

    fn first(text: &[u8]) -> Option<(FlowRow, &[u8])> {
        let (facet, rest) = facet_first(text, b' ')?;
        let (amount, rest) = amount_first(rest)?;
        Some((FlowRow { facet, amount }, rest))
    }

    fn push(self, out: &mut Vec<u8>) -> Result<(), NoMemory> {
        push_facet(out, self.facet)?;
        push_number(out, self.amount, b'\n')?;
        Ok(())
    }

    fn key(&self) -> &[u32] {
        &self.facet
    }
}

impl Row for SinkRow {
    ghost is_row = { IsSinkRow };

    ghost line = { sink_line };

    ghost key = { λ row. row.cell };

    ghost word = { sink_word };

    fn word() -> &'static [u8] {
        sink()
    }

    fn first(text: &[u8]) -> Option<(SinkRow, &[u8])> {
        let (cell, rest) = cell_first(text, b' ')?;
        let (amount, rest) = amount_first(rest)?;
        Some((SinkRow { cell, amount }, rest))
    }

    fn push(self, out: &mut Vec<u8>) -> Result<(), NoMemory> {
        push_cell(out, self.cell, b' ')?;
        push_number(out, self.amount, b'\n')?;
        Ok(())
    }

    fn key(&self) -> &[u32] {
        &self.cell
    }
}
