//! Parses a single header line, without regard to its position.

ghost use Rattle.std.specs.Prelude.{◌≡◌, [], List, None, Some};
ghost use Rattle.std.specs.Option.{option_map};
ghost use Rattle.std.specs.List.{list_all};
ghost use Rattle.ply_head.specs.Lines.{words_of};
ghost use Rattle.ply_head.specs.Statements.{kind_of, scalar_of, whole_scalar, count_of, name_of, format_line, element_line, property_line, finish_line, statement_of_words, is_name_byte};
ghost use Rattle.ply_head.specs.StatementViews.{statement_view};

use crate::header::{Kind, Scalar, Shape};
use crate::words::{is_either, is_word, next_word};

/// The content of a line.
#[derive(Clone, Copy, Debug)]
pub(crate) enum Statement<'a> {
    /// Nothing: it is skipped.
    Nothing,
    /// How the body encodes its values.
    Format(Kind),
    /// An element: its name and the number of its rows.
    Element(&'a [u8], u32),
    /// A property: its name and shape.
    Property(&'a [u8], Shape),
    /// The header ends.
    Finish,
}

/// Returns the kind of body that a word names.
#[tactic(auto, unfolding(crate::specs::Statements::kind_of))]
fn kind_in(word: &[u8]) -> Option<Kind>
    ensures { result ≡ kind_of word.now }
{
    if is_word(word, b"ascii") {
        Some(Kind::Ascii)
    } else if is_word(word, b"binary_little_endian") {
        Some(Kind::BinaryLittle)
    } else if is_word(word, b"binary_big_endian") {
        Some(Kind::BinaryBig)
    } else {
        None
    }
}

/// Returns the type that a word names.
#[tactic(auto, unfolding(crate::specs::Statements::scalar_of))]
fn scalar_in(word: &[u8]) -> Option<Scalar>
    ensures { result ≡ scalar_of word.now }
{
    if is_either(word, b"char", b"int8") {
        Some(Scalar::Char)
    } else if is_either(word, b"uchar", b"uint8") {
        Some(Scalar::Uchar)
    } else if is_either(word, b"short", b"int16") {
        Some(Scalar::Short)
    } else if is_either(word, b"ushort", b"uint16") {
        Some(Scalar::Ushort)
    } else if is_either(word, b"int", b"int32") {
        Some(Scalar::Int)
    } else if is_either(word, b"uint", b"uint32") {
        Some(Scalar::Uint)
    } else if is_either(word, b"float", b"float32") {
        Some(Scalar::Float)
    } else if is_either(word, b"double", b"float64") {
        Some(Scalar::Double)
    } else {
        None
    }
}

/// Returns a type, if it is an integer type.
fn whole_type(scalar: Scalar) -> Option<Scalar>
    ensures { result ≡ whole_scalar scalar }
{
    match scalar {
        Scalar::Float | Scalar::Double => None,
        _ => Some(scalar),
    }
}

fn may_stand_in_name(byte: u8) -> bool
    ensures { result ≡ is_name_byte byte }
{
    b'!' <= byte && byte <= b'~'
}

fn is_name(word: &[u8]) -> bool
    ensures { result ≡ list_all is_name_byte word.now }
{
    word.iter().all(|byte| may_stand_in_name(*byte))
}

/// Returns the token, if it is a valid name.
#[tactic(auto, unfolding(crate::specs::Statements::name_of))]
fn name_in(word: &[u8]) -> Option<&[u8]>
    ensures { option_map (λ name. name.now) result ≡ name_of word.now }
{
    if is_name(word) { Some(word) } else { None }
}

#[tactic(auto, unfolding(crate::specs::Statements::format_line))]
fn format_words<'a>(line: &'a [u8]) -> Option<Statement<'a>>
    ensures { option_map statement_view result ≡ format_line (words_of line.now) }
{
    let (first, rest) = next_word(line)?;
    let (version, rest) = next_word(rest)?;
    if next_word(rest).is_some() || !is_word(version, b"1.0") {
        return None;
    }
    let kind = kind_in(first)?;
    Some(Statement::Format(kind))
}

#[tactic(auto, unfolding(crate::specs::Statements::element_line))]
fn element_words<'a>(line: &'a [u8]) -> Option<Statement<'a>>
    ensures { option_map statement_view result ≡ element_line (words_of line.now) }
{
    let (first, rest) = next_word(line)?;
    let (second, rest) = next_word(rest)?;
    if next_word(rest).is_some() {
        return None;
    }
    let name = name_in(first)?;
    let count = count_in(second)?;
    Some(Statement::Element(name, count))
}

/// Parses a number of rows: 1 to 10 digits, within 32 bits.
#[tactic(auto, unfolding(crate::specs::Statements::count_of))]
fn count_in(word: &[u8]) -> Option<u32>
    ensures { result ≡ count_of word.now }
{
    if word.is_empty() || word.len() > 10 {
        return None;
    }
    let mut value: u64 = 0;
    for byte in word {
        if *byte < b'0' || b'9' < *byte {
            return None;
        }
        value = value * 10 + (*byte - b'0') as u64;
    }
    if value > u32::MAX as u64 {
        None
    } else {
        Some(value as u32)
    }
}

#[tactic(auto, unfolding(crate::specs::Statements::property_line))]
fn property_words<'a>(line: &'a [u8]) -> Option<Statement<'a>>
    ensures { option_map statement_view result ≡ property_line (words_of line.now) }
{
    let (first, rest) = next_word(line)?;
    let (second, rest) = next_word(rest)?;
    match next_word(rest) {
        None => {
            let scalar = scalar_in(first)?;
            let name = name_in(second)?;
            Some(Statement::Property(name, Shape::One(scalar)))
        }
        Some((third, rest)) => {
            let (fourth, rest) = next_word(rest)?;
            if next_word(rest).is_some() || !is_word(first, b"list") {
                return None;
            }
            let count = scalar_in(second)?;
            let count = whole_type(count)?;
            let item = scalar_in(third)?;
            let name = name_in(fourth)?;
            Some(Statement::Property(name, Shape::Many { count, item }))
        }
    }
}

#[tactic(auto, unfolding(crate::specs::Statements::finish_line))]
fn finish_words<'a>(line: &'a [u8]) -> Option<Statement<'a>>
    ensures { option_map statement_view result ≡ finish_line (words_of line.now) }
{
    if next_word(line).is_some() {
        return None;
    }
    Some(Statement::Finish)
}

/// Returns the content of a line without its end, if it is a valid header line.
#[tactic(auto, unfolding(crate::specs::Statements::statement_of_words))]
pub(crate) fn statement_of<'a>(line: &'a [u8]) -> Option<Statement<'a>>
    ensures { option_map statement_view result ≡ statement_of_words (words_of line.now) }
{
    match next_word(line) {
        None => Some(Statement::Nothing),
        Some((word, rest)) => {
            if is_either(word, b"comment", b"obj_info") {
                Some(Statement::Nothing)
            } else if is_word(word, b"format") {
                format_words(rest)
            } else if is_word(word, b"element") {
                element_words(rest)
            } else if is_word(word, b"property") {
                property_words(rest)
            } else if is_word(word, b"end_header") {
                finish_words(rest)
            } else {
                None
            }
        }
    }
}
