//! Prints a header in its canonical spelling: one space between words, each line ended by LF, types by the first of their
//! names, counts without leading zeros.

ghost use Rattle.std.specs.Prelude.{◌≡◌, ◌++◌, ◌∷◌, [], map, OnOk, OnErr, IfOk};
ghost use Rattle.std.specs.List.{flat_map};
ghost use Rattle.ply_head.specs.Spelling.{joined, kind_name, scalar_name, format_text, element_text, shape_text, property_text, element_lines, spelling};

use crate::header::{Element, Header, Kind, NoMemory, Property, Scalar, Shape};
use num_text::push_whole;
use std::alloc::Global;

fn kind_word(kind: Kind) -> &'static [u8]
    ensures { result.now ≡ kind_name kind }
{
    match kind {
        Kind::Ascii => b"ascii",
        Kind::BinaryLittle => b"binary_little_endian",
        Kind::BinaryBig => b"binary_big_endian",
    }
}

fn scalar_word(scalar: Scalar) -> &'static [u8]
    ensures { result.now ≡ scalar_name scalar }
{
    match scalar {
        Scalar::Char => b"char",
        Scalar::Uchar => b"uchar",
        Scalar::Short => b"short",
        Scalar::Ushort => b"ushort",
        Scalar::Int => b"int",
        Scalar::Uint => b"uint",
        Scalar::Float => b"float",
        Scalar::Double => b"double",
    }
}

/// Appends a word that is not the last of its line.
fn push_word(text: &mut Vec<u8>, word: &[u8]) -> Result<(), NoMemory>
    ensures { OnOk result (text.new.items ≡ text.old.items ++ word.now ++ 32 ∷ []) }
{
    text.extend_from_slice(word)?;
    text.push(b' ')?;
    Ok(())
}

/// Appends the last word of a line, and the line's end.
fn push_last_word(text: &mut Vec<u8>, word: &[u8]) -> Result<(), NoMemory>
    ensures { OnOk result (text.new.items ≡ text.old.items ++ word.now ++ 10 ∷ []) }
{
    text.extend_from_slice(word)?;
    text.push(b'\n')?;
    Ok(())
}

fn push_format(text: &mut Vec<u8>, kind: Kind) -> Result<(), NoMemory>
    ensures { OnOk result (text.new.items ≡ text.old.items ++ (format_text kind ++ 10 ∷ [])) }
{
    push_word(text, b"format")?;
    push_word(text, kind_word(kind))?;
    push_last_word(text, b"1.0")
}

/// Appends the tokens of a property's line that state its shape.
fn push_shape(text: &mut Vec<u8>, shape: Shape) -> Result<(), NoMemory>
    ensures { OnOk result (text.new.items ≡ text.old.items ++ (shape_text shape ++ 32 ∷ [])) }
{
    match shape {
        Shape::One(scalar) => push_word(text, scalar_word(scalar)),
        Shape::Many { count, item } => {
            push_word(text, b"list")?;
            push_word(text, scalar_word(count))?;
            push_word(text, scalar_word(item))
        }
    }
}

fn push_property(text: &mut Vec<u8>, property: &Property) -> Result<(), NoMemory>
    ensures { OnOk result (text.new.items ≡ text.old.items ++ (property_text property.now ++ 10 ∷ [])) }
{
    push_word(text, b"property")?;
    push_shape(text, property.shape)?;
    push_last_word(text, property.name.as_slice())
}

/// Appends the line of an element, without those of its properties.
fn push_element_line(text: &mut Vec<u8>, element: &Element) -> Result<(), NoMemory>
    ensures { OnOk result (text.new.items ≡ text.old.items ++ (element_text element.now.name element.now.count ++ 10 ∷ [])) }
{
    push_word(text, b"element")?;
    push_word(text, element.name.as_slice())?;
    push_whole(text, i128::from(element.count))?;
    text.push(b'\n')?;
    Ok(())
}

fn push_properties(text: &mut Vec<u8>, properties: &[Property]) -> Result<(), NoMemory>
    ensures { OnOk result (text.new.items ≡ text.old.items ++ joined (map property_text properties.now)) }
{
    for property in properties {
        push_property(text, property)?;
    }
    Ok(())
}

fn push_element(text: &mut Vec<u8>, element: &Element) -> Result<(), NoMemory>
    ensures { OnOk result (text.new.items ≡ text.old.items ++ joined (element_lines element.now)) }
{
    push_element_line(text, element)?;
    push_properties(text, element.properties.as_slice())
}

fn push_elements(text: &mut Vec<u8>, elements: &[Element]) -> Result<(), NoMemory>
    ensures { OnOk result (text.new.items ≡ text.old.items ++ joined (flat_map element_lines elements.now)) }
{
    for element in elements {
        push_element(text, element)?;
    }
    Ok(())
}

fn header_text(alloc: Global, head: &Header) -> Result<Vec<u8>, NoMemory>
    ensures { IfOk result (λ text. text.items ≡ spelling head.now) }
{
    let mut text = Vec::from_slice(alloc, b"ply\n")?;
    push_format(&mut text, head.kind)?;
    push_elements(&mut text, head.elements.as_slice())?;
    push_last_word(&mut text, b"end_header")?;
    Ok(text)
}

/// Appends the printed header to `out`: `ply`, the `format` line, each element's line with those of its properties after it,
/// and `end_header`.
///
/// The text is first built separately, with the same allocator, so that after `NoMemory`, `out` is unchanged.
pub fn push_head(out: &mut Vec<u8>, head: &Header) -> Result<(), NoMemory>
    ensures printed { OnOk result (out.new.items ≡ out.old.items ++ spelling head.now) }
    ensures kept { OnErr result (out.new.items ≡ out.old.items) }
{
    let text = header_text(*out.allocator(), head)?;
    out.extend_from_slice(text.as_slice())
}
