//! The parts of a header: the kind of its body, and the elements with the properties of their rows. `Name`, `Properties` and
//! `Elements` are vectors that contracts see as lists.

ghost use Rattle.std.specs.Prelude.{◌≡◌, ◌<◌, ◌^◌, ◌++◌, ◌∷◌, [], length, OnOk, OnErr, IfOk, IfSome, IfNone};
ghost use Rattle.std.specs.Iterator.Adapters.{IterYieldsInOrder};
ghost use Rattle.std.specs.Slice.Iter.{iter_rest};
ghost use Rattle.ply_head.specs.declared.header.Element.{Element};
ghost use Rattle.ply_head.specs.declared.header.Property.{Property};
ghost use Rattle.ply_head.specs.Kinds.{endian_of};

use std::alloc::{AllocError, Global};
use std::marker::Model;
use std::slice;

/// Out of memory.
pub type NoMemory = AllocError;

/// The byte order of numbers.
#[derive(Clone, Copy, Debug, PartialEq, Eq)]
pub enum Endian {
    /// The least significant first.
    Little,
    /// The most significant first.
    Big,
}

/// How a body encodes its values.
#[derive(Clone, Copy, Debug, PartialEq, Eq)]
pub enum Kind {
    /// Text: tokens between white space.
    Ascii,
    /// Binary, the least significant byte of a number first.
    BinaryLittle,
    /// Binary, the most significant byte of a number first.
    BinaryBig,
}

impl Kind {
    /// Returns the byte order of a binary body, or `None` for a text body.
    pub fn endian(self) -> Option<Endian>
        ensures { result ≡ endian_of self }
    {
        match self {
            Kind::Ascii => None,
            Kind::BinaryLittle => Some(Endian::Little),
            Kind::BinaryBig => Some(Endian::Big),
        }
    }
}

/// The type of a value. In a binary body a value has its type's size.
#[derive(Clone, Copy, Debug, PartialEq, Eq)]
pub enum Scalar {
    /// A signed one-byte integer: `char` or `int8`.
    Char,
    /// An unsigned one-byte integer: `uchar` or `uint8`.
    Uchar,
    /// A signed two-byte integer: `short` or `int16`.
    Short,
    /// An unsigned two-byte integer: `ushort` or `uint16`.
    Ushort,
    /// A signed four-byte integer: `int` or `int32`.
    Int,
    /// An unsigned four-byte integer: `uint` or `uint32`.
    Uint,
    /// A four-byte floating-point number: `float` or `float32`.
    Float,
    /// An eight-byte floating-point number: `double` or `float64`.
    Double,
}

/// The content of a property in each row.
#[derive(Clone, Copy, Debug, PartialEq, Eq)]
pub enum Shape {
    /// One value.
    One(Scalar),
    /// A list: the number of its items, and then the items.
    Many {
        /// The type of the number of items. In a header that is read it is an integer type.
        count: Scalar,
        /// The type of each item.
        item: Scalar,
    },
}

/// A name, seen as the list of its bytes. In a header that is read it has at least one byte,
/// and each is a visible ASCII character.
#[derive(Debug, Drop)]
pub struct Name {
    bytes: Vec<u8>,
}

impl Model for Name {
    ghost use Rattle.std.specs.Prelude.{List, ℕ};

    ghost Value = { List ℕ };

    ghost view = { λ name. name.bytes.items };
}

impl Name {
    /// Returns the name of these bytes.
    pub fn from_vec(bytes: Vec<u8>) -> Name
        ensures { result ≡ bytes.items }
    {
        Name { bytes }
    }

    /// Returns the name of a copy of these bytes.
    pub fn from_slice(alloc: Global, bytes: &[u8]) -> Result<Name, NoMemory>
        ensures { IfOk result (λ name. name ≡ bytes.now) }
    {
        Ok(Name {
            bytes: Vec::from_slice(alloc, bytes)?,
        })
    }

    /// Returns the name's bytes.
    pub fn as_slice(&self) -> &[u8]
        ensures { result.now ≡ self.now }
    {
        self.bytes.as_slice()
    }

    /// Returns the name's bytes, without a copy.
    pub fn into_vec(self) -> Vec<u8>
        ensures { result.items ≡ self }
    {
        self.bytes
    }
}

/// A property: a value, or a list of values, in each row of an element.
#[derive(Debug, Drop)]
pub struct Property {
    /// Its name, which no other property of the same element has.
    pub name: Name,
    /// Its content.
    pub shape: Shape,
}

/// Properties in the order of their lines, seen as a list.
#[derive(Debug, Drop)]
pub struct Properties {
    items: Vec<Property>,
}

impl Model for Properties {
    ghost use Rattle.std.specs.Prelude.{List};
    ghost use Rattle.ply_head.specs.declared.header.Property.{Property};

    ghost Value = { List Property };

    ghost view = { λ properties. properties.items.items };
}

impl Properties {
    /// Returns an empty list of properties.
    pub fn new(alloc: Global) -> Properties
        ensures { result ≡ [] }
    {
        Properties {
            items: Vec::new(alloc),
        }
    }

    /// Returns the list of these properties.
    pub fn from_vec(items: Vec<Property>) -> Properties
        ensures { result ≡ items.items }
    {
        Properties { items }
    }

    /// Returns the properties in order.
    pub fn as_slice(&self) -> &[Property]
        ensures { result.now ≡ self.now }
    {
        self.items.as_slice()
    }

    /// Returns an iterator over the properties in order.
    pub fn iter(&self) -> slice::Iter<'_, Property>
        ensures rest { iter_rest result ≡ self.now }
        ensures fits { length (iter_rest result) < 2 ^ 64 }
        ensures in_order { IterYieldsInOrder Property }
    {
        self.items.iter()
    }

    /// Returns the properties in order, without a copy.
    pub fn into_vec(self) -> Vec<Property>
        ensures { result.items ≡ self }
    {
        self.items
    }

    /// Appends a property. After `NoMemory` the list is unchanged.
    pub fn push(&mut self, property: Property) -> Result<(), NoMemory>
        ensures added { OnOk result (self.new ≡ self.old ++ property ∷ []) }
        ensures kept { OnErr result (self.new ≡ self.old) }
    {
        self.items.push(property)?;
        Ok(())
    }
}

impl<'a> IntoIterator for &'a Properties {
    type Item = &'a Property;

    type IntoIter = slice::Iter<'a, Property>;

    ghost into_iter_gives = { λ properties items. (iter_rest items ≡ properties.now) × (length (iter_rest items) < 2 ^ 64) × IterYieldsInOrder Property };

    fn into_iter(self) -> slice::Iter<'a, Property> {
        self.iter()
    }
}

/// An element: a table of rows with the same properties.
#[derive(Debug, Drop)]
pub struct Element {
    /// Its name, which no other element of the header has.
    pub name: Name,
    /// The number of its rows in the body.
    pub count: u32,
    /// The properties of each row, in order.
    pub properties: Properties,
}

/// Elements in the order of their lines, seen as a list.
#[derive(Debug, Drop)]
pub struct Elements {
    items: Vec<Element>,
}

impl Model for Elements {
    ghost use Rattle.std.specs.Prelude.{List};
    ghost use Rattle.ply_head.specs.declared.header.Element.{Element};

    ghost Value = { List Element };

    ghost view = { λ elements. elements.items.items };
}

impl Elements {
    /// Returns an empty list of elements.
    pub fn new(alloc: Global) -> Elements
        ensures { result ≡ [] }
    {
        Elements {
            items: Vec::new(alloc),
        }
    }

    /// Returns the list of these elements.
    pub fn from_vec(items: Vec<Element>) -> Elements
        ensures { result ≡ items.items }
    {
        Elements { items }
    }

    /// Returns the elements in order.
    pub fn as_slice(&self) -> &[Element]
        ensures { result.now ≡ self.now }
    {
        self.items.as_slice()
    }

    /// Returns an iterator over the elements in order.
    pub fn iter(&self) -> slice::Iter<'_, Element>
        ensures rest { iter_rest result ≡ self.now }
        ensures fits { length (iter_rest result) < 2 ^ 64 }
        ensures in_order { IterYieldsInOrder Element }
    {
        self.items.iter()
    }

    /// Returns the elements in order, without a copy.
    pub fn into_vec(self) -> Vec<Element>
        ensures { result.items ≡ self }
    {
        self.items
    }

    /// Appends an element. After `NoMemory` the list is unchanged.
    pub fn push(&mut self, element: Element) -> Result<(), NoMemory>
        ensures added { OnOk result (self.new ≡ self.old ++ element ∷ []) }
        ensures kept { OnErr result (self.new ≡ self.old) }
    {
        self.items.push(element)?;
        Ok(())
    }

    /// Removes the last element.
    pub(crate) fn pop(&mut self) -> Option<Element>
        ensures some { IfSome result (λ element. self.old ≡ self.new ++ element ∷ []) }
        ensures none { IfNone result (self.old ≡ []) }
    {
        self.items.pop()
    }
}

impl<'a> IntoIterator for &'a Elements {
    type Item = &'a Element;

    type IntoIter = slice::Iter<'a, Element>;

    ghost into_iter_gives = { λ elements items. (iter_rest items ≡ elements.now) × (length (iter_rest items) < 2 ^ 64) × IterYieldsInOrder Element };

    fn into_iter(self) -> slice::Iter<'a, Element> {
        self.iter()
    }
}

/// A header: the kind of the body, and its elements in the order of their rows.
#[derive(Debug, Drop)]
pub struct Header {
    /// How the body encodes its values.
    pub kind: Kind,
    /// The elements, whose rows follow each other in this order.
    pub elements: Elements,
}
