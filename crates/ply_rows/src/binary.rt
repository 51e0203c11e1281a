//! The values of binary bodies: their sizes, integers, and fields by size.

ghost use Rattle.std.specs.Prelude.{◌≡◌, ◌+◌, ◌≤◌, length, drop, IfOk, IfSome};
ghost use Rattle.ply_head.specs.Readable.{HasWholeCount};
ghost use Rattle.ply_head.specs.Kinds.{endian_of, IsBinary};
ghost use Rattle.ply_rows.specs.Texts.{Gives};
ghost use Rattle.ply_rows.specs.Binaries.{size_of, IsWhole, is_signed, signed_if, number_of, bytes_of, binary_field};
ghost use Rattle.ply_rows.specs.Readers.{IsInside, IsSized};

use crate::place::{Field, Place};
use crate::refusal::RowRefusal;
use crate::text::count_of_number;
use byteorder::{BigEndian, ByteOrder, LittleEndian};
use ply_head::{Endian, Kind, Scalar, Shape};

/// Returns the size of a value of this type in a binary body, in bytes.
pub fn size(scalar: Scalar) -> usize
    ensures value { result ≡ size_of scalar }
    ensures small { result ≤ 8 }
{
    match scalar {
        Scalar::Char | Scalar::Uchar => 1,
        Scalar::Short | Scalar::Ushort => 2,
        Scalar::Int | Scalar::Uint | Scalar::Float => 4,
        Scalar::Double => 8,
    }
}

/// Returns the integer with these bytes in this order.
fn number_in<Order: ByteOrder>(scalar: Scalar, bytes: &[u8]) -> i64
    requires whole { IsWhole scalar }
    requires size { length bytes.now ≡ size_of scalar }
    ensures { result ≡ signed_if (is_signed scalar) (size_of scalar) (Order.number_of (size_of scalar) bytes.now) }
{
    match scalar {
        Scalar::Char => i64::from(Order::read_int(bytes, 1)),
        Scalar::Uchar => Order::read_uint(bytes, 1) as i64,
        Scalar::Short => i64::from(Order::read_i16(bytes)),
        Scalar::Ushort => i64::from(Order::read_u16(bytes)),
        Scalar::Int => i64::from(Order::read_i32(bytes)),
        Scalar::Uint => i64::from(Order::read_u32(bytes)),
        Scalar::Float | Scalar::Double => unreachable!(),
    }
}

/// Returns the integer with a value's bytes in a byte order.
fn whole_in_order(order: Endian, scalar: Scalar, bytes: &[u8]) -> i64
    requires whole { IsWhole scalar }
    requires size { length bytes.now ≡ size_of scalar }
    ensures { result ≡ number_of order scalar bytes.now }
{
    match order {
        Endian::Little => number_in::<LittleEndian>(scalar, bytes),
        Endian::Big => number_in::<BigEndian>(scalar, bytes),
    }
}

/// Returns the integer with a value's bytes in a binary body of this kind, in two's complement if its type is signed.
pub fn binary_whole(kind: Kind, scalar: Scalar, bytes: &[u8]) -> i64
    requires binary { IsBinary kind }
    requires whole { IsWhole scalar }
    requires size { length bytes.now ≡ size_of scalar }
    ensures { IfSome (endian_of kind) (λ order. result ≡ number_of order scalar bytes.now) }
{
    match kind {
        Kind::Ascii => unreachable!(),
        Kind::BinaryLittle => whole_in_order(Endian::Little, scalar, bytes),
        Kind::BinaryBig => whole_in_order(Endian::Big, scalar, bytes),
    }
}

/// Returns this number of bytes from an offset on, and the offset after them.
fn bytes_from(
    body: &[u8],
    at: Place,
    size: usize,
    place: usize,
) -> Result<(&[u8], usize), RowRefusal>
    requires { place ≤ length body.now }
    ensures most { IfOk result (λ read. read.1 ≤ length body.now) }
    ensures length { IfOk result (λ read. length read.0.now ≡ size) }
    ensures place { IfOk result (λ read. read.1 ≡ place + size) }
    ensures bytes { Gives (λ read. (read.0.now, drop read.1 body.now)) result (bytes_of at size (drop place body.now)) }
{
    if body.len() - place < size {
        return Err(RowRefusal::Cut(at));
    }
    let end = place + size;
    Ok((&body[place..end], end))
}

/// Returns the field of a property in a binary body, and the offset after it.
#[tactic(auto, unfolding(crate::specs::Binaries::binary_field))]
pub(crate) fn read_binary_field(
    order: Endian,
    body: &[u8],
    at: Place,
    shape: Shape,
    place: usize,
) -> Result<(Field, usize), RowRefusal>
    requires place { place ≤ length body.now }
    requires count { HasWholeCount shape }
    ensures most { IfOk result (λ read. read.1 ≤ length body.now) }
    ensures inside { IfOk result (λ read. IsInside body.now read.0) }
    ensures size { IfOk result (λ read. IsSized shape read.0) }
    ensures field { Gives (λ read. (read.0, (read.1, drop read.1 body.now))) result (binary_field order at shape (place, drop place body.now)) }
{
    match shape {
        Shape::One(scalar) => {
            let (_, end) = bytes_from(body, at, size(scalar), place)?;
            let field = Field {
                place,
                size: size(scalar),
                items: 1,
            };
            Ok((field, end))
        }
        Shape::Many { count, item } => {
            let (bytes, start) = bytes_from(body, at, size(count), place)?;
            let items = count_of_number(whole_in_order(order, count, bytes), at)?;
            let all = items as usize * size(item);
            let (_, end) = bytes_from(body, at, all, start)?;
            let field = Field {
                place: if items > 0 { start } else { 0 },
                size: all,
                items,
            };
            Ok((field, end))
        }
    }
}
