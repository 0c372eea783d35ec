//! Words, four-byte numbers and points, as records hold them: the most significant byte first.

ghost use Rattle.std.specs.Prelude.{◌≡◌, length};
ghost use Rattle.gds_record.specs.Numbers.{word_of, number_of, point_of, IsStored};

use fill_base::Point;

/// The unsigned number of two bytes.
pub fn word(bytes: &[u8]) -> u16
    requires { length bytes.now ≡ 2 }
    ensures { result ≡ word_of bytes.now }
{
    u16::from_be_bytes([bytes[0], bytes[1]])
}

/// The signed number of four bytes, in two's complement.
pub fn number(bytes: &[u8]) -> i32
    requires { length bytes.now ≡ 4 }
    ensures { result ≡ number_of bytes.now }
{
    i32::from_be_bytes([bytes[0], bytes[1], bytes[2], bytes[3]])
}

/// The point of eight bytes: four of x, then four of y, in database units.
pub fn point(bytes: &[u8]) -> Point
    requires { length bytes.now ≡ 8 }
    ensures value { result ≡ point_of bytes.now }
    ensures stored { IsStored result }
{
    let (x, y) = bytes.split_at(4);
    Point {
        x: i64::from(number(x)),
        y: i64::from(number(y)),
    }
}
