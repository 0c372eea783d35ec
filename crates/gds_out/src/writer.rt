//! Records that are written one behind another.

ghost use Rattle.std.specs.Prelude.{◌≡◌, ◌≤◌, ◌++◌, ◌∷◌, [], map, length, FitsSigned, OnOk, All};
ghost use Rattle.std.specs.Int.{w32};
ghost use Rattle.gds_record.specs.Records.{IsEven};
ghost use Rattle.gds_record.specs.Numbers.{IsStored};
ghost use Rattle.gds_out.specs.FillText.{rec, word_bytes, number_bytes, point_bytes, points_bytes, coordinates, padded};

use fill_base::Point;
use gds_record::{form, kind, put_record};
use std::alloc::{AllocError, Global};

/// A text of records, and room for the data of the one that is written.
#[derive(Drop)]
pub(crate) struct Writer {
    pub(crate) text: Vec<u8>,
    body: Vec<u8>,
}

/// The four bytes of a number.
fn number(z: i64) -> [u8; 4]
    requires { FitsSigned w32 z }
    ensures { result ≡ number_bytes z }
{
    (z as i32).to_be_bytes()
}

/// Appends the eight bytes of a point.
fn put_point(bytes: &mut Vec<u8>, point: Point) -> Result<(), AllocError>
    requires { IsStored point }
    ensures { OnOk result (bytes.new.items ≡ bytes.old.items ++ point_bytes (point.x, point.y)) }
{
    bytes.extend_from_slice(&number(point.x))?;
    bytes.extend_from_slice(&number(point.y))?;
    Ok(())
}

impl Writer {
    ghost use Rattle.gds_out.specs.steps.Writing.{Adds};

    /// No record yet.
    pub(crate) fn new(alloc: Global) -> Writer
        ensures { result.text.items ≡ [] }
    {
        Writer {
            text: Vec::new(alloc),
            body: Vec::new(alloc),
        }
    }

    /// Writes a record with this data.
    pub(crate) fn put(&mut self, kind: u8, form: u8, body: &[u8]) -> Result<(), AllocError>
        requires short { length body.now ≤ 65530 }
        requires even { IsEven (length body.now) }
        ensures { OnOk result (Adds self.old self.new (rec kind form body.now ∷ [])) }
    {
        put_record(&mut self.text, kind, form, body)
    }

    /// Writes a record of one word.
    pub(crate) fn put_word(&mut self, kind: u8, word: u16) -> Result<(), AllocError>
        ensures { OnOk result (Adds self.old self.new (rec kind 0x02 (word_bytes word) ∷ [])) }
    {
        self.put(kind, form::WORDS, &word.to_be_bytes())
    }

    /// Writes a record of two words.
    pub(crate) fn put_words(&mut self, kind: u8, a: u16, b: u16) -> Result<(), AllocError>
        ensures { OnOk result (Adds self.old self.new (rec kind 0x02 (word_bytes a ++ word_bytes b) ∷ [])) }
    {
        self.body.clear();
        self.body.extend_from_slice(&a.to_be_bytes())?;
        self.body.extend_from_slice(&b.to_be_bytes())?;
        put_record(&mut self.text, kind, form::WORDS, &self.body)
    }

    /// Writes a record of a name, with a zero byte behind it where its length is odd.
    pub(crate) fn put_name(&mut self, kind: u8, name: &[u8]) -> Result<(), AllocError>
        requires { length name.now ≤ 32 }
        ensures { OnOk result (Adds self.old self.new (rec kind 0x06 (padded name.now) ∷ [])) }
    {
        self.body.clear();
        self.body.extend_from_slice(name)?;
        if name.len() % 2 != 0 {
            self.body.push(0)?;
        }
        put_record(&mut self.text, kind, form::TEXT, &self.body)
    }

    /// Writes the points of an element.
    pub(crate) fn put_points(&mut self, points: &[Point]) -> Result<(), AllocError>
        requires few { length points.now ≤ 8191 }
        requires stored { All IsStored points.now }
        ensures { OnOk result (Adds self.old self.new (rec 0x10 0x03 (points_bytes (map coordinates points.now)) ∷ [])) }
    {
        self.body.clear();
        for point in points {
            put_point(&mut self.body, *point)?;
        }
        put_record(&mut self.text, kind::XY, form::NUMBERS, &self.body)
    }
}
