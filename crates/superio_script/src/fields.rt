// SPDX-License-Identifier: Apache-2.0 OR BSD-3-Clause
//! The lines of a script, and the fields of a line, read one after another.
ghost use Rattle.std.specs.Prelude.{◌≡◌, ◌≢◌, List, ℕ, [], ◌∷◌, ◌==◌, position, IfSome, IfNone, MatchOption};
ghost use Rattle.std.specs.Int.{w8, w16, w32, w64};
ghost use Rattle.superio_script.specs.Fields.{pieces_of, fields_of, remaining_fields, lines_of};
ghost use Rattle.superio_script.specs.Fields.{field_bytes_of, field_limit, first_array, first_number, first_bytes, later_fields, end};

use arrayvec::ArrayVec;
use std::marker::Model;

const SPACE: u8 = b' ';

const LF: u8 = b'\n';

/// The most bytes that a field can have.
const FIELD_LIMIT: usize = 128;

// ---- bytes split at a separator

/// The index of the first separator.
fn find(bytes: &[u8], separator: u8) -> Option<usize>
    ensures { result ≡ position (λ b. b == separator) bytes.now }
{
    bytes.iter().position(|byte| *byte == separator)
}

/// The bytes before the first separator, and those after it, or `None` if there is no separator.
#[tactic(auto, using(crate::proofs::LineLemmas::first_pieces))]
fn first_piece(bytes: &[u8], separator: u8) -> (&[u8], Option<&[u8]>)
    ensures found { IfSome result.1 (λ rest. (end : List (List ℕ)) →
        pieces_of separator end bytes.now ≡ result.0.now ∷ pieces_of separator end rest.now) }
    ensures last_field { IfNone result.1 (pieces_of separator ([] ∷ []) bytes.now ≡ result.0.now ∷ []) }
    ensures last_line { IfNone result.1 (bytes.now ≢ [] → pieces_of separator [] bytes.now ≡ result.0.now ∷ []) }
{
    match find(bytes, separator) {
        Some(at) => (&bytes[..at], Some(&bytes[at + 1..])),
        None => (bytes, None),
    }
}

/// The remaining lines of a script, without their LF.
#[derive(Drop)]
pub(crate) struct Lines<'a> {
    rest: &'a [u8],
}

impl<'a> Lines<'a> {
    /// The lines of a script.
    pub(crate) fn of(script: &'a [u8]) -> Self
        ensures { result.rest.now ≡ script.now }
    {
        Lines { rest: script }
    }

    /// Takes the next line.
    pub(crate) fn next_line(&mut self) -> Option<&'a [u8]>
        ensures { MatchOption result (lines_of self.old.rest.now ≡ [])
            (λ line. lines_of self.old.rest.now ≡ line.now ∷ lines_of self.new.rest.now) }
    {
        if self.rest.is_empty() {
            return None;
        }
        let (line, rest) = first_piece(self.rest, LF);
        self.rest = rest.unwrap_or(&[]);
        Some(line)
    }
}

// ---- the fields of a line, by the kinds that a syntax has

/// The bytes of a field, or none if there is no field. Contracts see a list.
#[derive(Drop)]
pub(crate) struct FieldBytes {
    bytes: ArrayVec<u8, FIELD_LIMIT>,
}

impl Model for FieldBytes {
    ghost use Rattle.std.specs.Prelude.{List, ℕ};

    ghost Value = { List ℕ };

    ghost view = { λ field. field.bytes.items };
}

impl FieldBytes {
    ghost use Rattle.std.specs.Prelude.{[], ◌≤◌, length};

    /// No bytes.
    fn none() -> FieldBytes
        ensures { result ≡ [] }
    {
        FieldBytes {
            bytes: ArrayVec::new(),
        }
    }

    /// These bytes, at most 128.
    fn of(bytes: &[u8]) -> FieldBytes
        requires { length bytes.now ≤ field_limit }
        ensures { result ≡ bytes.now }
    {
        let mut field = ArrayVec::new();
        field.try_extend_from_slice(bytes).unwrap();
        FieldBytes { bytes: field }
    }

    /// The bytes.
    pub(crate) fn as_slice(&self) -> &[u8]
        ensures { result.now ≡ self.now }
    {
        self.bytes.as_slice()
    }
}

/// The 1 to 128 bytes of a field of two digits per byte.
fn field_bytes(field: &[u8]) -> Option<FieldBytes>
    ensures { result ≡ field_bytes_of field.now }
{
    let mut bytes = [0; FIELD_LIMIT];
    let count = field.len() / 2;
    if count == 0 || count > FIELD_LIMIT {
        return None;
    }
    let bytes = &mut bytes[..count];
    hex::decode_to_slice(field, bytes).ok()?;
    Some(FieldBytes::of(bytes))
}

/// The remaining fields of a line. One space separates two fields.
#[derive(Drop)]
pub(crate) struct Fields<'a> {
    rest: Option<&'a [u8]>,
}

impl<'a> Fields<'a> {
    /// The fields of a line.
    pub(crate) fn of(line: &'a [u8]) -> Self
        ensures { remaining_fields result.rest ≡ fields_of line.now }
    {
        Fields { rest: Some(line) }
    }

    /// Takes the next field.
    pub(crate) fn next_field(&mut self) -> Option<&'a [u8]>
        ensures taken { MatchOption result (remaining_fields self.old.rest ≡ [])
            (λ field. remaining_fields self.old.rest ≡ field.now ∷ remaining_fields self.new.rest) }
        ensures none_left { IfNone result (remaining_fields self.new.rest ≡ []) }
    {
        let (field, rest) = first_piece(self.rest?, SPACE);
        self.rest = rest;
        Some(field)
    }

    // Each of these functions takes the next field, if this has the form that the function reads. If one of them
    // returns `None`, the line has no known syntax.

    /// `N` bytes, of two digits each.
    fn array<const N: usize>(&mut self) -> Option<[u8; N]>
        ensures value { result ≡ first_array N (remaining_fields self.old.rest) }
        ensures later { remaining_fields self.new.rest ≡ later_fields (remaining_fields self.old.rest) }
    {
        let field = self.next_field()?;
        let mut bytes = [0; N];
        hex::decode_to_slice(field, &mut bytes).ok()?;
        Some(bytes)
    }

    /// A byte, of two digits.
    pub(crate) fn u8(&mut self) -> Option<u8>
        ensures value { result ≡ first_number w8 (remaining_fields self.old.rest) }
        ensures later { remaining_fields self.new.rest ≡ later_fields (remaining_fields self.old.rest) }
    {
        Some(u8::from_be_bytes(self.array()?))
    }

    /// A number of four digits.
    pub(crate) fn u16(&mut self) -> Option<u16>
        ensures value { result ≡ first_number w16 (remaining_fields self.old.rest) }
        ensures later { remaining_fields self.new.rest ≡ later_fields (remaining_fields self.old.rest) }
    {
        Some(u16::from_be_bytes(self.array()?))
    }

    /// A number of eight digits.
    pub(crate) fn u32(&mut self) -> Option<u32>
        ensures value { result ≡ first_number w32 (remaining_fields self.old.rest) }
        ensures later { remaining_fields self.new.rest ≡ later_fields (remaining_fields self.old.rest) }
    {
        Some(u32::from_be_bytes(self.array()?))
    }

    /// A number of sixteen digits.
    pub(crate) fn u64(&mut self) -> Option<u64>
        ensures value { result ≡ first_number w64 (remaining_fields self.old.rest) }
        ensures later { remaining_fields self.new.rest ≡ later_fields (remaining_fields self.old.rest) }
    {
        Some(u64::from_be_bytes(self.array()?))
    }

    /// 1 to 128 bytes of two digits each, or none if no field is left.
    pub(crate) fn bytes(&mut self) -> Option<FieldBytes>
        ensures value { result ≡ first_bytes (remaining_fields self.old.rest) }
        ensures later { remaining_fields self.new.rest ≡ later_fields (remaining_fields self.old.rest) }
    {
        match self.next_field() {
            Some(field) => field_bytes(field),
            None => Some(FieldBytes::none()),
        }
    }

    /// The value, if no field is left.
    pub(crate) fn end<T: Drop>(&mut self, value: T) -> Option<T>
        ensures { result ≡ end value (remaining_fields self.old.rest) }
    {
        match self.next_field() {
            None => Some(value),
            Some(_) => None,
        }
    }
}
