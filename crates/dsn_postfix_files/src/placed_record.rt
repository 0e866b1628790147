//! A record of a queue file, with its place.

/// A record of a queue file, with the place where it begins.
#[derive(Clone, Copy, Debug)]
pub struct PlacedRecord<'a> {
    /// The place of the record's first byte, the letter of its type, in the file.
    pub place: u64,
    /// The letter of its type, such as `R` for a recipient.
    pub kind: u8,
    /// Its bytes.
    pub bytes: &'a [u8],
}
