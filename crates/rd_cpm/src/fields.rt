ghost use Rattle.std.specs.Prelude.{◌≡◌, ◌↔◌, ◌<◌, IsTrue, List, ℕ, length};
ghost use Rattle.rd_cpm.specs.Entries.{user_byte_of, name_of, ex_of, s1_of, s2_of, rc_of, pointers_of, extent_number_of, IsOfFile, without_high_bits};

use std::marker::Model;

/// An entry of the directory: 32 bytes of the image. Contracts see it as the list of these bytes
/// (CP/M 2.2 Interface Guide).
#[derive(Debug, Drop)]
pub struct Entry<'a> {
    bytes: &'a [u8],
}

impl<'a> Model for Entry<'a> {
    ghost Value = { List ℕ };

    ghost view = { λ entry. entry.bytes.now };

    ghost invariant = { λ entry. length entry.bytes.now ≡ 32 };
}

impl<'a> Entry<'a> {
    /// The entry with these 32 bytes.
    pub(crate) fn of(bytes: &'a [u8]) -> Entry<'a>
        requires { length bytes.now ≡ 32 }
        ensures { result ≡ bytes.entry.now }
    {
        Entry { bytes }
    }

    /// Byte 0: the user number, 0 to 15, or another value, such as E5 hex in a free entry.
    pub fn first(&self) -> u8
        ensures { result ≡ user_byte_of self.now }
    {
        self.bytes[0]
    }

    /// Eight bytes of the name and three of the type, with their high bits.
    pub fn name(&self) -> [u8; 11]
        ensures { result ≡ name_of self.now }
    {
        let mut name = [0; 11];
        name.copy_from_slice(&self.bytes[1..12]);
        name
    }

    /// The byte EX, the low part of the extent number.
    pub fn ex(&self) -> u8
        ensures { result ≡ ex_of self.now }
    {
        self.bytes[12]
    }

    /// The byte S1, which desk does not use.
    pub fn s1(&self) -> u8
        ensures { result ≡ s1_of self.now }
    {
        self.bytes[13]
    }

    /// The byte S2, the high part of the extent number.
    pub fn s2(&self) -> u8
        ensures { result ≡ s2_of self.now }
    {
        self.bytes[14]
    }

    /// The byte RC, the number of records of the extent.
    pub fn rc(&self) -> u8
        ensures { result ≡ rc_of self.now }
    {
        self.bytes[15]
    }

    /// The numbers of the extent's allocation blocks, 0 meaning none.
    pub fn pointers(&self) -> [u8; 16]
        ensures { result ≡ pointers_of self.now }
    {
        let mut pointers = [0; 16];
        pointers.copy_from_slice(&self.bytes[16..32]);
        pointers
    }

    /// Whether the entry belongs to a file: its first byte is a user number, 0 to 15.
    pub fn is_file(&self) -> bool
        ensures { IsTrue result ↔ IsOfFile self.now }
    {
        self.first() < 16
    }

    /// The number of the extent, 0 to 2,047.
    pub fn extent_number(&self) -> u16
        ensures { result ≡ extent_number_of self.now }
    {
        32 * u16::from(self.s2() % 64) + u16::from(self.ex() % 32)
    }

    /// The name and the type without their high bits.
    pub(crate) fn plain_name(&self) -> [u8; 11]
        ensures { result ≡ without_high_bits (name_of self.now) }
    {
        self.name().map(|byte| byte % 128)
    }

    /// Whether two entries have the same user, and the same name except for the high bits.
    pub(crate) fn is_same_file(&self, other: &Entry<'_>) -> bool
        ensures { IsTrue result ↔ ((user_byte_of other.now ≡ user_byte_of self.now) × (without_high_bits (name_of other.now) ≡ without_high_bits (name_of self.now))) }
    {
        self.first() == other.first() && self.plain_name() == other.plain_name()
    }
}
