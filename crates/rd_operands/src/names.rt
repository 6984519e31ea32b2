//! The name of a file of an image, for a folder.

ghost use Rattle.std.specs.Prelude.{◌≡◌, ◌<◌, ◌+◌, ◌++◌, IfOk, OnOk, map, string_bytes, take};
ghost use Rattle.rd_operands.specs.FileNames as spec;
ghost use Rattle.rd_operands.specs.FileNames.{HasOneSlot, IsSafeName, without_dots as without_dots_of};

use crate::dots::without_dots;
use rd_geometry::NoMemory;
use std::alloc::{AllocError, Global};

/// How many bytes of a file's own name its name in a folder keeps.
const KEPT: usize = 249;

/// Whether a byte is of POSIX's portable filename character set: an ASCII letter or digit, a dot, `_` or `-`.
fn is_portable(byte: u8) -> bool
    ensures { result ≡ spec.is_portable byte }
{
    byte.is_ascii_alphanumeric() || byte == b'.' || byte == b'_' || byte == b'-'
}

/// A byte of the portable set, and an underscore for any other.
fn safe_byte(byte: u8) -> u8
    ensures value { result ≡ spec.safe_byte byte }
    ensures ascii { result < 128 }
{
    if is_portable(byte) { byte } else { b'_' }
}

/// The digit for a number below ten.
fn digit(number: u16) -> char
    requires { number < 10 }
    ensures { result ≡ 48 + number }
{
    char::from(b'0' + number as u8)
}

/// Adds a slot to a text, in five digits, and a hyphen.
fn push_slot(text: &mut String, slot: u16) -> Result<(), AllocError>
    ensures { OnOk result (string_bytes text.new ≡ string_bytes text.old ++ spec.slot_front slot) }
{
    let tens = slot / 10;
    let hundreds = tens / 10;
    let thousands = hundreds / 10;
    text.push(digit(thousands / 10))?;
    text.push(digit(thousands % 10))?;
    text.push(digit(hundreds % 10))?;
    text.push(digit(tens % 10))?;
    text.push(digit(slot % 10))?;
    text.push('-')
}

/// Adds bytes to a text, with an underscore for each that is not of the portable set.
fn push_safe(text: &mut String, bytes: &[u8]) -> Result<(), AllocError>
    ensures { OnOk result (string_bytes text.new ≡ string_bytes text.old ++ map spec.safe_byte bytes.now) }
{
    for byte in bytes {
        text.push(char::from(safe_byte(*byte)))?;
    }
    Ok(())
}

/// What a file's name in a folder keeps of its own: the first 249 bytes, without the dots at their end.
fn kept_part(name: &[u8]) -> &[u8]
    ensures { result.now ≡ without_dots_of (take KEPT name.now) }
{
    without_dots(&name[..KEPT.min(name.len())])
}

/// The name in a folder for the file of a slot, by its name in its image: the slot in five digits, a hyphen,
/// and the first 249 bytes of that name, without dots at the end and with an underscore for each byte outside
/// the portable set. So no system takes it for a path, a hidden file or a device, and no two slots have one
/// name, even where capital and small letters are the same (`one_slot`). It fails only when memory runs out.
pub fn file_name(alloc: Global, slot: u16, name: &[u8]) -> Result<String, NoMemory>
    ensures name { IfOk result (λ text. string_bytes text ≡ spec.file_name slot name.now) }
    ensures safe { IfOk result (λ text. IsSafeName (string_bytes text)) }
{
    let mut text = String::new(alloc);
    push_slot(&mut text, slot)?;
    push_safe(&mut text, kept_part(name))?;
    Ok(text)
}

/// Law: names that differ at most in capital and small letters are names for one slot.
pub fn one_slot()
    ensures { HasOneSlot }
{}
