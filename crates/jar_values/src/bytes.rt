//! Bytes that lines and cookies treat apart.

ghost use Rattle.std.specs.Prelude.{◌≡◌};
ghost use Rattle.jar_values.specs.Bytes as spec;

/// Whether a byte is a space or a tab.
///
/// The 6265bis draft, section 5.6.
pub fn is_blank(byte: u8) -> bool
    ensures { result ≡ spec.is_blank byte }
{
    byte == b' ' || byte == b'\t'
}

/// Whether a byte is a control byte other than the tab: 00 to 08, 0A to 1F, or 7F.
///
/// The 6265bis draft, section 5.6.
pub fn is_control(byte: u8) -> bool
    ensures { result ≡ spec.is_control byte }
{
    matches!(byte, 0x00..=0x08 | 0x0A..=0x1F | 0x7F)
}
