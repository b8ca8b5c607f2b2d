//! Blanks of texts.
ghost use Rattle.std.specs.Prelude.{◌≡◌};
ghost use Rattle.ev_syntax.specs.Chars.{is_blank, are_blanks};

/// Whether a byte is a space, a tab, a CR or an LF.
pub fn is_blank(byte: u8) -> bool
    ensures { result ≡ is_blank byte }
{
    (byte == b' ' || byte == b'\t') || (byte == b'\r' || byte == b'\n')
}

/// Whether all bytes are blanks.
pub fn are_blanks(bytes: &[u8]) -> bool
    ensures { result ≡ are_blanks bytes.now }
{
    bytes.iter().all(|byte| is_blank(*byte))
}
