//! Escapes of characters and texts (Cedar's file `literal.rs` and others).
ghost use Rattle.std.specs.Prelude.{◌≡◌, Some, IsTrue};
ghost use Rattle.std.specs.Fmt.{WritesOnOk};
ghost use Rattle.std.specs.List.{list_all};
ghost use Rattle.std.specs.Str.{encode_utf8_all};
ghost use Rattle.cedar_terms.specs.Escape.{escape_char, escaped, is_plain};

use std::fmt;

// A character that is shown by its escape.
#[derive(Clone, Copy, Debug)]
pub(crate) struct EscapedChar(pub(crate) char);

impl fmt::Display for EscapedChar {
    ghost output = { λ e. Some (encode_utf8_all (escape_char e.0)) };

    fn fmt<W: fmt::Write>(&self, f: &mut fmt::Formatter<W>) -> fmt::Result {
        match self.0 {
            '\0' => write!(f, "\\0"),
            '\t' => write!(f, "\\t"),
            '\n' => write!(f, "\\n"),
            '\r' => write!(f, "\\r"),
            '"' => write!(f, "\\\""),
            '\'' => write!(f, "\\'"),
            '\\' => write!(f, "\\\\"),
            c if c.is_ascii_control() => {
                let code = c as u32;
                write!(f, "\\u{{{code:x}}}")
            }
            c => write!(f, "{c}"),
        }
    }
}

/// A text that is shown by the escapes of its characters, as in
/// `write!(f, "\"{}\"", Escaped(text))`.
///
/// NUL is `\0`, tab `\t`, carriage return `\r`, line feed `\n`, backslash `\\`, double quote `\"`
/// and single quote `\'`; every other ASCII control is `\u{h}` with lower-case digits; any other
/// character stands as itself. Writing it takes no memory.
#[derive(Clone, Copy, Debug)]
pub struct Escaped<'a>(pub &'a str);

impl fmt::Display for Escaped<'_> {
    ghost output = { λ e. Some (escaped e.0.now) };

    fn fmt<W: fmt::Write>(&self, f: &mut fmt::Formatter<W>) -> fmt::Result {
        write_escaped(f, self.0)
    }
}

// Writes the escape of each character; a text that is its own escape is written at once.
fn write_escaped<W: fmt::Write>(f: &mut fmt::Formatter<W>, text: &str) -> fmt::Result
    ensures { WritesOnOk W.write_str_gives f.old result (escaped text.now) f.new }
{
    if is_own_escape(text) {
        return f.write_str(text);
    }
    for c in text.chars() {
        write!(f, "{}", EscapedChar(c))?;
    }
    Ok(())
}

// Whether no character of the text has another escape than itself.
fn is_own_escape(text: &str) -> bool
    ensures { IsTrue result → escaped text.now ≡ text.now }
{
    are_plain(text.as_bytes())
}

fn are_plain(bytes: &[u8]) -> bool
    ensures { result ≡ list_all is_plain bytes.now }
{
    bytes.iter().all(|byte| is_plain(*byte))
}

fn is_plain(byte: u8) -> bool
    ensures { result ≡ is_plain byte }
{
    !(byte.is_ascii_control() || byte == b'"' || byte == b'\'' || byte == b'\\')
}
