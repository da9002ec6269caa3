//! How a piece of a text is shown: its line, as a terminal shows it, and carets below the piece.
use cedar_parser::Excerpt;
use std::alloc::{AllocError, Global};
use unicode_width::{UnicodeWidthChar as _, UnicodeWidthStr as _};

// How many columns of a line are shown at most, and how many of them before the piece and of it, if
// the line is longer.
const LONGEST: usize = 100;

const BEFORE: usize = 40;

const PIECE: usize = 50;

/// The line in which a piece begins, and carets below the piece, both behind four blanks.
///
/// Control characters are shown by their escapes, but for tabs. Of a long line the part around the
/// piece is shown, with two dots where more stands.
pub(crate) fn lay_out(alloc: Global, piece: Excerpt<'_>) -> Result<String, AllocError> {
    let (before, marked, after) = parts(piece);
    let mut line = String::from_str(alloc, "    ")?;
    let mut carets = String::from_str(alloc, "    ")?;
    if sum(width(before), width(marked), width(after)) <= LONGEST {
        lay_out_parts(&mut line, &mut carets, before, marked)?;
        push_visible(&mut line, after)?;
        return joined(line, &carets);
    }
    let end = tail(before, BEFORE);
    if end.len() < before.len() {
        line.push_str("..")?;
        carets.push_str("  ")?;
    }
    let begin = head(marked, PIECE);
    lay_out_parts(&mut line, &mut carets, end, begin)?;
    let used = sum(width(end), width(begin), 0);
    let rest = head(after, LONGEST.saturating_sub(used));
    if begin.len() == marked.len() {
        push_visible(&mut line, rest)?;
    }
    if begin.len() < marked.len() || rest.len() < after.len() {
        line.push_str("..")?;
    }
    joined(line, &carets)
}

// Two lines.
fn joined(mut line: String, carets: &str) -> Result<String, AllocError> {
    line.push('\n')?;
    line.push_str(carets)?;
    Ok(line)
}

fn sum(first: usize, second: usize, third: usize) -> usize {
    first.saturating_add(second).saturating_add(third)
}

// What stands in the line of a piece before it, the piece in its first line, and what follows it
// there.
fn parts<'a>(piece: Excerpt<'a>) -> (&'a str, &'a str, &'a str) {
    let text: &'a str = piece.text;
    let (above, rest) = match text.split_at_checked(piece.start) {
        Some(cut) => cut,
        None => (text, ""),
    };
    let before = match above.rsplit_once('\n') {
        Some((_, line)) => line,
        None => above,
    };
    let line = first_line(rest);
    match line.split_at_checked(piece.stop.saturating_sub(piece.start)) {
        Some((marked, after)) => (before, marked, after),
        None => (before, line, ""),
    }
}

// The text up to the end of its first line.
fn first_line(text: &str) -> &str {
    let line = match text.split_once('\n') {
        Some((line, _)) => line,
        None => text,
    };
    line.strip_suffix('\r').unwrap_or(line)
}

// Shows what stands before a piece, and the piece, and carets below it.
fn lay_out_parts(
    line: &mut String,
    carets: &mut String,
    before: &str,
    marked: &str,
) -> Result<(), AllocError> {
    push_visible(line, before)?;
    push_blanks(carets, before)?;
    push_visible(line, marked)?;
    for _column in 0..width(marked).max(1) {
        carets.push('^')?;
    }
    Ok(())
}

// Puts what is shown of a text.
fn push_visible(shown: &mut String, text: &str) -> Result<(), AllocError> {
    for c in text.chars() {
        if is_escaped(c) {
            let code = u32::from(c);
            write!(shown, "\\u{{{code:x}}}")?;
        } else {
            shown.push(c)?;
        }
    }
    Ok(())
}

// Puts as many blanks as a text takes columns, a tab for a tab.
fn push_blanks(blanks: &mut String, text: &str) -> Result<(), AllocError> {
    for c in text.chars() {
        if c == '\t' {
            blanks.push('\t')?;
        } else {
            push_spaces(blanks, columns(c))?;
        }
    }
    Ok(())
}

fn push_spaces(blanks: &mut String, count: usize) -> Result<(), AllocError> {
    for _column in 0..count {
        blanks.push(' ')?;
    }
    Ok(())
}

// Whether a character is shown by its escape: it moves the cursor, or turns the direction of text.
fn is_escaped(c: char) -> bool {
    match c {
        '\t' => false,
        '\u{200e}' | '\u{200f}' | '\u{2028}'..='\u{202e}' | '\u{2066}'..='\u{2069}' | '\u{feff}' =>
            true,
        _ => c.is_control(),
    }
}

// How many columns a character takes.
fn columns(c: char) -> usize {
    if is_escaped(c) {
        escape_length(u32::from(c))
    } else {
        c.width().unwrap_or(1)
    }
}

// How long the escape of this character is.
fn escape_length(code: u32) -> usize {
    match code {
        0..=0xf => 5,
        0x10..=0xff => 6,
        0x100..=0xfff => 7,
        _ => 8,
    }
}

// How many columns a text takes.
fn width(text: &str) -> usize {
    if text.chars().any(is_escaped) {
        let mut width: usize = 0;
        for c in text.chars() {
            width = width.saturating_add(columns(c));
        }
        width
    } else {
        text.width()
    }
}

// The longest beginning of a text that takes at most so many columns.
fn head(text: &str, most: usize) -> &str {
    let mut left = most;
    for (at, c) in text.char_indices() {
        match left.checked_sub(columns(c)) {
            Some(rest) => left = rest,
            None => return up_to(text, at),
        }
    }
    text
}

// The end of a text that takes at most so many columns.
fn tail(text: &str, most: usize) -> &str {
    let mut left = width(text);
    for (at, c) in text.char_indices() {
        if left <= most {
            return from_on(text, at);
        }
        left = left.saturating_sub(columns(c));
    }
    ""
}

// The text up to a place.
fn up_to(text: &str, at: usize) -> &str {
    match text.split_at_checked(at) {
        Some((before, _)) => before,
        None => text,
    }
}

// The text from a place on.
pub(crate) fn from_on(text: &str, at: usize) -> &str {
    match text.split_at_checked(at) {
        Some((_, after)) => after,
        None => "",
    }
}
