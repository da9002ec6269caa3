//! Answers of several words.
use crate::call_error::CallError;
use std::alloc::{AllocError, Global};
use std::fmt::Display;

/// An answer under way: words with a space between, some with a label in front.
///
/// As std's `DebugStruct` does, it keeps the first refusal to the end, so that a chain of calls
/// needs no `?`.
#[derive(Drop)]
pub struct Answer {
    text: Result<String, CallError>,
}

impl Answer {
    /// An answer with no word yet.
    pub fn new(alloc: Global) -> Answer {
        Answer {
            text: Ok(String::new(alloc)),
        }
    }

    /// With the text of a value.
    pub fn word<T: Display>(self, word: &T) -> Answer {
        self.labelled("", word)
    }

    /// With a label and the text of a value.
    pub fn labelled<T: Display>(self, label: &str, word: &T) -> Answer {
        Answer {
            text: with_word(self.text, label, word),
        }
    }

    /// With the text of a value that was made.
    pub fn made<T: Display + Drop>(self, made: Result<T, CallError>) -> Answer {
        self.labelled_made("", made)
    }

    /// With a label and the text of a value that was made.
    pub fn labelled_made<T: Display + Drop>(
        self,
        label: &str,
        made: Result<T, CallError>,
    ) -> Answer {
        Answer {
            text: with_made(self.text, label, made),
        }
    }

    /// With the text of a value, where there was memory for it.
    pub fn allocated<T: Display + Drop>(self, made: Result<T, AllocError>) -> Answer {
        self.labelled_allocated("", made)
    }

    /// With a label and the text of a value, where there was memory for it.
    pub fn labelled_allocated<T: Display + Drop>(
        self,
        label: &str,
        made: Result<T, AllocError>,
    ) -> Answer {
        Answer {
            text: with_allocated(self.text, label, made),
        }
    }

    /// The whole answer, or the first refusal.
    pub fn end(self) -> Result<String, CallError> {
        self.text
    }
}

fn with_word<T: Display>(
    text: Result<String, CallError>,
    label: &str,
    word: &T,
) -> Result<String, CallError> {
    pushed(text?, label, word)
}

fn with_made<T: Display + Drop>(
    text: Result<String, CallError>,
    label: &str,
    made: Result<T, CallError>,
) -> Result<String, CallError> {
    let text = text?;
    pushed(text, label, &made?)
}

fn with_allocated<T: Display + Drop>(
    text: Result<String, CallError>,
    label: &str,
    made: Result<T, AllocError>,
) -> Result<String, CallError> {
    let text = text?;
    pushed(text, label, &made?)
}

fn pushed<T: Display>(mut text: String, label: &str, word: &T) -> Result<String, CallError> {
    if !text.is_empty() {
        text.push(' ')?;
    }
    write!(text, "{label}{word}")?;
    Ok(text)
}

/// `ok`, and the text of a value.
pub fn ok<T: Display>(alloc: Global, value: &T) -> Result<String, CallError> {
    Answer::new(alloc).labelled("ok ", value).end()
}
