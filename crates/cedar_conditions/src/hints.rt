//! What may have been meant by a text that is no condition.
use crate::problem::Words;
use cedar_exprs::Expr;
use cedar_json::nearest;
use cedar_parser::SyntaxError;
use std::alloc::{AllocError, Global};
use std::collections::HashMap;
use std::rc::RcStr;

const VARIABLES: [&str; 4] = ["principal", "action", "resource", "context"];
// How the parser tells of a name that is no variable.
const NO_VARIABLE: &str = "this is no variable";

/// What is told of a text that is no condition.
pub(crate) fn syntax_words(
    alloc: Global,
    text: &str,
    error: &SyntaxError,
    names: &HashMap<RcStr, Expr>,
) -> Result<Words, AllocError> {
    let (before, rest) = match text.split_at_checked(error.start) {
        Some(cut) => cut,
        None => (text, ""),
    };
    let piece = match rest.split_at_checked(error.stop.saturating_sub(error.start)) {
        Some((piece, _)) => piece,
        None => rest,
    };
    let hint = match meant(before, piece) {
        Some(hint) => Some(String::from_str(alloc, hint)?),
        None if error.problem == NO_VARIABLE => return no_variable(alloc, piece, names),
        None => None,
    };
    Ok(Words {
        message: String::from_str(alloc, error.problem)?,
        hint,
    })
}

// What is told of a name that is no variable.
fn no_variable(
    alloc: Global,
    name: &str,
    names: &HashMap<RcStr, Expr>,
) -> Result<Words, AllocError> {
    let message = format!(in alloc; "`{name}` is no variable")?;
    let near = nearest(alloc, name, &VARIABLES)?;
    let hint = match near {
        _ if name.contains("::") => entity_hint(alloc, name)?,
        _ if names.contains_key(name) => {
            format!(in alloc;
                "the bound name `{name}` is written `unknown(\"{name}\")`; the variables are \
                principal, action, resource and context"
            )?
        }
        Some(near) => format!(in alloc; "did you mean `{near}`?")?,
        None => format!(in alloc;
            "the variables are principal, action, resource and context; a bound name is written \
            `unknown(\"{name}\")`"
        )?,
    };
    Ok(Words {
        message,
        hint: Some(hint),
    })
}

// How the entity is written whose identifier is the last part of a path.
fn entity_hint(alloc: Global, path: &str) -> Result<String, AllocError> {
    match path.rsplit_once("::") {
        Some((ty, id)) => format!(in alloc; "an entity is written `{ty}::\"{id}\"`"),
        None => String::from_str(alloc, "an entity is written `User::\"alice\"`"),
    }
}

// What Cedar has instead of a piece, by how it begins and what stands before it.
fn meant(before: &str, piece: &str) -> Option<&'static str> {
    match word_meant(piece) {
        Some(hint) => Some(hint),
        None => sign_meant(before, piece.as_bytes().first().copied()?),
    }
}

// What Cedar has instead of a word of other languages.
fn word_meant(word: &str) -> Option<&'static str> {
    match word {
        "and" | "AND" | "And" => Some("`&&` is between conditions that both have to hold"),
        "or" | "OR" | "Or" => Some("`||` is between conditions of which one has to hold"),
        "not" | "NOT" | "Not" => Some("`!` stands before what may not hold"),
        "True" | "TRUE" => Some("it is written `true`"),
        "False" | "FALSE" => Some("it is written `false`"),
        "null" | "nil" | "None" | "undefined" => {
            Some("Cedar has no null; `has` tells whether an attribute is there")
        }
        "?" => Some("a choice is written `if a then b else c`"),
        "eq" | "equals" => Some("`==` compares"),
        "permit" | "forbid" | "when" | "unless" => {
            Some("a condition is what stands in braces behind `when`")
        }
        _ => None,
    }
}

// What Cedar has instead of a sign of other languages.
fn sign_meant(before: &str, sign: u8) -> Option<&'static str> {
    match sign {
        b'=' => Some("`==` compares"),
        b'\'' => Some("a text stands in double quotes"),
        b'/' => Some("Cedar has no division; `//` begins a comment"),
        b'%' => Some("Cedar has no remainder"),
        b';' => Some("a condition is one expression, without `;`"),
        b'&' => Some("`&&` is between conditions that both have to hold"),
        b'|' => Some("`||` is between conditions of which one has to hold"),
        b'^' | b'~' => Some("Cedar has no operators on bits"),
        b'#' => Some("`//` begins a comment"),
        b'@' => Some("annotations stand before a policy, and not in its condition"),
        b'$' => Some("names have no `$`"),
        b'0'..=b'9' if before.trim_end().ends_with('.') => {
            Some("a number with a fraction is written `decimal(\"1.5\")`")
        }
        b'>' if before.ends_with('<') => Some("`!=` tells whether two values differ"),
        _ => None,
    }
}
