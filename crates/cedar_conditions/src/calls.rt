//! Calls of what is no function or method of Cedar.
ghost use Rattle.std.specs.Prelude.{◌≡◌, IfOk, length, not};
ghost use Rattle.std.specs.Option.{is_some};
ghost use Rattle.cedar_names.specs.Names.{name_text};
ghost use Rattle.cedar_names.specs.PlainNames.{bare_name};
ghost use Rattle.cedar_exprs.specs.BareExpr.{bare_expr};
ghost use Rattle.cedar_conditions.specs.Conditions.{is_function_of, is_wrong_call};

use crate::layout::from_on;
use crate::problem::{Problem, Words};
use crate::size::piece_of;
use cedar_exprs::{Expr, ExprKind};
use cedar_function_names::ExtensionFunction;
use cedar_json::nearest;
use cedar_names::Name;
use cedar_parser::Excerpt;
use std::alloc::{AllocError, Global};

// How a function is called.
#[derive(Clone, Copy, Debug, PartialEq, Eq)]
pub(crate) enum Style {
    // Before all its arguments.
    Function,
    // Behind its first argument and a dot.
    Method,
}

impl Style {
    pub(crate) fn of(function: ExtensionFunction) -> Style {
        if function.is_method() {
            Style::Method
        } else {
            Style::Function
        }
    }

    // The one that is meant where this one is wrong.
    fn other(self) -> Style {
        match self {
            Style::Function => Style::Method,
            Style::Method => Style::Function,
        }
    }

    // What is called so without being a function of an extension: `unknown` stands for what is not
    // known yet, and the methods are those of sets and tags.
    fn other_names(self) -> &'static [&'static str] {
        match self {
            Style::Function => &["unknown"],
            Style::Method => &[
                "contains",
                "containsAll",
                "containsAny",
                "isEmpty",
                "getTag",
                "hasTag",
            ],
        }
    }

    // All names that are called so.
    fn names(self, alloc: Global) -> Result<Vec<&'static str>, AllocError> {
        let mut names = Vec::new(alloc);
        for function in ExtensionFunction::all() {
            if Style::of(function) == self {
                names.push(function.name())?;
            }
        }
        names.extend_from_slice(self.other_names())?;
        Ok(names)
    }
}

/// What is wrong with a call that stands at a node, if anything is.
pub(crate) fn wrong_call(
    alloc: Global,
    text: &str,
    node: &Expr,
) -> Result<Option<Problem>, AllocError>
    ensures { IfOk result (λ found. is_some found ≡ is_wrong_call (bare_expr node.now)) }
{
    match node.expr_kind() {
        ExprKind::ExtensionFunctionApp { fn_name, args } => {
            wrong_call_of(alloc, text, node, fn_name, args)
        }
        _ => Ok(None),
    }
}

fn wrong_call_of(
    alloc: Global,
    text: &str,
    node: &Expr,
    fn_name: &Name,
    args: &[Expr],
) -> Result<Option<Problem>, AllocError>
    ensures { IfOk result (λ found. is_some found
        ≡ not (is_function_of (name_text (bare_name fn_name.now)) (length args.now))) }
{
    let name = fn_name.to_string(alloc)?;
    let style = written_style(text, node, args);
    match wrong_words(alloc, &name, style, args.len())? {
        Some(words) => {
            let piece = name_piece(text, node, &name, args);
            Ok(Some(Problem::new(alloc, piece, words)?))
        }
        None => Ok(None),
    }
}

// What is wrong with a call of this name in this style with so many arguments.
fn wrong_words(
    alloc: Global,
    name: &str,
    style: Style,
    count: usize,
) -> Result<Option<Words>, AllocError>
    ensures { IfOk result (λ words. is_some words ≡ not (is_function_of name.now count)) }
{
    match ExtensionFunction::from_name(name) {
        Some(function) if function.arity() == count => Ok(None),
        Some(function) if Style::of(function) != style => {
            Ok(Some(wrong_style(alloc, name, Style::of(function))?))
        }
        Some(function) => Ok(Some(wrong_count(
            alloc,
            name,
            shown_count(style, function.arity()),
            shown_count(style, count),
        )?)),
        None => Ok(Some(unknown_name(alloc, name, style)?)),
    }
}

// How many arguments stand in the brackets.
fn shown_count(style: Style, count: usize) -> usize {
    match style {
        Style::Function => count,
        Style::Method => count.saturating_sub(1),
    }
}

fn wrong_count(
    alloc: Global,
    name: &str,
    wanted: usize,
    found: usize,
) -> Result<Words, AllocError> {
    let noun = if wanted == 1 { "argument" } else { "arguments" };
    let message = format!(in alloc; "`{name}` takes {wanted} {noun} in its brackets, not {found}")?;
    Ok(Words::message(message))
}

pub(crate) fn wrong_style(alloc: Global, name: &str, known: Style) -> Result<Words, AllocError> {
    let message = match known {
        Style::Function => format!(in alloc; "`{name}` is a function, and no method")?,
        Style::Method => format!(in alloc; "`{name}` is a method, and no function")?,
    };
    let hint = match known {
        Style::Function => format!(in alloc; "it is written `{name}(..)`")?,
        Style::Method => format!(in alloc; "it is written `value.{name}(..)`")?,
    };
    Ok(Words {
        message,
        hint: Some(hint),
    })
}

fn unknown_name(alloc: Global, name: &str, style: Style) -> Result<Words, AllocError> {
    if style.other().other_names().contains(&name) {
        return wrong_style(alloc, name, style.other());
    }
    let message = match style {
        Style::Function if name == "unknown" => {
            String::from_str(alloc, "`unknown` takes one text in quotes")?
        }
        Style::Function => format!(in alloc; "Cedar has no function `{name}`")?,
        Style::Method => format!(in alloc; "Cedar has no method `{name}`")?,
    };
    Ok(Words {
        message,
        hint: Some(meant_call(alloc, name, style)?),
    })
}

// What may have been meant by a call of what is not there.
fn meant_call(alloc: Global, name: &str, style: Style) -> Result<String, AllocError> {
    if style == Style::Function {
        match name {
            "unknown" => return String::from_str(alloc, "did you mean `unknown(\"NAME\")`?"),
            "permit" | "forbid" => {
                let hint = "a condition is what stands in braces behind `when`";
                return String::from_str(alloc, hint);
            }
            _ => {}
        }
    }
    let names = style.names(alloc)?;
    match (nearest(alloc, name, &names)?, style) {
        (Some(near), _) => format!(in alloc; "did you mean `{near}`?"),
        (None, Style::Function) => {
            let names = names.join(alloc, ", ")?;
            format!(in alloc; "the functions are {names}")
        }
        (None, Style::Method) => String::from_str(alloc, "docs/CONDITIONS.md lists the methods"),
    }
}

// How a call is written: the first argument of a method stands before its name.
fn written_style(text: &str, node: &Expr, args: &[Expr]) -> Style {
    let start = piece_of(text, node).start;
    let is_bracketed = from_on(text, start).starts_with('(');
    match args.first().and_then(Expr::source_loc) {
        Some(first) if is_bracketed || first.start == start => Style::Method,
        _ => Style::Function,
    }
}

// The piece of a text in which the name of a call stands, or the whole call.
fn name_piece<'a>(text: &'a str, node: &Expr, name: &str, args: &[Expr]) -> Excerpt<'a> {
    let call = piece_of(text, node);
    let behind = match args.first().and_then(Expr::source_loc) {
        Some(first) if written_style(text, node, args) == Style::Method => first.stop,
        _ => call.start,
    };
    match from_on(text, behind).split_once(name) {
        Some((between, _)) => {
            let start = behind.saturating_add(between.len());
            let stop = start.saturating_add(name.len());
            Excerpt { text, start, stop }
        }
        None => call,
    }
}
