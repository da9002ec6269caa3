//! Calls of functions and methods.
ghost use Rattle.std.specs.Prelude.{
  ◌≡◌,
  ◌≢◌,
  ◌≤◌,
  ◌∷◌,
  [],
  IfErr,
  IfOk,
  IfSome,
  MatchOption,
  None,
  codes,
  length,
  map,
};
ghost use Rattle.std.specs.Option.{option_map};
ghost use Rattle.std.specs.Rc.{rc_str_bytes};
ghost use Rattle.std.specs.Str.{bytes_eq};
ghost use Rattle.cedar_names.specs.PlainNames.{bare_name};
ghost use Rattle.cedar_builders.specs.BareExpr.{ExtensionFunctionApp, Unknown as UnknownTree};
ghost use Rattle.cedar_exprs.specs.BareExpr.{bare_expr, bare_exprs};
ghost use Rattle.semantics_grammar.specs.Written.{
  function_tree,
  literal_string,
  method_op,
  only_string,
  string_of,
  unknown_or,
};
ghost use Rattle.cedar_lexer.specs.declared.parse_failure.ParseFailure.TheVariants.{Memory};
ghost use Rattle.cedar_parser.specs.Ahead.{RowTakes};
ghost use Rattle.cedar_parser.specs.Meant.{HasNoValues};
ghost use Rattle.cedar_parser.specs.Places.{ArePlaced, IsNodeAt, IsPlaced, source_of};
ghost use Rattle.cedar_parser.specs.Refused.{IsAbout};
ghost use Rattle.cedar_parser.specs.Waiting.{
  IsBinaryOf,
  IsRowTree,
  IsUnaryOf,
  is_unknown_name,
  method_arguments,
};
ghost use Rattle.cedar_terms.specs.Literals.{bare_literal};
ghost use Rattle.cedar_terms.specs.declared.ops.UnaryOp.TheVariants as Unary;

use crate::leaves::name_of;
use crate::nodes::Nodes;
use cedar_builders::ExprBuilder as _;
use cedar_exprs::{Expr, ExprKind};
use cedar_lexer::{ParseFailure, Span};
use cedar_names::Name;
use cedar_terms::{BinaryOp, Literal, UnaryOp, Unknown};
use std::alloc::AllocError;
use std::convert::AsStr as _;
use std::rc::RcStr;

impl Nodes<'_> {
    /// The call of a function; `unknown("x")` is the unknown of that name.
    pub(crate) fn function_call(
        &self,
        name: Name,
        args: Vec<Expr>,
        span: Span,
    ) -> Result<Expr, ParseFailure>
        ensures tree { HasNoValues self.now → IfOk result (λ e.
            bare_expr e ≡ function_tree (bare_name name) (bare_exprs args.items)) }
        ensures refused { IfErr result (IsAbout span) }
        ensures complete { IfErr result (λ e. e ≡ Memory) }
        ensures places { HasNoValues self.now → span.start ≤ span.stop
            → ArePlaced (source_of self.now) span.start span.stop args.items
            → IfOk result (IsPlaced (source_of self.now) span.start span.stop) }
    {
        match unknown_name(&name, &args)? {
            Some(text) => Ok(self.unknown(text, span)?),
            None => Ok(self.extension_call(name, args, span)?),
        }
    }

    // The call of a function or a method of an extension.
    fn extension_call(&self, name: Name, args: Vec<Expr>, span: Span) -> Result<Expr, AllocError>
        ensures tree { IfOk result (λ e.
            bare_expr e ≡ ExtensionFunctionApp (bare_name name) (bare_exprs args.items)) }
        ensures place { IfOk result (IsNodeAt self.now span args.items) }
    {
        Ok(self.at(span)?.call_extension_fn(self.alloc, name, args)?)
    }

    fn unknown(&self, name: RcStr, span: Span) -> Result<Expr, AllocError>
        ensures tree { HasNoValues self.now →
            IfOk result (λ e. bare_expr e ≡ UnknownTree (rc_str_bytes name) None) }
        ensures place { HasNoValues self.now → IfOk result (IsNodeAt self.now span []) }
    {
        match self.value(&name, span)? {
            Some(expr) => Ok(expr),
            None => self
                .at(span)?
                .unknown(self.alloc, Unknown::new_untyped(name)),
        }
    }

    /// The call of a method, whose first argument stands before its name.
    pub(crate) fn method_call(
        &self,
        method: &str,
        args: Vec<Expr>,
        span: Span,
    ) -> Result<Expr, ParseFailure>
        ensures tree { IfOk result (λ e.
            IsRowTree (method_arguments method.now) (map bare_expr args.items) (bare_expr e)) }
        ensures refused { IfErr result (IsAbout span) }
        ensures complete { IfErr result (λ e.
            RowTakes (method_arguments method.now) (length args.items) → e ≡ Memory) }
        ensures places { span.start ≤ span.stop
            → ArePlaced (source_of self.now) span.start span.stop args.items
            → IfOk result (IsPlaced (source_of self.now) span.start span.stop) }
    {
        if is_emptiness(method) {
            return self.is_empty(args, span);
        }
        match method_operator(method) {
            Some(op) => self.binary_method(op, args, span),
            None => {
                let name = name_of(self.alloc, method, span)?;
                Ok(self.extension_call(name, args, span)?)
            }
        }
    }

    // The method `isEmpty`, which takes no argument but the one before its name.
    fn is_empty(&self, args: Vec<Expr>, span: Span) -> Result<Expr, ParseFailure>
        ensures tree { IfOk result (λ e.
            IsUnaryOf Unary.IsEmpty (map bare_expr args.items) (bare_expr e)) }
        ensures refused { IfErr result (IsAbout span) }
        ensures complete { IfErr result (λ e. length args.items ≡ 1 → e ≡ Memory) }
        ensures place { IfOk result (IsNodeAt self.now span args.items) }
    {
        match only(args) {
            Some(arg) => Ok(self.at(span)?.unary_app(self.alloc, UnaryOp::IsEmpty, arg)?),
            None => Err(ParseFailure::Syntax(span, "`isEmpty` takes no argument")),
        }
    }

    // An operator of two arguments that is written as a method.
    fn binary_method(&self, op: BinaryOp, args: Vec<Expr>, span: Span) -> Result<Expr, ParseFailure>
        ensures tree { IfOk result (λ e. IsBinaryOf op (map bare_expr args.items) (bare_expr e)) }
        ensures refused { IfErr result (IsAbout span) }
        ensures complete { IfErr result (λ e. length args.items ≡ 2 → e ≡ Memory) }
        ensures place { IfOk result (IsNodeAt self.now span args.items) }
    {
        match only_two(args) {
            Some((first, last)) => Ok(self.at(span)?.binary_app(self.alloc, op, first, last)?),
            None => Err(ParseFailure::Syntax(span, wrong_count(op))),
        }
    }
}

// The item, if there is one alone.
fn only<T: Drop>(mut items: Vec<T>) -> Option<T>
    ensures { MatchOption result (length items.items ≢ 1) (λ item. items.items ≡ item ∷ []) }
{
    let item = items.pop()?;
    if items.is_empty() { Some(item) } else { None }
}

// Both items, if there are two alone.
fn only_two<T: Drop>(mut items: Vec<T>) -> Option<(T, T)>
    ensures { MatchOption result
        (length items.items ≢ 2)
        (λ both. items.items ≡ both.0 ∷ both.1 ∷ []) }
{
    let last = items.pop()?;
    let first = only(items)?;
    Some((first, last))
}

// Whether a method is `isEmpty`.
fn is_emptiness(method: &str) -> bool
    ensures { result ≡ bytes_eq method.now (codes "isEmpty") }
{
    method == "isEmpty"
}

// The operator of two operands that is written as a method of this name.
fn method_operator(method: &str) -> Option<BinaryOp>
    ensures { result ≡ method_op method.now }
{
    match method {
        "contains" => Some(BinaryOp::Contains),
        "containsAll" => Some(BinaryOp::ContainsAll),
        "containsAny" => Some(BinaryOp::ContainsAny),
        "getTag" => Some(BinaryOp::GetTag),
        "hasTag" => Some(BinaryOp::HasTag),
        _ => None,
    }
}

// How many arguments a method takes.
fn wrong_count(op: BinaryOp) -> &'static str {
    match op {
        BinaryOp::Contains => "`contains` takes 1 argument",
        BinaryOp::ContainsAll => "`containsAll` takes 1 argument",
        BinaryOp::ContainsAny => "`containsAny` takes 1 argument",
        BinaryOp::GetTag => "`getTag` takes 1 argument",
        BinaryOp::HasTag => "`hasTag` takes 1 argument",
        _ => "this method takes another number of arguments",
    }
}

// The name of the unknown that a call stands for, if it stands for one.
fn unknown_name(name: &Name, args: &[Expr]) -> Result<Option<RcStr>, AllocError>
    ensures { IfOk result (λ text.
        function_tree (bare_name name.now) (bare_exprs args.now)
        ≡ unknown_or (ExtensionFunctionApp (bare_name name.now) (bare_exprs args.now))
        (option_map rc_str_bytes text)) }
{
    if is_unknown(name) {
        only_text(args)
    } else {
        Ok(None)
    }
}

// Whether a function is `unknown`.
fn is_unknown(name: &Name) -> bool
    ensures { result ≡ is_unknown_name (bare_name name.now) }
{
    name.is_unqualified() && name.basename_as_ref().as_str() == "unknown"
}

// The text that is the only argument.
fn only_text(args: &[Expr]) -> Result<Option<RcStr>, AllocError>
    ensures { IfOk result (λ text.
        option_map rc_str_bytes text ≡ only_string (bare_exprs args.now)) }
{
    match only_arg(args) {
        Some(arg) => text_in(arg),
        None => Ok(None),
    }
}

// The argument, if there is one alone.
fn only_arg(args: &[Expr]) -> Option<&Expr>
    ensures { MatchOption result (length args.now ≢ 1) (λ arg. args.now ≡ arg.now ∷ []) }
{
    match args {
        [arg] => Some(arg),
        _ => None,
    }
}

// The text that an expression is the literal of.
fn text_in(expr: &Expr) -> Result<Option<RcStr>, AllocError>
    ensures { IfOk result (λ text. option_map rc_str_bytes text ≡ string_of (bare_expr expr.now)) }
{
    match expr.expr_kind() {
        ExprKind::Lit(literal) => literal_text(literal),
        _ => Ok(None),
    }
}

// The text that a literal is.
fn literal_text(literal: &Literal) -> Result<Option<RcStr>, AllocError>
    ensures { IfOk result (λ text.
        option_map rc_str_bytes text ≡ literal_string (bare_literal literal.now)) }
{
    match literal {
        Literal::String(text) => Ok(Some(text.clone()?)),
        Literal::Bool(_) => Ok(None),
        Literal::Long(_) => Ok(None),
        Literal::EntityUID(_) => Ok(None),
    }
}
