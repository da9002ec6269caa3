//! Expressions with their places in a text.
ghost use Rattle.std.specs.Prelude.{◌≡◌, ◌≤◌, ◌∷◌, [], IfErr, IfOk, IsTrue, None, Some, map};
ghost use Rattle.std.specs.Rc.{rc_str_bytes};
ghost use Rattle.cedar_builders.specs.BareExpr.{
  And,
  BinaryApp,
  GetAttr,
  HasAttr,
  Is,
  Like,
  Or,
  Set,
};
ghost use Rattle.cedar_builders.specs.declared.expression_construction_errors.ExpressionConstructionError.TheVariants as build_errors;
ghost use Rattle.cedar_exprs.specs.BareExpr.{bare_expr, bare_expr_kind, bare_exprs, further};
ghost use Rattle.cedar_exprs.specs.MadeNode.{builder_place};
ghost use Rattle.cedar_exprs.specs.Walks.{kind_children};
ghost use Rattle.cedar_builders.specs.Keys.{are_distinct, meant_pairs};
ghost use Rattle.cedar_lexer.specs.declared.parse_failure.ParseFailure.TheVariants.{Memory};
ghost use Rattle.cedar_terms.specs.Entities.{bare_entity_type};
ghost use Rattle.cedar_terms.specs.declared.precedence.Precedence.TheVariants as precedences;
ghost use Rattle.cedar_parser.specs.Ahead.{keys};
ghost use Rattle.cedar_parser.specs.Meant.{HasNoValues, IsRecordTree, operator, waiting};
ghost use Rattle.cedar_parser.specs.Places.{ArePlaced, IsNodeAt, IsPlaced, operands_of, place_of};
ghost use Rattle.cedar_parser.specs.Places.{source_of};
ghost use Rattle.cedar_parser.specs.Refused.{IsAbout, start_of};
ghost use Rattle.cedar_parser.specs.Waiting.{operator_tree, waiting_precedence, waiting_tree};

use crate::infix::Infix;
use crate::operand::{Operand, Operation};
use cedar_builders::{ExprBuilder as _, ExpressionConstructionError};
use cedar_exprs::{Expr, ExprBuilder, ExprKind};
use cedar_lexer::{ParseFailure, Span};
use cedar_names::{Loc, NonEmpty};
use cedar_terms::{BinaryOp, EntityType, Pattern, UnaryOp};
use std::alloc::{AllocError, Global};
use std::collections::HashMap;
use std::rc::{Rc, RcStr};

/// Makes expressions with their places in a text.
#[derive(Drop)]
pub(crate) struct Nodes<'a> {
    pub(crate) alloc: Global,
    pub(crate) source: RcStr,
    /// What unknowns and variables are parsed as.
    pub(crate) values: &'a HashMap<RcStr, Expr>,
}

impl Nodes<'_> {
    // A place.
    fn place(&self, span: Span) -> Result<Loc, AllocError>
        ensures { IfOk result (λ place. place ≡ place_of self.now span) }
    {
        Ok(Loc::new(span.start, span.stop, self.source.clone()?))
    }

    /// The builder of a node at a place.
    pub(crate) fn at(&self, span: Span) -> Result<ExprBuilder<()>, AllocError>
        ensures { IfOk result (λ b. builder_place b ≡ Some (place_of self.now span)) }
    {
        Ok(ExprBuilder::new().with_maybe_source_loc(Some(self.place(span)?)))
    }

    /// The node of this kind.
    pub(crate) fn node(&self, kind: ExprKind<()>, span: Span) -> Result<Expr, AllocError>
        ensures tree { IfOk result (λ e. bare_expr e ≡ bare_expr_kind kind) }
        ensures place { IfOk result (IsNodeAt self.now span (kind_children kind)) }
    {
        Ok(self.at(span)?.with_expr_kind(kind))
    }

    /// The expression that an unknown or a variable is parsed as, if it has a value.
    pub(crate) fn value(&self, name: &str, span: Span) -> Result<Option<Expr>, AllocError>
        ensures { HasNoValues self.now → IfOk result (λ expr. expr ≡ None) }
    {
        match self.values.get(name) {
            Some(expr) => {
                let place = self.place(span)?;
                let expr = expr.clone(self.alloc)?;
                Ok(Some(expr.with_maybe_source_loc(Some(place))))
            }
            None => Ok(None),
        }
    }

    /// The operation with its last operand.
    pub(crate) fn apply(&self, operation: Operation, last: Operand) -> Result<Operand, AllocError>
        ensures tree { IfOk result (λ h.
            bare_expr h.expr ≡ waiting_tree (waiting operation) (bare_expr last.expr)) }
        ensures precedence { IfOk result (λ h.
            h.precedence ≡ waiting_precedence (waiting operation)) }
        ensures start { IfOk result (λ h. h.span.start ≡ start_of operation) }
        ensures stop { IfOk result (λ h. h.span.stop ≡ last.span.stop) }
        ensures places { start_of operation ≤ last.span.start
            → ArePlaced (source_of self.now) (start_of operation) last.span.stop
            (operands_of operation)
            → IsPlaced (source_of self.now) last.span.start last.span.stop last.expr
            → IfOk result (λ h. IsPlaced (source_of self.now) h.span.start h.span.stop h.expr) }
    {
        let precedence = operation.precedence();
        let span = Span {
            start: operation.start(),
            stop: last.span.stop,
        };
        let expr = self.applied(operation, last.expr, span)?;
        Ok(Operand {
            expr,
            precedence,
            span,
        })
    }

    fn applied(&self, operation: Operation, last: Expr, span: Span) -> Result<Expr, AllocError>
        ensures tree { IfOk result (λ e.
            bare_expr e ≡ waiting_tree (waiting operation) (bare_expr last)) }
        ensures places { ArePlaced (source_of self.now) span.start span.stop (operands_of operation)
            → IsPlaced (source_of self.now) span.start span.stop last
            → IfOk result (IsPlaced (source_of self.now) span.start span.stop) }
    {
        match operation {
            Operation::Prefix(op, _, _) => self.at(span)?.unary_app(self.alloc, op, last),
            Operation::Infix(sign, first) => self.infix(sign, first.expr, last, span),
            Operation::IsIn(is, first) => {
                let within = self.binary(BinaryOp::In, first, last, span)?;
                self.and(is.expr, within, span)
            }
            Operation::Else(_, test, then) => self.at(span)?.ite(self.alloc, test, then, last),
        }
    }

    fn infix(&self, sign: Infix, first: Expr, last: Expr, span: Span) -> Result<Expr, AllocError>
        ensures tree { IfOk result (λ e.
            bare_expr e ≡ operator_tree (operator sign) (bare_expr first) (bare_expr last)) }
        ensures places { IsPlaced (source_of self.now) span.start span.stop first
            → IsPlaced (source_of self.now) span.start span.stop last
            → IfOk result (IsPlaced (source_of self.now) span.start span.stop) }
    {
        match sign {
            Infix::Or => self.or(first, last, span),
            Infix::And => self.and(first, last, span),
            Infix::Plain(op) => self.binary(op, first, last, span),
            Infix::Negated(op) => {
                let inner = self.binary(op, first, last, span)?;
                self.at(span)?.unary_app(self.alloc, UnaryOp::Not, inner)
            }
        }
    }

    // The conjunction as it stands, also of two literals, of which the builder would make one.
    fn and(&self, first: Expr, last: Expr, span: Span) -> Result<Expr, AllocError>
        ensures tree { IfOk result (λ e. bare_expr e ≡ And (bare_expr first) (bare_expr last)) }
        ensures place { IfOk result (IsNodeAt self.now span (first ∷ last ∷ [])) }
    {
        let left = Rc::new(self.alloc, first)?;
        let right = Rc::new(self.alloc, last)?;
        self.node(ExprKind::And { left, right }, span)
    }

    // The disjunction as it stands.
    fn or(&self, first: Expr, last: Expr, span: Span) -> Result<Expr, AllocError>
        ensures tree { IfOk result (λ e. bare_expr e ≡ Or (bare_expr first) (bare_expr last)) }
        ensures place { IfOk result (IsNodeAt self.now span (first ∷ last ∷ [])) }
    {
        let left = Rc::new(self.alloc, first)?;
        let right = Rc::new(self.alloc, last)?;
        self.node(ExprKind::Or { left, right }, span)
    }

    fn binary(&self, op: BinaryOp, first: Expr, last: Expr, span: Span) -> Result<Expr, AllocError>
        ensures tree { IfOk result (λ e.
            bare_expr e ≡ BinaryApp op (bare_expr first) (bare_expr last)) }
        ensures place { IfOk result (IsNodeAt self.now span (first ∷ last ∷ [])) }
    {
        self.at(span)?.binary_app(self.alloc, op, first, last)
    }

    /// An attribute of an operand, which ends here.
    pub(crate) fn get(
        &self,
        operand: Operand,
        attr: RcStr,
        stop: usize,
    ) -> Result<Operand, AllocError>
        ensures tree { IfOk result (λ h.
            bare_expr h.expr ≡ GetAttr (bare_expr operand.expr) (rc_str_bytes attr)) }
        ensures precedence { IfOk result (λ h. h.precedence ≡ precedences.Member) }
        ensures start { IfOk result (λ h. h.span.start ≡ operand.span.start) }
        ensures stop { IfOk result (λ h. h.span.stop ≡ stop) }
        ensures place { IfOk result (λ h. IsNodeAt self.now h.span (operand.expr ∷ []) h.expr) }
    {
        let span = operand.span.up_to(stop);
        let expr = self.at(span)?.get_attr(self.alloc, operand.expr, attr)?;
        Ok(Operand::member(expr, span))
    }

    /// The test for attributes, which end here.
    pub(crate) fn has(
        &self,
        operand: Operand,
        attrs: NonEmpty<RcStr>,
        stop: usize,
    ) -> Result<Operand, AllocError>
        ensures tree { IfOk result (λ h. bare_expr h.expr
            ≡ HasAttr (bare_expr operand.expr) (rc_str_bytes attrs.head) (further attrs)) }
        ensures precedence { IfOk result (λ h. h.precedence ≡ precedences.Relation) }
        ensures start { IfOk result (λ h. h.span.start ≡ operand.span.start) }
        ensures stop { IfOk result (λ h. h.span.stop ≡ stop) }
        ensures place { IfOk result (λ h. IsNodeAt self.now h.span (operand.expr ∷ []) h.expr) }
    {
        let span = operand.span.up_to(stop);
        let expr = self
            .at(span)?
            .extended_has_attr(self.alloc, operand.expr, attrs)?;
        Ok(Operand::relation(expr, span))
    }

    /// The test by a pattern, which ends here.
    pub(crate) fn like(
        &self,
        operand: Operand,
        pattern: Pattern,
        stop: usize,
    ) -> Result<Operand, AllocError>
        ensures tree { IfOk result (λ h. bare_expr h.expr ≡ Like (bare_expr operand.expr) pattern) }
        ensures precedence { IfOk result (λ h. h.precedence ≡ precedences.Relation) }
        ensures start { IfOk result (λ h. h.span.start ≡ operand.span.start) }
        ensures stop { IfOk result (λ h. h.span.stop ≡ stop) }
        ensures place { IfOk result (λ h. IsNodeAt self.now h.span (operand.expr ∷ []) h.expr) }
    {
        let span = operand.span.up_to(stop);
        let expr = self.at(span)?.like(self.alloc, operand.expr, pattern)?;
        Ok(Operand::relation(expr, span))
    }

    /// The test for a type of entities, which ends here.
    pub(crate) fn is(
        &self,
        operand: Operand,
        ty: EntityType,
        stop: usize,
    ) -> Result<Operand, AllocError>
        ensures tree { IfOk result (λ h.
            bare_expr h.expr ≡ Is (bare_expr operand.expr) (bare_entity_type ty)) }
        ensures precedence { IfOk result (λ h. h.precedence ≡ precedences.Relation) }
        ensures start { IfOk result (λ h. h.span.start ≡ operand.span.start) }
        ensures stop { IfOk result (λ h. h.span.stop ≡ stop) }
        ensures place { IfOk result (λ h. IsNodeAt self.now h.span (operand.expr ∷ []) h.expr) }
    {
        let span = operand.span.up_to(stop);
        let expr = self.at(span)?.is_entity_type(self.alloc, operand.expr, ty)?;
        Ok(Operand::relation(expr, span))
    }

    /// A set.
    pub(crate) fn set(&self, members: Vec<Expr>, span: Span) -> Result<Expr, ParseFailure>
        ensures tree { IfOk result (λ e. bare_expr e ≡ Set (bare_exprs members.items)) }
        ensures place { IfOk result (IsNodeAt self.now span members.items) }
        ensures refused { IfErr result (IsAbout span) }
        ensures complete { IfErr result (λ e. e ≡ Memory) }
    {
        Ok(self.at(span)?.set(self.alloc, members)?)
    }

    /// A record, which has each key once.
    pub(crate) fn record(&self, pairs: Vec<(RcStr, Expr)>, span: Span) -> Result<Expr, ParseFailure>
        ensures tree { IfOk result (λ e.
            IsRecordTree (meant_pairs bare_expr pairs.items) (bare_expr e)) }
        ensures places { span.start ≤ span.stop
            → ArePlaced (source_of self.now) span.start span.stop (map (λ p. p.1) pairs.items)
            → IfOk result (IsPlaced (source_of self.now) span.start span.stop) }
        ensures refused { IfErr result (IsAbout span) }
        ensures complete { IfErr result (λ e.
            IsTrue (are_distinct (keys (meant_pairs bare_expr pairs.items))) → e ≡ Memory) }
    {
        match self.at(span)?.record(self.alloc, pairs) {
            Ok(expr) => Ok(expr),
            Err(error) => Err(refused_record(error, span)),
        }
    }
}

// Why a record that stands here is refused.
fn refused_record(error: ExpressionConstructionError, span: Span) -> ParseFailure
    ensures about { IsAbout span result }
    ensures memory { error ≡ build_errors.Memory → result ≡ Memory }
{
    match error {
        ExpressionConstructionError::Memory => ParseFailure::Memory,
        _ => ParseFailure::Syntax(span, "a key stands twice in this record"),
    }
}
