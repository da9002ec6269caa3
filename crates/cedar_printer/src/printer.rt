//! The builder of texts in Cedar's own syntax.
ghost use Rattle.std.specs.Prelude.{◌≡◌, IfOk, IfErr, Ok, map, string_bytes};
ghost use Rattle.cedar_builders.specs.Answers.{Gives, never};
ghost use Rattle.cedar_builders.specs.BareExpr.{Text};
ghost use Rattle.cedar_builders.specs.Environment.{empty, fold};
ghost use Rattle.cedar_builders.specs.declared.expression_construction_errors.ExpressionConstructionError.TheVariants as error;
ghost use Rattle.cedar_exprs.specs.BareExpr.{bare_expr};
ghost use Rattle.cedar_builders.specs.Errors.{OnDuplicateKey};
ghost use Rattle.cedar_builders.specs.Keys.{keys_of, meant_pairs, IsAscending, HasRepeat};
ghost use Rattle.cedar_names.specs.PlainNames.{bare_name};
ghost use Rattle.cedar_printer.specs.Phrases.{phrase_of, rope_phrase};
ghost use Rattle.cedar_terms.specs.declared.precedence.Precedence.{Precedence};
ghost use Rattle.semantics_printing.specs.PolicyTexts.{policy_text_ops};
ghost use Rattle.semantics_printing.specs.Texts.{IsTextOfTree};
ghost use Rattle.semantics_printing.specs.Writable.{IsWritable};

use crate::phrase::{
    Phrase, RopePhrase, make_attribute, make_call, make_conditional, make_fields, make_infix,
    make_method, make_path, make_prefix, make_row,
};
use cedar_builders::{
    BuildFault, ExprBuilder, ExprBuilderInfallibleBuild, ExpressionConstructionError, Rope,
};
use cedar_exprs::Expr;
use cedar_names::{Loc, Name, NonEmpty, SlotId};
use cedar_terms::{
    BinaryOp, EntityType, Escaped, Literal, Pattern, Precedence, UnaryOp, Unknown, Var,
};
use semantics_printing::laws::printed_texts_stand;
use std::alloc::{AllocError, Global};
use std::convert::Infallible;
use std::rc::RcStr;

/// The text of an expression in Cedar's own syntax, and how tightly it binds.
///
/// The contract is that of `into_expr` at the builder `PolicyText`: the fold of the expression's
/// bare tree at the builder's operations. A text keeps `true && false` as it is, where substitution
/// makes `false` of it: so the builder is not lawful, and texts are made of what was substituted
/// before. The text is one of the grammar's, and stands for the expression's tree; but the annotation
/// of an unknown is not written, and a call of `unknown` on one text is parsed as an unknown.
pub fn policy_text(alloc: Global, expr: &Expr) -> Result<Phrase, AllocError>
    ensures text { IfOk result (λ p.
        fold policy_text_ops empty (bare_expr expr.now) ≡ Ok (phrase_of p)) }
    ensures stands { IfOk result (λ p. IsWritable (bare_expr expr.now)
        → IsTextOfTree (string_bytes p.text) (bare_expr expr.now)) }
{
    printed_texts_stand();
    let phrase = expr.into_expr::<PolicyText>(alloc)?;
    phrase.to_phrase(alloc)
}

/// The builder: of the conjunction of `a` and `1 < 2` it makes `a && 1 < 2`, with brackets where an
/// operand binds less tightly than its place wants. A sign's operand with a sign of its own counts
/// as such, so that it makes `!(!a)`. The texts of the children are not copied: their pieces are
/// those of their node.
#[derive(Debug, Drop)]
pub struct PolicyText;

impl ExprBuilder for PolicyText {
    type Expr = RopePhrase;

    type Data = ();

    type BuildError = Infallible;

    // An expression means its text, and how tightly that binds.
    ghost Meaning = { Text × Precedence };

    ghost Fault = { ⊥ };

    ghost ops = { policy_text_ops };

    ghost meaning_of = { rope_phrase };

    ghost fault_of = { never };

    fn new() -> PolicyText {
        PolicyText
    }

    fn with_data(_data: ()) -> PolicyText {
        PolicyText
    }

    fn loc(&self) -> Option<&Loc> {
        None
    }

    fn data(&self) -> &() {
        &()
    }

    fn with_maybe_source_loc(self, _source_loc: Option<Loc>) -> PolicyText {
        self
    }

    fn val(self, alloc: Global, literal: Literal) -> Result<RopePhrase, AllocError> {
        let precedence = Precedence::of_literal(&literal);
        let text = Rope::new(alloc, format!(in alloc; "{literal}")?);
        Ok(RopePhrase { text, precedence })
    }

    fn var(self, alloc: Global, var: Var) -> Result<RopePhrase, AllocError> {
        Ok(RopePhrase::of_word(alloc, format!(in alloc; "{var}")?))
    }

    fn slot(self, alloc: Global, slot: SlotId) -> Result<RopePhrase, AllocError> {
        Ok(RopePhrase::of_word(alloc, format!(in alloc; "{slot}")?))
    }

    fn unknown(self, alloc: Global, unknown: Unknown) -> Result<RopePhrase, AllocError> {
        let name = Escaped(&unknown.name);
        let text = format!(in alloc; "unknown(\"{name}\")")?;
        Ok(RopePhrase::of_word(alloc, text))
    }

    fn ite(
        self,
        alloc: Global,
        test_expr: RopePhrase,
        then_expr: RopePhrase,
        else_expr: RopePhrase,
    ) -> Result<RopePhrase, AllocError> {
        make_conditional(alloc, test_expr.text, then_expr.text, else_expr.text)
    }

    fn and(
        self,
        alloc: Global,
        left: RopePhrase,
        right: RopePhrase,
    ) -> Result<RopePhrase, AllocError> {
        let left = left.at(alloc, Precedence::And)?;
        let right = right.at(alloc, Precedence::Relation)?;
        make_infix(Precedence::And, left, "&&", right)
    }

    fn or(
        self,
        alloc: Global,
        left: RopePhrase,
        right: RopePhrase,
    ) -> Result<RopePhrase, AllocError> {
        let left = left.at(alloc, Precedence::Or)?;
        let right = right.at(alloc, Precedence::And)?;
        make_infix(Precedence::Or, left, "||", right)
    }

    fn unary_app(
        self,
        alloc: Global,
        op: UnaryOp,
        arg: RopePhrase,
    ) -> Result<RopePhrase, AllocError> {
        match op {
            UnaryOp::Not => make_prefix(alloc, "!", arg),
            UnaryOp::Neg => make_prefix(alloc, "-", arg),
            UnaryOp::IsEmpty => make_method(
                alloc,
                arg,
                "isEmpty",
                Rope::new(alloc, String::new(alloc)),
            ),
        }
    }

    fn binary_app(
        self,
        alloc: Global,
        op: BinaryOp,
        arg1: RopePhrase,
        arg2: RopePhrase,
    ) -> Result<RopePhrase, AllocError> {
        let sign = format!(in alloc; "{op}")?;
        match Precedence::of_infix(op) {
            Some((precedence, left, right)) => {
                let left = arg1.at(alloc, left)?;
                make_infix(precedence, left, &sign, arg2.at(alloc, right)?)
            }
            None => make_method(alloc, arg1, &sign, arg2.text),
        }
    }

    fn call_extension_fn(
        self,
        alloc: Global,
        fn_name: Name,
        args: Vec<RopePhrase>,
    ) -> Result<RopePhrase, BuildFault<Infallible>>
        ensures { Gives rope_phrase never
            (policy_text_ops.call_of (bare_name fn_name) (map rope_phrase args.items)) result }
    {
        let name = format!(in alloc; "{fn_name}")?;
        Ok(make_call(alloc, name, args)?)
    }

    fn get_attr(
        self,
        alloc: Global,
        expr: RopePhrase,
        attr: RcStr,
    ) -> Result<RopePhrase, AllocError> {
        let mut text = expr.at(alloc, Precedence::Member)?;
        text.push_str(&make_attribute(alloc, &attr)?)?;
        Ok(RopePhrase::member(text))
    }

    fn extended_has_attr(
        self,
        alloc: Global,
        expr: RopePhrase,
        attrs: NonEmpty<RcStr>,
    ) -> Result<RopePhrase, AllocError> {
        let left = expr.at(alloc, Precedence::Sum)?;
        let path = Rope::new(alloc, make_path(alloc, &attrs)?);
        make_infix(Precedence::Relation, left, "has", path)
    }

    fn like(
        self,
        alloc: Global,
        expr: RopePhrase,
        pattern: Pattern,
    ) -> Result<RopePhrase, AllocError> {
        let left = expr.at(alloc, Precedence::Sum)?;
        let pattern = Rope::new(alloc, format!(in alloc; "\"{pattern}\"")?);
        make_infix(Precedence::Relation, left, "like", pattern)
    }

    fn is_entity_type(
        self,
        alloc: Global,
        expr: RopePhrase,
        entity_type: EntityType,
    ) -> Result<RopePhrase, AllocError> {
        let left = expr.at(alloc, Precedence::Sum)?;
        let entity_type = Rope::new(alloc, format!(in alloc; "{entity_type}")?);
        make_infix(Precedence::Relation, left, "is", entity_type)
    }

    fn set(self, alloc: Global, members: Vec<RopePhrase>) -> Result<RopePhrase, AllocError>
        ensures { IfOk result (λ p.
            rope_phrase p ≡ policy_text_ops.set_of (map rope_phrase members.items)) }
    {
        let members = make_row(alloc, members.into_iter())?;
        Ok(RopePhrase::member(members.between(alloc, "[", "]")?))
    }

    fn record(
        self,
        alloc: Global,
        pairs: Vec<(RcStr, RopePhrase)>,
    ) -> Result<RopePhrase, ExpressionConstructionError>
        ensures means { IsAscending (keys_of pairs.items) → IfOk result (λ p.
            rope_phrase p ≡ policy_text_ops.record_of (meant_pairs rope_phrase pairs.items)) }
        ensures accepts { IsAscending (keys_of pairs.items) → IfErr result (λ e. e ≡ error.Memory) }
        ensures refuses { IfErr result (OnDuplicateKey (λ _. HasRepeat (keys_of pairs.items))) }
    {
        let fields = make_row(alloc, make_fields(alloc, pairs)?.into_iter())?;
        Ok(RopePhrase::member(fields.between(alloc, "{", "}")?))
    }
}

impl ExprBuilderInfallibleBuild for PolicyText {}
