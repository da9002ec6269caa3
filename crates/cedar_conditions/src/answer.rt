//! The answer to a condition.
ghost use Rattle.std.specs.Prelude.{◌≡◌, Err, IfOk, Ok};
ghost use Rattle.cedar_exprs.specs.BareExpr.{bare_expr};
ghost use Rattle.cedar_values.specs.BareValues.{bare_value};
ghost use Rattle.semantics_request.specs.Evaluator.{evaluated};
ghost use Rattle.cedar_evaluator.specs.Outcomes.{bare_fault, bare_outcome, fault_in, unplaced};
ghost use Rattle.cedar_request_evaluator.specs.Knowledge.{functions_of, knowledge_of};
ghost use Rattle.cedar_bindings.specs.Names.{named, names_of};
ghost use Rattle.cedar_conditions.specs.Answers.{
  IsAnswerOf,
  IsAnswerTo,
  IsNoCondition,
  IsUndecided,
  IsValueText,
};

use crate::faults::fault_words;
use crate::hints::syntax_words;
use crate::problem::Problem;
use crate::refusals::refused;
use crate::unknowns::unknowns_of;
use cedar_bindings::put_names;
use cedar_builders::BuildFault;
use cedar_evaluator::{EvalFault, EvaluationFault};
use cedar_exprs::Expr;
use cedar_parser::{Excerpt, ParseError, SyntaxError, parse_expr};
use cedar_printer::policy_text;
use cedar_request::{CallableFunctions, EntityStore};
use cedar_request_evaluator::RequestEvaluator;
use cedar_request_simplifier::simplify;
use cedar_values::{ExtensionValue, Value};
use std::alloc::{AllocError, Global};
use std::collections::HashMap;
use std::fmt;
use std::rc::RcStr;

/// What comes of a condition.
#[derive(Debug, Drop)]
pub enum Answer {
    /// Its value, as `policy_text` writes it.
    Value(String),
    /// Its residual, where parts are not known.
    Residual(Residual),
    /// The fault which it has whatever else comes to be known.
    Fault(Problem),
    /// Why the text is no condition.
    NoCondition(Problem),
}

/// The residual of a condition, and what that asks for.
#[derive(Debug, Drop)]
pub struct Residual {
    /// A condition again, as `policy_text` writes it.
    pub text: String,
    /// What it asks for that is not known, each once, in ascending order: `context`,
    /// `?principal`, `unknown("limit")`; `entities`, for what the store of entities alone knows.
    pub unknowns: Vec<String>,
}

impl fmt::Display for Answer {
    fn fmt<W: fmt::Write>(&self, f: &mut fmt::Formatter<W>) -> fmt::Result {
        match self {
            Answer::Value(text) => f.write_str(text),
            Answer::Residual(residual) => f.write_str(&residual.text),
            Answer::Fault(problem) | Answer::NoCondition(problem) => problem.fmt(f),
        }
    }
}

/// The answer to a condition by what an evaluator knows, where `names` says what variables and
/// unknowns stand for.
///
/// ```rust
/// let functions = &BuiltinFunctions;
/// let evaluator = RequestEvaluator::new(&request, &entities, functions, bindings.values());
/// let text = "principal in resource.viewers";
/// let answer = evaluate_condition(alloc, text, bindings.named(), &evaluator)?;
/// ```
///
/// It is what the condition's tree evaluates to, in which each name stands for what it is bound to;
/// or, where a part of it is not known, the residual of the tree. An expression is no condition if
/// it calls what is no function or method of Cedar, or one with another number of arguments, or a
/// function as a method or a method as a function; if sets and records nest more than 1,000 deep;
/// or if `is .. in` makes too many nodes of it.
#[tactic(auto, using(crate::proofs::Answering::answer_to, crate::proofs::Answering::no_expression, crate::proofs::Answering::refused_tree))]
pub fn evaluate_condition<X: ExtensionValue + Ord, S: EntityStore<X>, T: CallableFunctions<X>>(
    alloc: Global,
    text: &str,
    names: &HashMap<RcStr, Expr>,
    evaluator: &RequestEvaluator<'_, X, S, T>,
) -> Result<Answer, AllocError>
    ensures { IfOk result (IsAnswerTo X.cmp X.eq X.canonical
        (functions_of T.bare_functions evaluator.now) (knowledge_of S.bare_entities evaluator.now)
        (names_of names.now) text.now) }
{
    match parse_expr(alloc, text) {
        Ok(parsed) => match refused(alloc, text, &parsed)? {
            Some(problem) => Ok(Answer::NoCondition(problem)),
            None => answer_parsed(alloc, text, &parsed, names, evaluator),
        },
        Err(ParseError::Syntax(error)) => no_condition(alloc, text, &error, names),
        Err(ParseError::Memory) => Err(AllocError),
    }
}

fn no_condition(
    alloc: Global,
    text: &str,
    error: &SyntaxError,
    names: &HashMap<RcStr, Expr>,
) -> Result<Answer, AllocError>
    ensures { IfOk result IsNoCondition }
{
    let words = syntax_words(alloc, text, error, names)?;
    Ok(Answer::NoCondition(Problem::new(alloc, error.excerpt(text), words)?))
}

// The answer to what a text was parsed as.
fn answer_parsed<X: ExtensionValue + Ord, S: EntityStore<X>, T: CallableFunctions<X>>(
    alloc: Global,
    text: &str,
    parsed: &Expr,
    names: &HashMap<RcStr, Expr>,
    evaluator: &RequestEvaluator<'_, X, S, T>,
) -> Result<Answer, AllocError>
    ensures { IfOk result (IsAnswerOf X.cmp X.eq X.canonical
        (functions_of T.bare_functions evaluator.now) (knowledge_of S.bare_entities evaluator.now)
        (named (names_of names.now) (bare_expr parsed.now))) }
{
    let expr = put_names(alloc, parsed, names)?;
    answer_expr(alloc, text, &expr, evaluator)
}

// The answer to an expression.
#[tactic(auto, using(crate::proofs::Answering::undecided_by_call))]
fn answer_expr<X: ExtensionValue + Ord, S: EntityStore<X>, T: CallableFunctions<X>>(
    alloc: Global,
    text: &str,
    expr: &Expr,
    evaluator: &RequestEvaluator<'_, X, S, T>,
) -> Result<Answer, AllocError>
    ensures { IfOk result (IsAnswerOf X.cmp X.eq X.canonical
        (functions_of T.bare_functions evaluator.now) (knowledge_of S.bare_entities evaluator.now)
        (bare_expr expr.now)) }
{
    match evaluator.evaluate(alloc, expr) {
        Ok(outcome) => answer_outcome(alloc, text, expr, outcome.into_result(), evaluator),
        Err(BuildFault::Build(_)) => answer_residual(alloc, expr, evaluator),
        Err(BuildFault::Memory) => Err(AllocError),
    }
}

// The answer to an expression that has this outcome.
#[tactic(auto, using(crate::proofs::Answering::value_answer))]
fn answer_outcome<X: ExtensionValue + Ord, S: EntityStore<X>, T: CallableFunctions<X>>(
    alloc: Global,
    text: &str,
    expr: &Expr,
    outcome: Result<Value<X>, EvaluationFault>,
    evaluator: &RequestEvaluator<'_, X, S, T>,
) -> Result<Answer, AllocError>
    ensures { let F = functions_of T.bare_functions evaluator.now in
        let k = knowledge_of S.bare_entities evaluator.now in
        evaluated X.cmp X.eq F k (bare_expr expr.now) ≡ Ok (bare_outcome (unplaced outcome))
        → IfOk result (IsAnswerOf X.cmp X.eq X.canonical F k (bare_expr expr.now)) }
{
    match outcome {
        Ok(value) => answer_value(alloc, &value),
        Err(fault) => answer_fault(alloc, text, expr, &fault, evaluator),
    }
}

fn answer_value<X: ExtensionValue + Ord>(
    alloc: Global,
    value: &Value<X>,
) -> Result<Answer, AllocError>
    ensures { IfOk result (IsValueText X.canonical (bare_value value.now)) }
{
    let expr = value.to_expr(alloc)?;
    Ok(Answer::Value(policy_text(alloc, &expr)?.text))
}

// The answer to an expression that has this fault.
#[tactic(auto, using(crate::proofs::Answering::fault_answer, crate::proofs::Answering::undecided_by_fault))]
fn answer_fault<X: ExtensionValue + Ord, S: EntityStore<X>, T: CallableFunctions<X>>(
    alloc: Global,
    text: &str,
    expr: &Expr,
    fault: &EvaluationFault,
    evaluator: &RequestEvaluator<'_, X, S, T>,
) -> Result<Answer, AllocError>
    ensures { let F = functions_of T.bare_functions evaluator.now in
        let k = knowledge_of S.bare_entities evaluator.now in
        evaluated X.cmp X.eq F k (bare_expr expr.now) ≡ Ok (Err (bare_fault (fault_in fault.now)))
        → IfOk result (IsAnswerOf X.cmp X.eq X.canonical F k (bare_expr expr.now)) }
{
    match fault.fault() {
        EvalFault::Open => answer_residual(alloc, expr, evaluator),
        EvalFault::WrongType | EvalFault::Overflow | EvalFault::Missing | EvalFault::Store => {
            Ok(Answer::Fault(fault_problem(alloc, text, expr, fault, evaluator)?))
        }
    }
}

// The residual of what has no value yet.
fn answer_residual<X: ExtensionValue + Ord, S: EntityStore<X>, T: CallableFunctions<X>>(
    alloc: Global,
    expr: &Expr,
    evaluator: &RequestEvaluator<'_, X, S, T>,
) -> Result<Answer, AllocError>
    ensures { let F = functions_of T.bare_functions evaluator.now in
        let k = knowledge_of S.bare_entities evaluator.now in
        IsUndecided (evaluated X.cmp X.eq F k (bare_expr expr.now))
        → IfOk result (IsAnswerOf X.cmp X.eq X.canonical F k (bare_expr expr.now)) }
{
    let residual = simplify(alloc, evaluator, expr)?.into_expr(alloc)?;
    Ok(Answer::Residual(Residual {
        text: policy_text(alloc, &residual)?.text,
        unknowns: unknowns_of(alloc, &residual)?,
    }))
}

// A fault with its place in the text.
fn fault_problem<X: ExtensionValue + Ord, S: EntityStore<X>, T: CallableFunctions<X>>(
    alloc: Global,
    text: &str,
    expr: &Expr,
    fault: &EvaluationFault,
    evaluator: &RequestEvaluator<'_, X, S, T>,
) -> Result<Problem, AllocError> {
    let words = fault_words(alloc, expr, fault, evaluator)?;
    Problem::new(alloc, fault_piece(text, expr, fault), words)
}

// The piece of a text at which a fault came up.
fn fault_piece<'a>(text: &'a str, expr: &Expr, fault: &EvaluationFault) -> Excerpt<'a> {
    let (start, stop) = match fault.source_loc().or(expr.source_loc()) {
        Some(place) => (place.start, place.stop),
        None => (0, text.len()),
    };
    Excerpt { text, start, stop }
}
