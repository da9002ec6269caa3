//! The state of a script: a stack of expressions and the bindings of names, and what each command
//! does to them.
//!
//! No command of some size is inlined: else `work` would keep room for the locals of all commands,
//! and set it to zero at each line.
ghost use Rattle.std.specs.Prelude.{
  ◌≡◌,
  ◌≢◌,
  [],
  ◌∷◌,
  Ok,
  None,
  drop,
  take,
  reverse,
  ◌+◌,
  ◌<◌,
  ◌↔◌,
  OnOk,
  IfOk,
  IsErrOf,
  IfErr,
  map,
  string_bytes,
  vec_len,
};
ghost use Rattle.std.specs.Rc.{rc_str_bytes};
ghost use Rattle.cedar_names.specs.PlainNames.{bare_name};
ghost use Rattle.cedar_terms.specs.Literals.{StringLit};
ghost use Rattle.cedar_terms.specs.Unknowns.{bare_annotation};
ghost use Rattle.cedar_builders.specs.BareExpr.{
  Lit,
  Unknown as unknown_tree,
  And,
  Or,
  ExtensionFunctionApp as call_tree,
  Set as members,
};
ghost use Rattle.cedar_builders.specs.TypeClash.{clash};
ghost use Rattle.cedar_builders.specs.Environment.{empty, fold};
ghost use Rattle.cedar_builders.specs.Fold.{on_one};
ghost use Rattle.cedar_builders.specs.Trees.{tree_ops};
ghost use Rattle.cedar_exprs.specs.BareExpr.{bare_expr, bare_exprs};
ghost use Rattle.cedar_builders.specs.Keys.{keyed};
ghost use Rattle.semantics_values.specs.Reading.{IsValueOf};
ghost use Rattle.cedar_values.specs.BareValues.{bare_value};
ghost use Rattle.cedar_evaluator.specs.Texts.{outcome_text};
ghost use Rattle.cedar_script.specs.CommandEffects.{
  needed_count,
  made_count,
  key_pairs,
  record_of,
  residual_of,
  Works,
  Binds,
  Shows,
};
ghost use Rattle.cedar_script.specs.CommandWords.{texts_now};
ghost use Rattle.cedar_script.specs.CommandErrors.{IsCallError, IsValueError};
ghost use Rattle.cedar_sketch.specs.SketchTexts.{sketch_ops};
ghost use Rattle.cedar_script.specs.Stack.{
  stack_of,
  depth,
  bindings_of,
  environment,
  binding_of,
  Exchanges,
  IsBoundTo,
  IsBoundToValueOf,
  TopHas,
  ReplacesOne,
  ReplacesTwo,
  ReplacesThree,
  ReplacesMany,
};
ghost use Rattle.cedar_script.specs.declared.line.Command.{Command};

use crate::command_error::CommandError;
use crate::line::Command;
use cedar_builders::ExprBuilder as Builder;
use cedar_evaluator::{Evaluator, evaluate};
use cedar_exprs::{Expr, ExprBuilder, ExprKind};
use cedar_names::{Name, NonEmpty};
use cedar_simplifier::{Simplifier, simplify};
use cedar_sketch::Sketch;
use cedar_terms::{Literal, Type, Unknown};
use cedar_values::{NoExtension, Value};
use std::alloc::{AllocError, Global};
use std::collections::HashMap;
use std::mem;
use std::rc::{Rc, RcStr};

/// What a command shows, if it shows something, or why its line is refused.
pub type CommandOutput = Result<Option<String>, CommandError>;

/// A stack of expressions, and what names are bound to.
#[derive(Debug, Drop)]
pub struct State {
    stack: Vec<Expr>,
    bindings: HashMap<RcStr, Value>,
}

impl State {
    /// An empty stack, and nothing bound.
    pub fn new(alloc: Global) -> State
        ensures { depth result ≡ 0 }
    {
        State {
            stack: Vec::new(alloc),
            bindings: HashMap::new(alloc),
        }
    }

    /// Works a command, and gives the text that it shows, if it shows one.
    ///
    /// Before anything else it is checked that the stack has the expressions that the command
    /// needs. After an error some of them may be gone.
    pub fn work(&mut self, alloc: Global, command: Command<'_>) -> CommandOutput
        ensures works { OnOk result
            (Works ⟦<Simplifier as Builder>⟧.ops (environment (bindings_of self.old))
            command.entry (stack_of self.old) (stack_of self.new)) }
        ensures binds { OnOk result
            (Binds ⟦<NoExtension as Ord>⟧.cmp command.entry self.old self.new) }
        ensures depth { OnOk result
            (depth self.new + needed_count command.entry
            ≡ depth self.old + made_count command.entry) }
        ensures too_few { IsErrOf result CommandError.TooFewExpressions
            ↔ (depth self.old < needed_count command.entry) }
        ensures shows { IfOk result
            (Shows ⟦<Evaluator as Builder>⟧.ops (environment (bindings_of self.old)) command.entry
            (stack_of self.old)) }
    {
        match command {
            Command::Bool(value) => self.push(Expr::val(Literal::Bool(value))),
            Command::Long(value) => self.push(Expr::val(Literal::Long(value))),
            Command::String(text) => self.push(make_string(alloc, text)?),
            Command::Var(var) => self.push(Expr::var(var)),
            Command::Slot(slot) => self.push(Expr::slot(slot)),
            Command::Unknown(name, annotation) => self.push(make_unknown(alloc, name, annotation)?),
            Command::If => self.make_conditional(alloc),
            Command::And => self.apply_two(alloc, Expr::and),
            Command::Or => self.apply_two(alloc, Expr::or),
            Command::RawAnd => self.apply_two(alloc, make_raw_and),
            Command::RawOr => self.apply_two(alloc, make_raw_or),
            Command::Unary(op) => self.apply_one(alloc, |alloc, e| Expr::unary_app(alloc, op, e)),
            Command::Binary(op) => {
                self.apply_two(alloc, |alloc, a, b| Expr::binary_app(alloc, op, a, b))
            }
            Command::Call(name, count) => self.make_call(alloc, name, count),
            Command::Get(attr) => self.apply_one(alloc, |alloc, e| make_get(alloc, e, attr)),
            Command::Has(attr) => self.apply_one(alloc, |alloc, e| make_has(alloc, e, attr)),
            Command::ExtHas(attrs) => {
                self.apply_one(alloc, |alloc, e| make_extended_has(alloc, e, attrs))
            }
            Command::Like(pattern) => {
                self.apply_one(alloc, |alloc, e| Expr::like(alloc, e, pattern))
            }
            Command::Is(ty) => self.apply_one(alloc, |alloc, e| Expr::is_entity_type(alloc, e, ty)),
            Command::Set(count) => self.make_set(alloc, count),
            Command::Record(keys) => self.make_record(alloc, keys),
            Command::Bind(name) => self.bind(alloc, name),
            Command::Substitute => self.substitute(alloc),
            Command::Typed => self.substitute_typed(alloc),
            Command::Show => self.show(alloc),
            Command::Eval => self.evaluate(alloc),
            Command::Simplify => self.simplify(alloc),
        }
    }

    #[tactic(auto, using(crate::proofs::Stacks::reverse_push))]
    fn push(&mut self, expr: Expr) -> CommandOutput
        ensures shows { IfOk result (λ shown. shown ≡ None) }
        ensures pushed { OnOk result (stack_of self.new ≡ expr ∷ stack_of self.old) }
        ensures exchanges { Exchanges 0 1 self.old self.new result }
        ensures refused { IfErr result (λ e. e ≡ CommandError.Memory) }
    {
        // `push` would move it once more, since its error has the expression.
        self.stack.reserve(1)?;
        self.stack.push_reserved(expr);
        Ok(None)
    }

    // Takes the top of the stack.
    #[tactic(auto, using(crate::proofs::Stacks::reverse_push))]
    fn pop(&mut self) -> Result<Expr, CommandError>
        ensures popped { IfOk result (λ top. stack_of self.old ≡ top ∷ stack_of self.new) }
        ensures exchanges { Exchanges 1 0 self.old self.new result }
        ensures too_few { IfErr result (λ e.
            (e ≡ CommandError.TooFewExpressions) × (depth self.old < 1)) }
    {
        self.stack.pop().ok_or(CommandError::TooFewExpressions)
    }

    // Takes this many expressions, and gives the lowest first.
    #[tactic(auto, using(crate::proofs::Stacks::past_index, crate::proofs::Stacks::before_index))]
    fn pop_many(&mut self, alloc: Global, count: usize) -> Result<Vec<Expr>, CommandError>
        ensures popped { IfOk result (λ exprs.
            exprs.items ≡ reverse (take count (stack_of self.old))) }
        ensures below { OnOk result (stack_of self.new ≡ drop count (stack_of self.old)) }
        ensures count { IfOk result (λ exprs. vec_len exprs ≡ count) }
        ensures exchanges { Exchanges count 0 self.old self.new result }
        ensures too_few { IsErrOf result CommandError.TooFewExpressions ↔ (depth self.old < count) }
    {
        match self.stack.len().checked_sub(count) {
            // The whole stack, as it lies.
            Some(0) => Ok(mem::replace(&mut self.stack, Vec::new(alloc))),
            Some(kept) => Ok(self.stack.split_off(kept)?),
            None => Err(CommandError::TooFewExpressions),
        }
    }

    // Takes the top, and pushes what is made of it.
    #[inline(never)]
    fn apply_one<F>(&mut self, alloc: Global, make: F) -> CommandOutput
    where
        F: FnOnce(Global, Expr) -> Result<Expr, AllocError>,
        requires { F.IsAlwaysCallable make }
        ensures shows { IfOk result (λ shown. shown ≡ None) }
        ensures made { OnOk result (ReplacesOne
            (λ a e. F.post make alloc a (Ok e))
            (stack_of self.old) (stack_of self.new)) }
        ensures exchanges { Exchanges 1 1 self.old self.new result }
        ensures too_few { IsErrOf result CommandError.TooFewExpressions ↔ (depth self.old < 1) }
    {
        let top = self.pop()?;
        self.push(make(alloc, top)?)
    }

    // Takes the two top expressions, and pushes what is made of the lower and the upper one.
    #[inline(never)]
    fn apply_two<F>(&mut self, alloc: Global, make: F) -> CommandOutput
    where
        F: FnOnce(Global, Expr, Expr) -> Result<Expr, AllocError>,
        requires { F.IsAlwaysCallable make }
        ensures shows { IfOk result (λ shown. shown ≡ None) }
        ensures made { OnOk result (ReplacesTwo
            (λ a b e. F.post make alloc a b (Ok e))
            (stack_of self.old) (stack_of self.new)) }
        ensures exchanges { Exchanges 2 1 self.old self.new result }
        ensures too_few { IsErrOf result CommandError.TooFewExpressions ↔ (depth self.old < 2) }
    {
        let upper = self.pop()?;
        let lower = self.pop()?;
        self.push(make(alloc, lower, upper)?)
    }

    // Takes the test and the branches, the test lowest, and pushes their conditional.
    #[inline(never)]
    fn make_conditional(&mut self, alloc: Global) -> CommandOutput
        ensures shows { IfOk result (λ shown. shown ≡ None) }
        ensures made { OnOk result (ReplacesThree
            (λ a b c e. bare_expr e ≡ tree_ops.if_of (bare_expr a) (bare_expr b) (bare_expr c))
            (stack_of self.old) (stack_of self.new)) }
        ensures exchanges { Exchanges 3 1 self.old self.new result }
        ensures too_few { IsErrOf result CommandError.TooFewExpressions ↔ (depth self.old < 3) }
    {
        let else_expr = self.pop()?;
        let then_expr = self.pop()?;
        let test_expr = self.pop()?;
        self.push(Expr::ite(alloc, test_expr, then_expr, else_expr)?)
    }

    // Takes this many expressions, and pushes the call of the function on them.
    #[inline(never)]
    fn make_call(&mut self, alloc: Global, name: Name, count: usize) -> CommandOutput
        ensures shows { IfOk result (λ shown. shown ≡ None) }
        ensures made { OnOk result (ReplacesMany count
            (λ args e. bare_expr e ≡ call_tree (bare_name name) (bare_exprs args))
            (stack_of self.old) (stack_of self.new)) }
        ensures exchanges { Exchanges count 1 self.old self.new result }
        ensures too_few { IsErrOf result CommandError.TooFewExpressions ↔ (depth self.old < count) }
    {
        let args = self.pop_many(alloc, count)?;
        self.push(Expr::call_extension_fn(alloc, name, args)?)
    }

    // Takes this many expressions, and pushes the set of them.
    #[inline(never)]
    fn make_set(&mut self, alloc: Global, count: usize) -> CommandOutput
        ensures shows { IfOk result (λ shown. shown ≡ None) }
        ensures made { OnOk result (ReplacesMany count
            (λ es e. bare_expr e ≡ members (bare_exprs es))
            (stack_of self.old) (stack_of self.new)) }
        ensures exchanges { Exchanges count 1 self.old self.new result }
        ensures too_few { IsErrOf result CommandError.TooFewExpressions ↔ (depth self.old < count) }
    {
        let members = self.pop_many(alloc, count)?;
        self.push(Expr::set(alloc, members)?)
    }

    // Takes an expression for each key, and pushes the record of them.
    #[inline(never)]
    fn make_record(&mut self, alloc: Global, keys: Vec<&str>) -> CommandOutput
        ensures shows { IfOk result (λ shown. shown ≡ None) }
        ensures made { OnOk result (ReplacesMany (vec_len keys.entry)
            (λ values e. bare_expr e ≡ record_of keys.entry.items values)
            (stack_of self.old) (stack_of self.new)) }
        ensures exchanges { Exchanges (vec_len keys.entry) 1 self.old self.new result }
        ensures too_few { IsErrOf result CommandError.TooFewExpressions
            ↔ (depth self.old < vec_len keys.entry) }
    {
        let values = self.pop_many(alloc, keys.len())?;
        self.push(make_keyed_record(alloc, keys, values)?)
    }

    // Takes the top as a value, and binds the name to it.
    #[inline(never)]
    fn bind(&mut self, alloc: Global, name: &str) -> CommandOutput
        ensures shows { IfOk result (λ shown. shown ≡ None) }
        ensures bound { OnOk result (TopHas
            (λ top. IsBoundToValueOf ⟦<NoExtension as Ord>⟧.cmp name.now (bare_expr top)
            (environment (bindings_of self.old)) (environment (bindings_of self.new)))
            (stack_of self.old)) }
        ensures below { OnOk result (stack_of self.new ≡ drop 1 (stack_of self.old)) }
        ensures depth { OnOk result (depth self.new + 1 ≡ depth self.old) }
        ensures too_few { IsErrOf result CommandError.TooFewExpressions ↔ (depth self.old < 1) }
    {
        let value = into_value(alloc, self.pop()?)?;
        self.bind_to(alloc, name, value)
    }

    // Binds the name to a value, in place of an earlier binding.
    fn bind_to(&mut self, alloc: Global, name: &str, value: Value) -> CommandOutput
        ensures shows { IfOk result (λ shown. shown ≡ None) }
        ensures bound { OnOk result
            (IsBoundTo name.now (binding_of (bare_value value))
            (environment (bindings_of self.old)) (environment (bindings_of self.new))) }
        ensures stack { stack_of self.new ≡ stack_of self.old }
        ensures depth { depth self.new ≡ depth self.old }
        ensures refused { IfErr result (λ e. e ≡ CommandError.Memory) }
    {
        let name = RcStr::from_str(alloc, name)?;
        self.bindings.insert(name, value)?;
        Ok(None)
    }

    // Replaces the top by its substitution.
    #[inline(never)]
    fn substitute(&mut self, alloc: Global) -> CommandOutput
        ensures shows { IfOk result (λ shown. shown ≡ None) }
        ensures made { OnOk result (ReplacesOne
            (λ a e. fold tree_ops (environment (bindings_of self.old)) (bare_expr a)
            ≡ Ok (bare_expr e))
            (stack_of self.old) (stack_of self.new)) }
        ensures exchanges { Exchanges 1 1 self.old self.new result }
        ensures too_few { IsErrOf result CommandError.TooFewExpressions ↔ (depth self.old < 1) }
    {
        let top = self.pop()?.substitute(alloc, &self.bindings)?;
        self.push(top)
    }

    // Replaces the top by its substitution, if no value has another type than is expected of it.
    #[inline(never)]
    fn substitute_typed(&mut self, alloc: Global) -> CommandOutput
        ensures shows { IfOk result (λ shown. shown ≡ None) }
        ensures made { OnOk result (ReplacesOne
            (λ a e. (fold tree_ops (environment (bindings_of self.old)) (bare_expr a)
            ≡ Ok (bare_expr e))
            × (clash (environment (bindings_of self.old)) (bare_expr a) ≡ None))
            (stack_of self.old) (stack_of self.new)) }
        ensures exchanges { Exchanges 1 1 self.old self.new result }
        ensures too_few { IsErrOf result CommandError.TooFewExpressions ↔ (depth self.old < 1) }
    {
        let top = substitute_typed(alloc, &self.pop()?, &self.bindings)?;
        self.push(top)
    }

    // Replaces the top by its known value or its residual.
    #[inline(never)]
    fn simplify(&mut self, alloc: Global) -> CommandOutput
        ensures shows { IfOk result (λ shown. shown ≡ None) }
        ensures made { OnOk result (ReplacesOne
            (λ a e. bare_expr e
            ≡ residual_of ⟦<Simplifier as Builder>⟧.ops (environment (bindings_of self.old))
            (bare_expr a))
            (stack_of self.old) (stack_of self.new)) }
        ensures exchanges { Exchanges 1 1 self.old self.new result }
        ensures too_few { IsErrOf result CommandError.TooFewExpressions ↔ (depth self.old < 1) }
    {
        let simplified = simplify(alloc, &self.pop()?, &self.bindings)?;
        self.push(simplified.into_expr(alloc)?)
    }

    // Shows the top, which stays.
    #[inline(never)]
    fn show(&self, alloc: Global) -> CommandOutput
        ensures shows { IfOk result
            (Shows ⟦<Evaluator as Builder>⟧.ops (environment (bindings_of self.now)) Command.Show
            (stack_of self.now)) }
        ensures too_few { IsErrOf result CommandError.TooFewExpressions ↔ (depth self.now < 1) }
    {
        let top = self.stack.last().ok_or(CommandError::TooFewExpressions)?;
        Ok(Some(write_expr(alloc, top)?))
    }

    // Shows the outcome of the top, which stays.
    #[inline(never)]
    fn evaluate(&self, alloc: Global) -> CommandOutput
        ensures shows { IfOk result
            (Shows ⟦<Evaluator as Builder>⟧.ops (environment (bindings_of self.now)) Command.Eval
            (stack_of self.now)) }
        ensures too_few { IsErrOf result CommandError.TooFewExpressions ↔ (depth self.now < 1) }
    {
        let top = self.stack.last().ok_or(CommandError::TooFewExpressions)?;
        Ok(Some(self.write_outcome(alloc, top)?))
    }

    // Writes the text of the outcome of an expression.
    fn write_outcome(&self, alloc: Global, expr: &Expr) -> Result<String, CommandError>
        ensures text { IfOk result (λ text.
            on_one outcome_text
            (fold ⟦<Evaluator as Builder>⟧.ops (environment (bindings_of self.now))
            (bare_expr expr.now))
            ≡ Ok (string_bytes text)) }
        ensures refused { IfErr result (IsCallError
            (fold ⟦<Evaluator as Builder>⟧.ops (environment (bindings_of self.now))
            (bare_expr expr.now))) }
    {
        match evaluate(alloc, expr, &self.bindings) {
            Ok(outcome) => Ok(outcome.to_string(alloc)?),
            Err(fault) => Err(CommandError::of_call(alloc, fault)),
        }
    }
}

// Writes the text of an expression.
fn write_expr(alloc: Global, expr: &Expr) -> Result<String, AllocError>
    ensures { IfOk result (λ text.
        fold sketch_ops empty (bare_expr expr.now) ≡ Ok (string_bytes text)) }
{
    expr.into_expr::<Sketch>(alloc)?.to_text(alloc)
}

#[inline(never)]
fn make_string(alloc: Global, text: &str) -> Result<Expr, AllocError>
    ensures { IfOk result (λ e. bare_expr e ≡ Lit (StringLit text.now)) }
{
    let text = RcStr::from_str(alloc, text)?;
    Ok(Expr::val(Literal::String(text)))
}

#[inline(never)]
fn make_unknown(alloc: Global, name: &str, annotation: Option<Type>) -> Result<Expr, AllocError>
    ensures { IfOk result (λ e. bare_expr e ≡ unknown_tree name.now (bare_annotation annotation)) }
{
    let name = RcStr::from_str(alloc, name)?;
    Ok(Expr::unknown(match annotation {
        None => Unknown::new_untyped(name),
        Some(ty) => Unknown::new_with_type(name, ty),
    }))
}

// Makes the attribute of an expression.
fn make_get(alloc: Global, expr: Expr, attr: &str) -> Result<Expr, AllocError>
    ensures { IfOk result (λ e. bare_expr e ≡ tree_ops.get_of (bare_expr expr) attr.now) }
{
    let attr = RcStr::from_str(alloc, attr)?;
    Expr::get_attr(alloc, expr, attr)
}

// Makes the test for an attribute of an expression.
fn make_has(alloc: Global, expr: Expr, attr: &str) -> Result<Expr, AllocError>
    ensures { IfOk result (λ e. bare_expr e ≡ tree_ops.has_of (bare_expr expr) attr.now []) }
{
    let attr = RcStr::from_str(alloc, attr)?;
    Expr::has_attr(alloc, expr, attr)
}

// Makes the test for each attribute in turn.
fn make_extended_has(alloc: Global, expr: Expr, attrs: NonEmpty<&str>) -> Result<Expr, AllocError>
    ensures { let tail = texts_now attrs.entry.tail.items in
        IfOk result (λ e.
        bare_expr e ≡ tree_ops.has_of (bare_expr expr) attrs.entry.head.now tail) }
{
    let head = RcStr::from_str(alloc, attrs.head)?;
    let tail = share_texts(alloc, &attrs.tail)?;
    Expr::extended_has_attr(alloc, expr, NonEmpty::new(head, tail))
}

// Copies each text into an `RcStr`.
fn share_texts(alloc: Global, texts: &[&str]) -> Result<Vec<RcStr>, AllocError>
    ensures { IfOk result (λ shared. map rc_str_bytes shared.items ≡ texts_now texts.now) }
{
    let mut shared = Vec::with_capacity(alloc, texts.len())?;
    for text in texts {
        shared.push(RcStr::from_str(alloc, text)?)?;
    }
    Ok(shared)
}

// Takes the value of an expression of literals, sets and records.
fn into_value(alloc: Global, expr: Expr) -> Result<Value, CommandError>
    ensures value { IfOk result (λ v.
        IsValueOf ⟦<NoExtension as Ord>⟧.cmp (bare_expr expr) (bare_value v)) }
    ensures refused { IfErr result (IsValueError (bare_expr expr)) }
{
    Ok(Value::try_from_expr(alloc, expr)?)
}

// Substitutes values of the types that are expected.
fn substitute_typed(
    alloc: Global,
    expr: &Expr,
    bindings: &HashMap<RcStr, Value>,
) -> Result<Expr, CommandError>
    ensures substituted { IfOk result (λ e.
        fold tree_ops (environment bindings.now) (bare_expr expr.now) ≡ Ok (bare_expr e)) }
    ensures passed { OnOk result (clash (environment bindings.now) (bare_expr expr.now) ≡ None) }
    ensures refused { IfErr result (λ e. e ≢ CommandError.TooFewExpressions) }
{
    match expr.substitute_typed(alloc, bindings) {
        Ok(expr) => Ok(expr),
        Err(error) => Err(CommandError::of_types(alloc, error)),
    }
}

// Makes the record of keys, each with the value at its index.
fn make_keyed_record(
    alloc: Global,
    keys: Vec<&str>,
    values: Vec<Expr>,
) -> Result<Expr, CommandError>
    ensures made { IfOk result (λ e. bare_expr e ≡ record_of keys.entry.items values.items) }
    ensures refused { IfErr result (λ e. e ≢ CommandError.TooFewExpressions) }
{
    let pairs = pair_up(alloc, keys, values)?;
    Ok(Expr::record(alloc, pairs)?)
}

// Pairs each key with the value at its index.
fn pair_up(
    alloc: Global,
    keys: Vec<&str>,
    values: Vec<Expr>,
) -> Result<Vec<(RcStr, Expr)>, AllocError>
    ensures { IfOk result (λ pairs. keyed pairs.items ≡ key_pairs keys.entry.items values.items) }
{
    let mut pairs = Vec::with_capacity(alloc, keys.len())?;
    for (key, value) in keys.into_iter().zip(values) {
        pairs.push((RcStr::from_str(alloc, key)?, value))?;
    }
    Ok(pairs)
}

// Makes the node of a conjunction, as it stands.
fn make_raw_and(alloc: Global, left: Expr, right: Expr) -> Result<Expr, AllocError>
    ensures { IfOk result (λ e. bare_expr e ≡ And (bare_expr left) (bare_expr right)) }
{
    Ok(ExprBuilder::new().with_expr_kind(ExprKind::And {
        left: Rc::new(alloc, left)?,
        right: Rc::new(alloc, right)?,
    }))
}

// Makes the node of a disjunction, as it stands.
fn make_raw_or(alloc: Global, left: Expr, right: Expr) -> Result<Expr, AllocError>
    ensures { IfOk result (λ e. bare_expr e ≡ Or (bare_expr left) (bare_expr right)) }
{
    Ok(ExprBuilder::new().with_expr_kind(ExprKind::Or {
        left: Rc::new(alloc, left)?,
        right: Rc::new(alloc, right)?,
    }))
}
