//! Boxed functions, where there are no extension values.
//!
//! A type of extension values can name one type of functions that holds a box. So one box serves
//! every count of arguments: it gets them in one slice.
ghost use Rattle.std.specs.Prelude.{◌≡◌, IfOk, [], ◌∷◌, map};
ghost use Rattle.cedar_values.specs.Holders.{held_name};
ghost use Rattle.cedar_calls.specs.Types.{Keeps, Keeps-prop, declared};

use crate::err::EvaluationError;
use crate::object::{
    BinaryFunction, ExtensionFunctions, NullaryFunction, TernaryFunction, UnaryFunction,
    VariadicFunction,
};
use crate::output_value::ExtensionOutputValue;
use cedar_terms::SchemaType;
use cedar_values::{NoExtension, Value};
use std::alloc::{AllocError, Global};
use std::boxed::Box;

/// A box of a function that gets all its arguments in one slice.
pub type FunctionBox = Box<
    dyn Fn(Global, &[&Value]) -> Result<ExtensionOutputValue, EvaluationError>,
>;

/// A boxed function over values without extension values, with the type of what it answers.
#[derive(Drop)]
pub struct BoxedFunction {
    /// The box.
    pub func: FunctionBox,
    /// The type of the values that it answers. With none, no answer is a value.
    pub return_type: Option<SchemaType>,
    ghost callable: { IsAlwaysCallable func },
    ghost typed: { (alloc : _) (args : _) (r : _) → post func alloc args r
        → Keeps held_name (declared return_type) r } by { Prim.hlevel Keeps-prop },
}

impl BoxedFunction {
    /// The box, whose answers are of the return type. A call of it, by the trait for a count of
    /// arguments, answers what the box answers to these arguments.
    pub fn new(func: FunctionBox, return_type: Option<SchemaType>) -> BoxedFunction
        requires callable { IsAlwaysCallable func }
        requires typed { (alloc : _) (args : _) (r : _) → post func alloc args r
            → Keeps held_name (declared return_type) r }
        ensures func { result.func ≡ func }
        ensures return_type { result.return_type ≡ return_type }
    {
        BoxedFunction { func, return_type }
    }
}

impl NullaryFunction<NoExtension> for BoxedFunction {
    ghost gives = { λ f r. Keeps held_name (declared f.return_type) r
        × ((alloc : _) × (args : _) × (map (λ a. a.now) args.now ≡ [])
        × post f.func alloc args r) };

    fn call(&self, alloc: Global) -> Result<ExtensionOutputValue, EvaluationError> {
        (self.func)(alloc, &[])
    }
}

impl UnaryFunction<NoExtension> for BoxedFunction {
    ghost gives = { λ f x r. Keeps held_name (declared f.return_type) r
        × ((alloc : _) × (args : _) × (map (λ a. a.now) args.now ≡ x ∷ [])
        × post f.func alloc args r) };

    fn call(&self, alloc: Global, arg: &Value) -> Result<ExtensionOutputValue, EvaluationError> {
        (self.func)(alloc, &[arg])
    }
}

impl BinaryFunction<NoExtension> for BoxedFunction {
    ghost gives = { λ f x y r. Keeps held_name (declared f.return_type) r
        × ((alloc : _) × (args : _) × (map (λ a. a.now) args.now ≡ x ∷ y ∷ [])
        × post f.func alloc args r) };

    fn call(
        &self,
        alloc: Global,
        first: &Value,
        second: &Value,
    ) -> Result<ExtensionOutputValue, EvaluationError> {
        (self.func)(alloc, &[first, second])
    }
}

impl TernaryFunction<NoExtension> for BoxedFunction {
    ghost gives = { λ f x y z r. Keeps held_name (declared f.return_type) r
        × ((alloc : _) × (args : _) × (map (λ a. a.now) args.now ≡ x ∷ y ∷ z ∷ [])
        × post f.func alloc args r) };

    fn call(
        &self,
        alloc: Global,
        first: &Value,
        second: &Value,
        third: &Value,
    ) -> Result<ExtensionOutputValue, EvaluationError> {
        (self.func)(alloc, &[first, second, third])
    }
}

impl VariadicFunction<NoExtension> for BoxedFunction {
    ghost use Rattle.std.specs.Prelude.{◌⊎◌, Err};
    ghost use Rattle.cedar_calls.specs.declared.err.EvaluationError.TheVariants.{Memory};

    ghost gives = { λ f x xs r. Keeps held_name (declared f.return_type) r
        × (((alloc : _) × (args : _) × (map (λ a. a.now) args.now ≡ x ∷ xs)
        × post f.func alloc args r) ⊎ (r ≡ Err Memory)) };

    fn call(
        &self,
        alloc: Global,
        first: &Value,
        rest: &[Value],
    ) -> Result<ExtensionOutputValue, EvaluationError> {
        let args = together(alloc, first, rest)?;
        (self.func)(alloc, &args)
    }
}

// All arguments of a call.
fn together<'a>(
    alloc: Global,
    first: &'a Value,
    rest: &'a [Value],
) -> Result<Vec<&'a Value>, AllocError>
    ensures { IfOk result (λ args. map (λ a. a.now) args.items ≡ first.now ∷ rest.now) }
{
    let mut args = Vec::new(alloc);
    args.push(first)?;
    for arg in rest {
        args.push(arg)?;
    }
    Ok(args)
}

impl ExtensionFunctions for NoExtension {
    type Nullary = BoxedFunction;

    type Unary = BoxedFunction;

    type Binary = BoxedFunction;

    type Ternary = BoxedFunction;

    type Variadic = BoxedFunction;
}
