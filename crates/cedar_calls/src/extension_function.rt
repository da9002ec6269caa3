//! Functions of extensions (`extension.rs`).
ghost use Rattle.std.specs.Prelude.{◌≡◌};
ghost use Rattle.cedar_calls.specs.Objects.{MayGive};
ghost use Rattle.cedar_calls.specs.Types.{Keeps, Keeps-prop, declared};

use crate::err::EvaluationError;
use crate::object::{
    BinaryFunction, ExtensionFunctionObject, ExtensionFunctions, NullaryFunction, TernaryFunction,
    UnaryFunction, VariadicFunction,
};
use crate::output_value::ExtensionOutputValue;
use cedar_names::Name;
use cedar_terms::SchemaType;
use cedar_validation::CallStyle;
use cedar_values::{NoExtension, PartialValue, Value};
use std::alloc::{AllocError, Global};
use std::fmt;

/// A function of an extension: a stored function, with its name, its style and its types.
///
/// What the stored function may answer is of the declared return type, so a call asks for nothing.
#[derive(Drop)]
pub struct ExtensionFunction<X: ExtensionFunctions = NoExtension> {
    name: Name,
    style: CallStyle,
    func: ExtensionFunctionObject<X>,
    return_type: Option<SchemaType>,
    arg_types: Option<Vec<SchemaType>>,
    ghost keeps_type: { ((args : _) (r : _) →
        MayGive X.Nullary.gives X.Unary.gives X.Binary.gives X.Ternary.gives X.Variadic.gives
        func args r → Keeps X.type_name (declared return_type) r) } by { Prim.hlevel Keeps-prop },
}

impl<X: ExtensionFunctions> ExtensionFunction<X> {
    ghost use Rattle.std.specs.Prelude.{
      Some,
      None,
      IfOk,
      MatchResult,
      IsTrue,
      ◌↔◌,
      [],
      ◌∷◌,
      length,
      false,
      map,
    };
    ghost use Rattle.std.specs.Option.{option_copied, option_map};
    ghost use Rattle.cedar_terms.specs.SchemaTypes.{bare_names, bare_schema_type};
    ghost use Rattle.cedar_calls.specs.Calls.{IsPassedOn, IsWrongCount};
    ghost use Rattle.cedar_calls.specs.Functions.{
      MayAnswer,
      arg_types_of,
      bare_name_of,
      counts_of,
      ext_types_of,
      name_of,
      object_of,
      return_type_of,
      style_of,
    };
    ghost use Rattle.cedar_calls.specs.Objects.{at_least, expected_count, takes};
    ghost use Rattle.cedar_calls.specs.Types.{IsOfType, makes_of_text};

    /// A function of no arguments.
    ///
    /// The caller knows that what it may answer is of the return type.
    pub fn nullary(
        name: Name,
        style: CallStyle,
        func: X::Nullary,
        return_type: SchemaType,
    ) -> ExtensionFunction<X>
        requires { (r : _) →
            X.Nullary.gives func r → Keeps X.type_name (declared (Some return_type)) r }
        ensures name { name_of result ≡ name }
        ensures style { style_of result ≡ style }
        ensures func { object_of result ≡ ExtensionFunctionObject.Nullary func }
        ensures return_type { return_type_of result ≡ Some return_type }
        ensures arg_types { arg_types_of result ≡ [] }
    {
        ExtensionFunction {
            name,
            style,
            func: ExtensionFunctionObject::Nullary(func),
            return_type: Some(return_type),
            arg_types: None,
        }
    }

    /// A function of one or more arguments that is given the first alone and answers no value: it
    /// stands for an unknown of partial evaluation. It has no return type.
    pub fn partial_eval_unknown(
        alloc: Global,
        name: Name,
        style: CallStyle,
        func: X::Unary,
        arg_type: SchemaType,
    ) -> Result<ExtensionFunction<X>, AllocError>
        requires { (x : _) (r : _) →
            X.Unary.gives func x r → Keeps X.type_name (declared None) r }
        ensures name { IfOk result (λ f. name_of f ≡ name) }
        ensures style { IfOk result (λ f. style_of f ≡ style) }
        ensures func { IfOk result
            (λ f. object_of f ≡ ExtensionFunctionObject.PartialEvalUnknown func) }
        ensures return_type { IfOk result (λ f. return_type_of f ≡ None) }
        ensures arg_types { IfOk result (λ f. arg_types_of f ≡ arg_type ∷ []) }
    {
        let arg_types = vec![in alloc; arg_type]?;
        Ok(ExtensionFunction {
            name,
            style,
            func: ExtensionFunctionObject::PartialEvalUnknown(func),
            return_type: None,
            arg_types: Some(arg_types),
        })
    }

    /// A function of one argument.
    ///
    /// The caller knows that what it may answer is of the return type.
    pub fn unary(
        alloc: Global,
        name: Name,
        style: CallStyle,
        func: X::Unary,
        return_type: SchemaType,
        arg_type: SchemaType,
    ) -> Result<ExtensionFunction<X>, AllocError>
        requires { (x : _) (r : _) →
            X.Unary.gives func x r → Keeps X.type_name (declared (Some return_type)) r }
        ensures name { IfOk result (λ f. name_of f ≡ name) }
        ensures style { IfOk result (λ f. style_of f ≡ style) }
        ensures func { IfOk result (λ f. object_of f ≡ ExtensionFunctionObject.Unary func) }
        ensures return_type { IfOk result (λ f. return_type_of f ≡ Some return_type) }
        ensures arg_types { IfOk result (λ f. arg_types_of f ≡ arg_type ∷ []) }
    {
        let arg_types = vec![in alloc; arg_type]?;
        Ok(ExtensionFunction {
            name,
            style,
            func: ExtensionFunctionObject::Unary(func),
            return_type: Some(return_type),
            arg_types: Some(arg_types),
        })
    }

    /// A function of two arguments.
    ///
    /// The caller knows that what it may answer is of the return type.
    pub fn binary(
        alloc: Global,
        name: Name,
        style: CallStyle,
        func: X::Binary,
        return_type: SchemaType,
        types: (SchemaType, SchemaType),
    ) -> Result<ExtensionFunction<X>, AllocError>
        requires { (x : _) (y : _) (r : _) →
            X.Binary.gives func x y r → Keeps X.type_name (declared (Some return_type)) r }
        ensures name { IfOk result (λ f. name_of f ≡ name) }
        ensures style { IfOk result (λ f. style_of f ≡ style) }
        ensures func { IfOk result (λ f. object_of f ≡ ExtensionFunctionObject.Binary func) }
        ensures return_type { IfOk result (λ f. return_type_of f ≡ Some return_type) }
        ensures arg_types { IfOk result (λ f. arg_types_of f ≡ types.0 ∷ types.1 ∷ []) }
    {
        let (first, second) = types;
        let arg_types = vec![in alloc; first, second]?;
        Ok(ExtensionFunction {
            name,
            style,
            func: ExtensionFunctionObject::Binary(func),
            return_type: Some(return_type),
            arg_types: Some(arg_types),
        })
    }

    /// A function of three arguments.
    ///
    /// The caller knows that what it may answer is of the return type.
    pub fn ternary(
        alloc: Global,
        name: Name,
        style: CallStyle,
        func: X::Ternary,
        return_type: SchemaType,
        types: (SchemaType, SchemaType, SchemaType),
    ) -> Result<ExtensionFunction<X>, AllocError>
        requires { (x : _) (y : _) (z : _) (r : _) →
            X.Ternary.gives func x y z r → Keeps X.type_name (declared (Some return_type)) r }
        ensures name { IfOk result (λ f. name_of f ≡ name) }
        ensures style { IfOk result (λ f. style_of f ≡ style) }
        ensures func { IfOk result (λ f. object_of f ≡ ExtensionFunctionObject.Ternary func) }
        ensures return_type { IfOk result (λ f. return_type_of f ≡ Some return_type) }
        ensures arg_types { IfOk result
            (λ f. arg_types_of f ≡ types.0 ∷ types.1 ∷ types.2 ∷ []) }
    {
        let (first, second, third) = types;
        let arg_types = vec![in alloc; first, second, third]?;
        Ok(ExtensionFunction {
            name,
            style,
            func: ExtensionFunctionObject::Ternary(func),
            return_type: Some(return_type),
            arg_types: Some(arg_types),
        })
    }

    /// A function of two or more arguments. The types are that of the first argument and that of
    /// each further one.
    ///
    /// The caller knows that what it may answer is of the return type.
    pub fn variadic(
        alloc: Global,
        name: Name,
        style: CallStyle,
        func: X::Variadic,
        return_type: SchemaType,
        types: (SchemaType, SchemaType),
    ) -> Result<ExtensionFunction<X>, AllocError>
        requires { (x : _) (xs : _) (r : _) →
            X.Variadic.gives func x xs r → Keeps X.type_name (declared (Some return_type)) r }
        ensures name { IfOk result (λ f. name_of f ≡ name) }
        ensures style { IfOk result (λ f. style_of f ≡ style) }
        ensures func { IfOk result (λ f. object_of f ≡ ExtensionFunctionObject.Variadic func) }
        ensures return_type { IfOk result (λ f. return_type_of f ≡ Some return_type) }
        ensures arg_types { IfOk result (λ f. arg_types_of f ≡ types.0 ∷ types.1 ∷ []) }
    {
        let (first, further) = types;
        let arg_types = vec![in alloc; first, further]?;
        Ok(ExtensionFunction {
            name,
            style,
            func: ExtensionFunctionObject::Variadic(func),
            return_type: Some(return_type),
            arg_types: Some(arg_types),
        })
    }

    /// Its name.
    pub fn name(&self) -> &Name
        ensures { result.now ≡ name_of self.now }
    {
        &self.name
    }

    /// How it is called.
    pub fn style(&self) -> CallStyle
        ensures { result ≡ style_of self.now }
    {
        self.style
    }

    /// Its return type; none where it answers no values.
    pub fn return_type(&self) -> Option<&SchemaType>
        ensures { option_copied result ≡ return_type_of self.now }
    {
        self.return_type.as_ref()
    }

    /// The types of its arguments, as they were declared: of a function that takes any count from
    /// two, that of the first and that of each further one.
    pub fn arg_types(&self) -> &[SchemaType]
        ensures { result.now ≡ arg_types_of self.now }
    {
        match &self.arg_types {
            Some(types) => types.as_slice(),
            None => &[],
        }
    }

    /// Whether it takes any count of arguments from two.
    pub fn is_variadic(&self) -> bool
        ensures { IsTrue result ↔ (counts_of self.now ≡ at_least 2) }
    {
        matches!(self.func, ExtensionFunctionObject::Variadic(_))
    }

    /// Whether it makes an extension value of one text: its return type is an extension type, and
    /// its one argument is a text.
    pub fn is_single_arg_constructor(&self) -> bool
        ensures { result ≡ makes_of_text
            (option_map bare_schema_type (return_type_of self.now))
            (map bare_schema_type (arg_types_of self.now)) }
    {
        let makes_extension = matches!(self.return_type, Some(SchemaType::Extension { .. }));
        makes_extension && matches!(self.arg_types(), [SchemaType::String])
    }

    /// The names of the extension types in its return type, as `SchemaType::contained_ext_types`
    /// gives them; none where it has no return type.
    pub fn ext_types(&self, alloc: Global) -> Result<Vec<Name>, AllocError>
        ensures { IfOk result (λ names. bare_names names.items ≡ ext_types_of self.now) }
    {
        match &self.return_type {
            Some(ty) => ty.contained_ext_types(alloc),
            None => Ok(Vec::new(alloc)),
        }
    }

    // The refusal of this count of arguments.
    fn wrong_count(&self, alloc: Global, expected: usize, actual: usize) -> EvaluationError
        ensures { IsWrongCount (bare_name_of self.now) expected actual result }
    {
        match self.name.clone(alloc) {
            Ok(name) => EvaluationError::WrongNumArguments {
                name,
                expected,
                actual,
                loc: None,
            },
            Err(e) => EvaluationError::from(e),
        }
    }

    // What the stored function answers, or the refusal of the count of arguments.
    fn answer(
        &self,
        alloc: Global,
        args: &[Value<X>],
    ) -> Result<ExtensionOutputValue<X>, EvaluationError>
        ensures taken { IsTrue (takes (counts_of self.now) (length args.now))
            → MayAnswer self.now args.now result }
        ensures refused { takes (counts_of self.now) (length args.now) ≡ false
            → MatchResult result (λ _. ⊥) (IsWrongCount (bare_name_of self.now)
            (expected_count (counts_of self.now)) (length args.now)) }
    {
        match &self.func {
            ExtensionFunctionObject::Nullary(func) => match args {
                [] => func.call(alloc),
                _ => Err(self.wrong_count(alloc, 0, args.len())),
            },
            ExtensionFunctionObject::PartialEvalUnknown(func) => match args {
                [first, ..] => func.call(alloc, first),
                [] => Err(self.wrong_count(alloc, 1, 0)),
            },
            ExtensionFunctionObject::Unary(func) => match args {
                [arg] => func.call(alloc, arg),
                _ => Err(self.wrong_count(alloc, 1, args.len())),
            },
            ExtensionFunctionObject::Binary(func) => match args {
                [first, second] => func.call(alloc, first, second),
                _ => Err(self.wrong_count(alloc, 2, args.len())),
            },
            ExtensionFunctionObject::Ternary(func) => match args {
                [first, second, third] => func.call(alloc, first, second, third),
                _ => Err(self.wrong_count(alloc, 3, args.len())),
            },
            ExtensionFunctionObject::Variadic(func) => match args {
                [first, rest @ ..] if !rest.is_empty() => func.call(alloc, first, rest),
                _ => Err(self.wrong_count(alloc, 2, args.len())),
            },
        }
    }

    /// Calls it.
    ///
    /// A count of arguments that it does not take is refused with its name and both counts, at no
    /// place. Else its own answer is passed on: a value as it is, an unknown as a residual, an
    /// error as it is, also if memory ran out.
    pub fn call(&self, alloc: Global, args: &[Value<X>]) -> Result<PartialValue<X>, EvaluationError>
        ensures taken { IsTrue (takes (counts_of self.now) (length args.now))
            → ((r : _) × MayAnswer self.now args.now r × IsPassedOn r result) }
        ensures refused { takes (counts_of self.now) (length args.now) ≡ false
            → MatchResult result (λ _. ⊥) (IsWrongCount (bare_name_of self.now)
            (expected_count (counts_of self.now)) (length args.now)) }
        ensures typed { IfOk result (IsOfType X.type_name (declared (return_type_of self.now))) }
    {
        match self.answer(alloc, args) {
            Ok(ExtensionOutputValue::Known(value)) => Ok(PartialValue::Value(value)),
            Ok(ExtensionOutputValue::Unknown(unknown)) => Ok(PartialValue::unknown(unknown)),
            Err(e) => Err(e),
        }
    }
}

impl<X: ExtensionFunctions> fmt::Debug for ExtensionFunction<X> {
    ghost use Rattle.std.specs.Prelude.{Some, codes, ◌++◌};
    ghost use Rattle.cedar_names.specs.Names.{name_text};
    ghost use Rattle.cedar_calls.specs.Functions.{bare_name_of};

    ghost debug_output = { λ f.
        Some (codes "<extension function " ++ name_text (bare_name_of f) ++ codes ">") };

    fn fmt<W: fmt::Write>(&self, f: &mut fmt::Formatter<W>) -> fmt::Result {
        write!(f, "<extension function {}>", self.name)
    }
}
