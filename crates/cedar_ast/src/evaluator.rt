//! The closed evaluator: what it makes of an expression is the expression's outcome.
pub use cedar_evaluator::{
    CallRefused, EvalFault, EvaluationFault, Evaluator, Outcome, SharedValue, evaluate,
    evaluate_shared, laws,
};
