//! The evaluator over what is known (Cedar's `Evaluator`).
ghost use Rattle.std.specs.Prelude.{◌≡◌};
ghost use Rattle.cedar_builders.specs.Answers.{Gives};
ghost use Rattle.cedar_exprs.specs.BareExpr.{bare_expr};
ghost use Rattle.cedar_values.specs.WellFormedValues.{well_formed_env};
ghost use Rattle.semantics_request.specs.Evaluator.{evaluated};
ghost use Rattle.cedar_evaluator.specs.Outcomes.{meaning_of};
ghost use Rattle.cedar_request_evaluator.specs.Refusals.{refused_name};
ghost use Rattle.cedar_request_evaluator.specs.Knowledge.{functions_of, knowledge_of};
ghost use Rattle.cedar_request.specs.Requests.{bare_request};

use crate::bound::post_order_with_values;
use crate::known::Known;
use cedar_builders::BuildFault;
use cedar_evaluator::{CallRefused, Outcome};
use cedar_exprs::{Expr, PostOrderFault};
use cedar_request::{CallableFunctions, EntityStore, Request};
use cedar_values::WellFormedValue;
use std::alloc::Global;
use std::collections::HashMap;
use std::rc::RcStr;

/// The evaluator of conditions, by what is known of a request, of entities and of unknowns, and by
/// a table of functions.
///
/// What is not known is the fault `Open`, where it decides. An attribute or a tag of an entity that
/// is not in the store is the fault `Store`; `has` is false of it, and it is in itself alone. A
/// call of a function that is not in the table is refused. Two extension values compare as the
/// table says. All else is as in `cedar_evaluator`.
///
/// ```rust
/// let evaluator = RequestEvaluator::new(&request, &entities, &NoFunctions, &values);
/// let outcome = evaluator.evaluate(alloc, &condition)?;
/// ```
#[derive(Drop)]
pub struct RequestEvaluator<'a, X: Ord, S, T> {
    known: Known<'a, X, S, T>,
    values: &'a HashMap<RcStr, WellFormedValue>,
}

impl<'a, X: Ord + Drop, S: EntityStore<X>, T: CallableFunctions<X>> RequestEvaluator<'a, X, S, T> {
    /// The evaluator that knows these, where `values` has the values of unknowns.
    pub fn new(
        request: &'a Request<X>,
        entities: &'a S,
        functions: &'a T,
        values: &'a HashMap<RcStr, WellFormedValue>,
    ) -> RequestEvaluator<'a, X, S, T>
        ensures request { (knowledge_of S.bare_entities result).request
            ≡ bare_request request.now }
        ensures entities { (knowledge_of S.bare_entities result).entities
            ≡ S.bare_entities entities.now }
        ensures functions { functions_of T.bare_functions result
            ≡ T.bare_functions functions.now }
        ensures values { (knowledge_of S.bare_entities result).bindings
            ≡ well_formed_env values.now }
    {
        RequestEvaluator {
            known: Known {
                request,
                entities,
                functions,
            },
            values,
        }
    }

    /// The request.
    pub fn request(&self) -> &Request<X>
        ensures { bare_request result.now ≡ (knowledge_of S.bare_entities self.now).request }
    {
        self.known.request
    }

    /// The store of entities.
    pub fn entities(&self) -> &S
        ensures { S.bare_entities result.now ≡ (knowledge_of S.bare_entities self.now).entities }
    {
        self.known.entities
    }

    /// The values of unknowns.
    pub fn values(&self) -> &HashMap<RcStr, WellFormedValue>
        ensures { well_formed_env result.now ≡ (knowledge_of S.bare_entities self.now).bindings }
    {
        self.values
    }

    /// The outcome of a condition.
    ///
    /// The error is the first call of a function that is not in the table, children before parents
    /// and each in field order, or memory ran out.
    pub fn evaluate(
        &self,
        alloc: Global,
        condition: &Expr,
    ) -> Result<Outcome<X>, BuildFault<CallRefused>>
        ensures { Gives meaning_of refused_name
            (evaluated X.cmp X.eq (functions_of T.bare_functions self.now)
            (knowledge_of S.bare_entities self.now) (bare_expr condition.now)) result }
    {
        match post_order_with_values(alloc, &self.known, self.values, condition) {
            Ok(outcome) => Ok(outcome),
            Err(PostOrderFault::Refused(refused)) => Err(BuildFault::Build(refused)),
            Err(PostOrderFault::Memory) => Err(BuildFault::Memory),
        }
    }
}
