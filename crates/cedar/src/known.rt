//! What is known of a request and of entities, and what follows from it.
ghost use Rattle.std.specs.Prelude.{◌≡◌, IfErr, IfOk, MatchResult};
ghost use Rattle.semantics_authorize.specs.Authorization.{authorized};
ghost use Rattle.cedar_lexer.specs.declared.error.ParseError.TheVariants.{Memory};
ghost use Rattle.cedar_parser.specs.Refused.{IsToldIn};
ghost use Rattle.cedar_request.specs.Values.{tree_of};
ghost use Rattle.cedar_request_evaluator.specs.Knowledge.{functions_of, knowledge_of};
ghost use Rattle.cedar_entities.specs.Stores.{bare_entities};
ghost use Rattle.cedar_functions.specs.Extensions.{canonical_call};
ghost use Rattle.cedar_functions.specs.Functions.{extension_functions};
ghost use Rattle.cedar_bindings.specs.Bindings.{names_in};
ghost use Rattle.cedar_authorizer.specs.Responses.{bare_response};
ghost use Rattle.cedar_decisions.specs.Decisions.{IfPolicies, IsDecidedBy};
ghost use Rattle.cedar_decisions.specs.Partial.{IsPartlyDecided, IsPartlyDecidedBy};
ghost use Rattle.cedar_conditions.specs.Answers.{IsAnswerTo};
ghost use Rattle.cedar.specs.Known.{all_known};

use cedar_authorizer::{PartialResponse, Response};
use cedar_bindings::Bindings;
use cedar_conditions::{Answer, evaluate_condition};
use cedar_decisions::{decide, decide_partial};
use cedar_functions::{BuiltinExtension, BuiltinFunctions};
use cedar_inputs::Store;
use cedar_parser::ParseError;
use cedar_request::Request;
use cedar_request_evaluator::RequestEvaluator;
use std::alloc::{AllocError, Global};

/// What is known of a request, of entities and of names.
#[derive(Drop)]
pub struct Known {
    pub request: Request<BuiltinExtension>,
    pub entities: Store,
    pub bindings: Bindings,
}

impl Known {
    /// The answer to a condition.
    pub fn answer(&self, alloc: Global, text: &str) -> Result<Answer, AllocError>
        ensures { IfOk result (IsAnswerTo ⟦<BuiltinExtension as Ord>⟧.cmp
            ⟦<BuiltinExtension as PartialEq>⟧.eq canonical_call extension_functions
            (all_known self.now) (names_in self.now.bindings) text.now) }
    {
        evaluate_condition(alloc, text, self.bindings.named(), &self.evaluator())
    }

    /// The response to the request, by the policies of a text.
    pub fn decide(&self, alloc: Global, policies: &str) -> Result<Response, ParseError>
        ensures decided { IfOk result (λ response. IsDecidedBy ⟦<BuiltinExtension as Ord>⟧.cmp
            ⟦<BuiltinExtension as PartialEq>⟧.eq extension_functions (all_known self.now)
            policies.now (bare_response response)) }
        ensures complete { IfPolicies policies.now (λ ps. MatchResult result (λ response.
            bare_response response ≡ authorized ⟦<BuiltinExtension as Ord>⟧.cmp
            ⟦<BuiltinExtension as PartialEq>⟧.eq extension_functions (all_known self.now) ps)
            (λ e. e ≡ Memory)) }
        ensures told { IfErr result (IsToldIn policies.now) }
    {
        decide(alloc, policies, &self.evaluator())
    }

    /// What is decided of the request by what is known, and by the policies of a text.
    pub fn decide_partial(
        &self,
        alloc: Global,
        policies: &str,
    ) -> Result<PartialResponse, ParseError>
        ensures decided { IfOk result (IsPartlyDecidedBy ⟦<BuiltinExtension as Ord>⟧.cmp
            ⟦<BuiltinExtension as PartialEq>⟧.eq extension_functions (all_known self.now)
            policies.now) }
        ensures complete { IfPolicies policies.now (λ ps. MatchResult result
            (IsPartlyDecided ⟦<BuiltinExtension as Ord>⟧.cmp ⟦<BuiltinExtension as PartialEq>⟧.eq
            extension_functions (all_known self.now) ps) (λ e. e ≡ Memory)) }
        ensures told { IfErr result (IsToldIn policies.now) }
    {
        decide_partial(alloc, policies, &self.evaluator())
    }

    // The evaluator that knows all of it.
    #[tactic(auto, using(crate::proofs::Answering::same_knowledge))]
    fn evaluator(&self) -> RequestEvaluator<'_, BuiltinExtension, Store, BuiltinFunctions>
        ensures knowledge { knowledge_of (bare_entities tree_of) result ≡ all_known self.now }
        ensures functions { functions_of (λ _. extension_functions) result ≡ extension_functions }
    {
        RequestEvaluator::new(
            &self.request,
            &self.entities,
            &BuiltinFunctions,
            self.bindings.values(),
        )
    }
}
