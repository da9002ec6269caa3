//! Why an expression is no condition.
ghost use Rattle.std.specs.Prelude.{◌≡◌, IfOk, List, map};
ghost use Rattle.std.specs.List.{list_any};
ghost use Rattle.std.specs.Option.{is_some};
ghost use Rattle.cedar_exprs.specs.BareExpr.{bare_expr};
ghost use Rattle.cedar_lexer.specs.TokenPlaces.{AreTokens};
ghost use Rattle.cedar_conditions.specs.Conditions.{is_refused, is_refused_node};
ghost use Rattle.cedar_conditions.specs.Nodes.{IsJudged, shown};

use crate::calls::wrong_call;
use crate::problem::Problem;
use crate::size::{Node, nodes_of, too_deep};
use crate::styles::other_style;
use cedar_exprs::Expr;
use cedar_lexer::Token;
use std::alloc::{AllocError, Global};

/// Why an expression is no condition, though its text is in the grammar: it has too many nodes; or
/// a node, the first from outside, is in too many sets and records, or is a call of what is no
/// function or method; or a function is called as a method, or a method as a function.
pub(crate) fn refused(alloc: Global, text: &str, expr: &Expr) -> Result<Option<Problem>, AllocError>
    requires { (ts : List Token) × AreTokens text.now ts }
    ensures { IfOk result (IsJudged text.now (bare_expr expr.now)) }
{
    match refused_tree(alloc, text, expr)? {
        Some(problem) => Ok(Some(problem)),
        None => other_style(alloc, text),
    }
}

#[tactic(auto, using(crate::proofs::Refusing::judged_by_nodes, crate::proofs::Refusing::by_size))]
fn refused_tree(alloc: Global, text: &str, expr: &Expr) -> Result<Option<Problem>, AllocError>
    ensures { IfOk result (λ found. is_some found ≡ is_refused text.now (bare_expr expr.now)) }
{
    match nodes_of(alloc, text, expr)? {
        Ok(nodes) => first_refused(alloc, text, &nodes),
        Err(problem) => Ok(Some(problem)),
    }
}

#[tactic(auto, using(crate::proofs::Refusing::none_next, crate::proofs::Refusing::none_at_all, crate::proofs::Refusing::one_found,))]
fn first_refused(
    alloc: Global,
    text: &str,
    nodes: &[Node<'_>],
) -> Result<Option<Problem>, AllocError>
    ensures { IfOk result (λ found. is_some found
        ≡ list_any is_refused_node (map shown nodes.now)) }
{
    for node in nodes {
        if let Some(problem) = refused_node(alloc, text, *node)? {
            return Ok(Some(problem));
        }
    }
    Ok(None)
}

fn refused_node(alloc: Global, text: &str, node: Node<'_>) -> Result<Option<Problem>, AllocError>
    ensures { IfOk result (λ found. is_some found ≡ is_refused_node (shown node.entry)) }
{
    match too_deep(alloc, text, node)? {
        Some(problem) => Ok(Some(problem)),
        None => wrong_call(alloc, text, node.expr),
    }
}
