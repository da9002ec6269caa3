//! The places of parsed nodes.
use cedar_exprs::Expr;
use cedar_parser::{ParseError, parse_expr};
use std::alloc::{AllocError, Global};

/// Whether the place of each node that was parsed is a piece of the text that is parsed as this
/// node again. Of nodes at one place, as `a != b` makes two, it is the outermost.
pub fn are_pieces(alloc: Global, text: &str, expr: &Expr) -> Result<bool, AllocError> {
    let mut seen: Vec<(usize, usize)> = Vec::new(alloc);
    for node in expr.subexpressions(alloc)? {
        let Some(place) = node.source_loc() else {
            return Ok(false);
        };
        let ends = (place.start, place.stop);
        if !seen.contains(&ends) {
            seen.push(ends)?;
            if !is_parsed_of(alloc, node, text.get(place.start..place.stop))? {
                return Ok(false);
            }
        }
    }
    Ok(true)
}

fn is_parsed_of(alloc: Global, node: &Expr, piece: Option<&str>) -> Result<bool, AllocError> {
    let Some(piece) = piece else {
        return Ok(false);
    };
    match parse_expr(alloc, piece) {
        Ok(parsed) => Ok(parsed.eq_shape(node)),
        Err(ParseError::Syntax(_)) => Ok(false),
        Err(ParseError::Memory) => Err(AllocError),
    }
}
