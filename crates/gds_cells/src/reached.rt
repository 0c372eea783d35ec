//! Whether the cells that the top reaches are there and can be put in an order.

ghost use Rattle.std.specs.Prelude.{◌<◌, ◌^◌, length, IfOk, IfErr};
ghost use Rattle.gds_cells.specs.Graphs.{IsWhole};
ghost use Rattle.gds_cells.specs.steps.Rows.{rows, state_of};
ghost use Rattle.gds_cells.specs.steps.Surveys.{IsSurveyed, IsUnsound};

use crate::error::FlattenError;
use crate::heights::is_too_deep;
use crate::search::{Search, number_at, search_from};
use std::alloc::Global;

/// The cells that the top reaches, in an order in which each stands behind all that it refers to.
///
/// # Errors
/// `MissingCell`, `Cycle` or `TooDeep`, the first in this order that holds of the reached cells, or
/// `Memory` where memory is refused.
pub fn survey(alloc: Global, graph: &[Vec<usize>], top: usize) -> Result<Search, FlattenError>
    requires whole { IsWhole (rows graph.now) }
    requires top { top < length graph.now }
    requires few { length graph.now < 2 ^ 62 }
    ensures surveyed { IfOk result (λ s. IsSurveyed (rows graph.now) top (state_of s)) }
    ensures refused { IfErr result (λ e. IsUnsound (rows graph.now) top e) }
{
    let found = search_from(alloc, graph, top)?;
    if number_at(&found.steps, graph.len()) > 0 {
        return Err(FlattenError::MissingCell);
    }
    if found.cyclic {
        return Err(FlattenError::Cycle);
    }
    if is_too_deep(alloc, graph, &found.order, top)? {
        return Err(FlattenError::TooDeep);
    }
    Ok(found)
}
