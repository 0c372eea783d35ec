//! What every sweep over rising lists needs: where it ends, and how it goes on.
ghost use Rattle.std.specs.Prelude.{◌≡◌, ◌<◌, ◌^◌};
ghost use Rattle.fill_spans.specs.Spans.{next_edge};
ghost use Rattle.fill_spans.specs.Sweep.{Passed};

/// Stands for the next edge where there is none: above every coordinate.
pub const CEILING: i32 = 1_073_741_825;

/// The place after the one at `k`, where its edge `next` is where the sweep has come to, `at`.
pub fn passed(k: usize, next: i32, at: i32) -> usize
    requires { k < 2 ^ 63 }
    ensures { Passed k next at result }
{
    if next == at { k + 1 } else { k }
}

/// The edge at `k`, or the ceiling past the last one.
pub fn edge_at(edges: &[i32], k: usize) -> i32
    ensures { result ≡ next_edge edges.now k }
{
    if k < edges.len() { edges[k] } else { CEILING }
}
