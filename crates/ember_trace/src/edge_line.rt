// The line of an edge of a triangle, seen along an axis.
ghost use Rattle.ember_algebra.specs.Size.{Small};
ghost use Rattle.ember_trace.specs.LineSizes.{most_step, most_edge};

/// The line of the points (p, q) at which `dq p - dp q - d` is 0: it leads along (dp, dq). Here p
/// and q are the coordinates along two axes.
#[derive(Clone, Copy)]
pub struct EdgeLine {
    pub dq: i64,
    pub dp: i64,
    pub d: i64,
    ghost small_dq: { Small most_step dq },
    ghost small_dp: { Small most_step dp },
    ghost small_d: { Small most_edge d },
}
