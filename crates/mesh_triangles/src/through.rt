// Corners that boundaries run through.
use crate::fault::TrianglesFault;
use crate::split::Split;
use std::alloc::Global;

/// A corner that the boundary of a plane's part runs through along a line.
#[derive(Clone, Copy, Debug, PartialEq, Eq, PartialOrd, Ord)]
pub struct Through {
    pub plane: u32,
    pub corner: u32,
    pub line: u32,
}

/// If the boundary of a plane's part runs through a corner along two or more lines, the splits of
/// these lines at the corner; of all planes and corners.
pub fn crossings(alloc: Global, through: Vec<Through>) -> Result<Vec<Split>, TrianglesFault> {
    let mut sorted = through;
    sorted.sort_unstable();
    let mut splits = Vec::new(alloc);
    for same in sorted.chunk_by(|t, u| t.plane == u.plane && t.corner == u.corner) {
        if same.len() > 1 {
            for t in same {
                splits.push(Split {
                    line: t.line,
                    corner: t.corner,
                })?;
            }
        }
    }
    Ok(splits)
}
