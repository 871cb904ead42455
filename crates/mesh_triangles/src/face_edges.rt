// The edges of faces over a stretch of a line, before opposite ones cancel.
//
// If those of a plane cancel, the plane's part goes on across the stretch, and so may its triangles.
// Triangles of two planes that both do so cross each other. Since solid and outside alternate round
// the stretch, two such planes are never alone: faces of a third plane have edges there. So it is
// enough to keep the edges of all planes where there are three.
use crate::fault::TrianglesFault;
use crate::marks::What;
use std::alloc::Global;

// How many edges of a plane's faces run over the stretch, and how many run back over it.
#[derive(Clone, Copy)]
struct PlaneEdges {
    plane: u32,
    over: usize,
    back: usize,
}

impl PlaneEdges {
    fn none(plane: u32) -> PlaneEdges {
        PlaneEdges {
            plane,
            over: 0,
            back: 0,
        }
    }

    fn add(&mut self, is_over: bool) {
        if is_over {
            self.over = self.over.saturating_add(1);
        } else {
            self.back = self.back.saturating_add(1);
        }
    }

    fn remove(&mut self, is_over: bool) {
        if is_over {
            self.over = self.over.saturating_sub(1);
        } else {
            self.back = self.back.saturating_sub(1);
        }
    }

    fn are_some(&self) -> bool {
        self.over > 0 || self.back > 0
    }

    fn cancel(&self) -> bool {
        self.over == self.back
    }
}

/// The edges of faces over a stretch, counted for each plane, in order of planes.
#[derive(Drop)]
pub struct FaceEdges {
    alloc: Global,
    planes: Vec<PlaneEdges>,
}

impl FaceEdges {
    /// No edges.
    pub fn none(alloc: Global) -> FaceEdges {
        FaceEdges {
            alloc,
            planes: Vec::new(alloc),
        }
    }

    /// Removes all edges.
    pub fn clear(&mut self) {
        self.planes.clear();
    }

    /// Goes on past a mark. `is_over` is whether the mark's segment runs over stretches of the
    /// line, and not back over them.
    pub fn pass(&mut self, what: What, is_over: bool) -> Result<(), TrianglesFault> {
        match what {
            What::Start(plane) => self.change(plane, is_over, is_over),
            What::End(plane) => self.change(plane, is_over, !is_over),
            What::Split => Ok(()),
        }
    }

    // Adds an edge of the plane, or removes one.
    fn change(&mut self, plane: u32, is_over: bool, is_added: bool) -> Result<(), TrianglesFault> {
        if is_added {
            self.add(plane, is_over)
        } else {
            self.remove(plane, is_over);
            Ok(())
        }
    }

    fn add(&mut self, plane: u32, is_over: bool) -> Result<(), TrianglesFault> {
        let place = self.planes.partition_point(|p| p.plane < plane);
        if let Some(edges) = self.planes.get_mut(place)
            && edges.plane == plane
        {
            edges.add(is_over);
            return Ok(());
        }
        let mut edges = PlaneEdges::none(plane);
        edges.add(is_over);
        self.planes.insert(place, edges)?;
        Ok(())
    }

    fn remove(&mut self, plane: u32, is_over: bool) {
        let place = self.planes.partition_point(|p| p.plane < plane);
        if let Some(edges) = self.planes.get_mut(place)
            && edges.plane == plane
        {
            edges.remove(is_over);
        }
    }

    /// Drops the counts of planes that have no edge any more.
    pub fn tidy(&mut self) {
        self.planes.retain(|edges| edges.are_some());
    }

    /// The planes that keep a pair of opposite edges over the stretch: those whose edges cancel,
    /// if three or more planes have edges there.
    pub fn pairs(&self) -> Result<Vec<u32>, TrianglesFault> {
        let mut pairs = Vec::new(self.alloc);
        let count = self.planes.iter().filter(|edges| edges.are_some()).count();
        if count < 3 {
            return Ok(pairs);
        }
        for edges in &self.planes {
            if edges.are_some() && edges.cancel() {
                pairs.push(edges.plane)?;
            }
        }
        Ok(pairs)
    }
}
