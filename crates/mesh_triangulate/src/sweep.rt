// The sweep of Hertel and Mehlhorn.
ghost use Rattle.std.specs.Prelude.{◌<◌};

use crate::reflex_chain::ReflexChain;
use crate::sorted_boundary::{BoundaryEdge, SortedBoundary, turn_at};
use crate::stop::Stop;
use ember_algebra::Sign;
use std::alloc::Global;

// The state of the sweep: the edges that the line crosses, from below; the chain above each floor
// among them; and the triangles left of the line.
#[derive(Drop)]
struct Sweep<'a> {
    alloc: Global,
    boundary: &'a SortedBoundary,
    status: Vec<usize>,
    chains: Vec<Option<ReflexChain>>,
    triangles: Vec<[usize; 3]>,
}

/// The triangles of the part inside the boundary, by the places of their corners.
pub fn swept(alloc: Global, boundary: &SortedBoundary) -> Result<Vec<[usize; 3]>, Stop> {
    let mut chains = Vec::with_capacity(alloc, boundary.edges.len())?;
    for _ in &boundary.edges {
        chains.push(None)?;
    }
    let mut sweep = Sweep {
        alloc,
        boundary,
        status: Vec::new(alloc),
        chains,
        triangles: Vec::new(alloc),
    };
    for place in 0..boundary.places.len() {
        sweep.pass(place)?;
    }
    Ok(sweep.triangles)
}

impl Sweep<'_> {
    fn edge(&self, number: usize) -> Result<BoundaryEdge, Stop> {
        self.boundary
            .edges
            .get(number)
            .copied()
            .ok_or(Stop::NotFound)
    }

    // Whether the edge with this number is a floor.
    fn is_floor(&self, number: usize) -> bool {
        match self.boundary.edges.get(number) {
            Some(e) => e.is_floor,
            None => false,
        }
    }

    fn take_chain(&mut self, floor: usize) -> Result<ReflexChain, Stop> {
        let slot = self.chains.get_mut(floor).ok_or(Stop::NotFound)?;
        slot.take().ok_or(Stop::NotFound)
    }

    fn put_chain(&mut self, floor: usize, chain: ReflexChain) -> Result<(), Stop> {
        let slot = self.chains.get_mut(floor).ok_or(Stop::NotFound)?;
        *slot = Some(chain);
        Ok(())
    }

    // Whether the edge passes below the place.
    fn is_below(&self, number: usize, place: usize) -> bool {
        match self.boundary.edges.get(number) {
            Some(e) => self.boundary.is_below(e, place),
            None => false,
        }
    }

    // The index after the edges that end at the place; the first of these would be at `first`.
    fn behind_ended(&self, first: usize, place: usize) -> Result<usize, Stop> {
        let mut behind = first;
        let rest = self.status.get(first..).ok_or(Stop::NotFound)?;
        for number in rest {
            let edge = self.edge(*number)?;
            if edge.right == place {
                behind = behind.saturating_add(1);
            } else {
                self.refuse_touch(&edge, place)?;
                break;
            }
        }
        Ok(behind)
    }

    fn refuse_touch(&self, edge: &BoundaryEdge, place: usize) -> Result<(), Stop> {
        match turn_at(&self.boundary.places, edge.left, edge.right, place) {
            Sign::Zero => Err(Stop::Touch),
            Sign::Neg | Sign::Pos => Ok(()),
        }
    }

    // The floor just below the edges from `first` on.
    fn floor_below(&self, first: usize) -> Option<usize> {
        let number = *self.status.get(first.checked_sub(1)?)?;
        self.is_floor(number).then_some(number)
    }

    fn pass(&mut self, place: usize) -> Result<(), Stop> {
        let first = self
            .status
            .partition_point(|number| self.is_below(*number, place));
        let behind = self.behind_ended(first, place)?;
        let floor = self.floor_below(first);
        let above = if first < behind {
            self.end_edges(first, behind, floor, place)?
        } else {
            self.split_chain(floor, place)?
        };
        let (start, end) = self.boundary.edges_from(place);
        if start < end {
            self.start_edges(start, end, above, place)?;
        } else {
            self.join_chains(floor, above)?;
        }
        self.exchange(first, behind, start, end)
    }

    // Ends the edges, and returns the chain above the last of them.
    fn end_edges(
        &mut self,
        first: usize,
        behind: usize,
        floor: Option<usize>,
        place: usize,
    ) -> Result<Option<ReflexChain>, Stop>
        requires { first < behind }
    {
        for i in first + 1..behind {
            let number = *self.status.get(i - 1).ok_or(Stop::NotFound)?;
            if self.is_floor(number) {
                let chain = self.take_chain(number)?;
                chain.fan(&mut self.triangles, place)?;
            }
        }
        if let Some(floor) = floor {
            let mut chain = self.take_chain(floor)?;
            chain.append(&self.boundary.places, &mut self.triangles, place)?;
            self.put_chain(floor, chain)?;
        }
        let last = *self.status.get(behind - 1).ok_or(Stop::NotFound)?;
        if !self.is_floor(last) {
            return Ok(None);
        }
        let mut chain = self.take_chain(last)?;
        chain.prepend(&self.boundary.places, &mut self.triangles, place)?;
        Ok(Some(chain))
    }

    // Splits the chain above the floor at a place where only new edges are, and returns the upper
    // part.
    fn split_chain(
        &mut self,
        floor: Option<usize>,
        place: usize,
    ) -> Result<Option<ReflexChain>, Stop> {
        let Some(floor) = floor else {
            return Ok(None);
        };
        let (mut lower, mut upper) = self.take_chain(floor)?.split(self.alloc)?;
        lower.append(&self.boundary.places, &mut self.triangles, place)?;
        upper.prepend(&self.boundary.places, &mut self.triangles, place)?;
        self.put_chain(floor, lower)?;
        Ok(Some(upper))
    }

    // Starts the edges: the chain `above` belongs to the last one.
    fn start_edges(
        &mut self,
        start: usize,
        end: usize,
        above: Option<ReflexChain>,
        place: usize,
    ) -> Result<(), Stop>
        requires { start < end }
    {
        for number in start..end - 1 {
            if self.is_floor(number) {
                let chain = ReflexChain::of(self.alloc, place)?;
                self.put_chain(number, chain)?;
            }
        }
        if self.is_floor(end - 1) {
            let chain = match above {
                Some(chain) => chain,
                None => ReflexChain::of(self.alloc, place)?,
            };
            self.put_chain(end - 1, chain)?;
        }
        Ok(())
    }

    fn join_chains(
        &mut self,
        floor: Option<usize>,
        above: Option<ReflexChain>,
    ) -> Result<(), Stop> {
        if let Some(floor) = floor
            && let Some(above) = above
        {
            let chain = self.take_chain(floor)?.join(above)?;
            self.put_chain(floor, chain)?;
        }
        Ok(())
    }

    // Replaces the ended edges by the new ones.
    fn exchange(
        &mut self,
        first: usize,
        behind: usize,
        start: usize,
        end: usize,
    ) -> Result<(), Stop> {
        if behind < first || self.status.len() < behind {
            return Err(Stop::NotFound);
        }
        self.status.splice(first..behind, start..end)?;
        Ok(())
    }
}
