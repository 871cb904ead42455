// Chains of corners that the sweep has passed.
use crate::sorted_boundary::{BoundaryCorner, turns_left};
use crate::stop::Stop;
use std::alloc::Global;
use std::collections::VecDeque;

/// The left side of what isn't cut yet between a floor and its ceiling: the places of its corners
/// from the floor up. It bends only to the left, so the places rise up to the peak and fall after
/// it.
#[derive(Drop)]
pub struct ReflexChain {
    places: VecDeque<usize>,
}

impl ReflexChain {
    /// The chain of one corner, by the index of its place.
    pub fn of(alloc: Global, place: usize) -> Result<ReflexChain, Stop> {
        let mut places = VecDeque::new(alloc);
        places.push_back(place)?;
        Ok(ReflexChain { places })
    }

    // The last two, from the last.
    fn upper_end(&self) -> Option<(usize, usize)> {
        let last = self.places.len().checked_sub(1)?;
        let inner = last.checked_sub(1)?;
        Some((*self.places.get(last)?, *self.places.get(inner)?))
    }

    // The first two, from the first.
    fn lower_end(&self) -> Option<(usize, usize)> {
        Some((*self.places.get(0)?, *self.places.get(1)?))
    }

    /// Appends the right end of the ceiling, and cuts off the triangles that it sees from above.
    pub fn append(
        &mut self,
        places: &[BoundaryCorner],
        triangles: &mut Vec<[usize; 3]>,
        place: usize,
    ) -> Result<(), Stop> {
        for _ in 0..self.places.len() {
            let Some((last, inner)) = self.upper_end() else {
                break;
            };
            if !turns_left(places, inner, place, last) {
                break;
            }
            triangles.push([inner, place, last])?;
            let _ = self.places.pop_back();
        }
        self.places.push_back(place)?;
        Ok(())
    }

    /// Prepends the right end of the floor, and cuts off the triangles that it sees from below.
    pub fn prepend(
        &mut self,
        places: &[BoundaryCorner],
        triangles: &mut Vec<[usize; 3]>,
        place: usize,
    ) -> Result<(), Stop> {
        for _ in 0..self.places.len() {
            let Some((first, inner)) = self.lower_end() else {
                break;
            };
            if !turns_left(places, first, place, inner) {
                break;
            }
            triangles.push([first, place, inner])?;
            let _ = self.places.pop_front();
        }
        self.places.push_front(place)?;
        Ok(())
    }

    /// Cuts off the triangles between the chain and the place where floor and ceiling meet.
    pub fn fan(&self, triangles: &mut Vec<[usize; 3]>, place: usize) -> Result<(), Stop> {
        for i in 1..self.places.len() {
            let (Some(low), Some(high)) = (self.places.get(i - 1), self.places.get(i)) else {
                break;
            };
            triangles.push([*low, place, *high])?;
        }
        Ok(())
    }

    // The index of the place furthest to the right.
    fn peak(&self) -> usize {
        let mut low = 0;
        let mut high = self.places.len().saturating_sub(1);
        'halves: while low < high {
            let middle = low + (high - low) / 2;
            if self.places.get(middle) < self.places.get(middle + 1) {
                low = middle + 1;
            } else {
                high = middle;
            }
        }
        low
    }

    /// The parts below and above the peak, which is in both. The shorter part moves.
    pub fn split(self, alloc: Global) -> Result<(ReflexChain, ReflexChain), Stop> {
        let peak = self.peak();
        let ReflexChain { mut places } = self;
        let top = *places.get(peak).ok_or(Stop::NotFound)?;
        let mut part = VecDeque::new(alloc);
        if peak < places.len() / 2 {
            for _ in 0..peak {
                part.push_back(places.pop_front().ok_or(Stop::NotFound)?)?;
            }
            part.push_back(top)?;
            return Ok((ReflexChain { places: part }, ReflexChain { places }));
        }
        for _ in peak.saturating_add(1)..places.len() {
            part.push_front(places.pop_back().ok_or(Stop::NotFound)?)?;
        }
        part.push_front(top)?;
        Ok((ReflexChain { places }, ReflexChain { places: part }))
    }

    /// This chain and the one above it, which begins where this one ends. The shorter one moves.
    pub fn join(self, above: ReflexChain) -> Result<ReflexChain, Stop> {
        let ReflexChain { places: mut lower } = self;
        let ReflexChain { places: mut upper } = above;
        let _ = upper.pop_front();
        if lower.len() < upper.len() {
            'below: while let Some(place) = lower.pop_back() {
                upper.push_front(place)?;
            }
            return Ok(ReflexChain { places: upper });
        }
        'above: while let Some(place) = upper.pop_front() {
            lower.push_back(place)?;
        }
        Ok(ReflexChain { places: lower })
    }
}
