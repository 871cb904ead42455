// What one worker or one caller has ended.
use ember_job::Entry;
use ember_tree::Part;

/// The boxes that were ended (the journal), and the items of the leaves among them (the parts).
#[derive(Drop)]
pub struct Output<I> {
    pub journal: Vec<Entry>,
    pub parts: Vec<Part<I>>,
}
