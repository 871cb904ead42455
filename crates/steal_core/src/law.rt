// The laws of the core.
ghost use Rattle.std.specs.Prelude.{◌≡◌, ◌+◌, ◌*◌, ◌<◌, ℕ, List};
ghost use Rattle.steal_core.specs.declared.place.Event.{Event};
ghost use Rattle.steal_core.specs.Core.{Core, Reached, IsGood, AllEnded, ended_times};
ghost use Rattle.steal_core.specs.Runs.{Tree, Rules, IsRun};

/// After every list of events from the start, no box is in two places, each box but box 1 has an
/// ended parent, and a box exists exactly if its sibling does.
pub fn every_list_of_events()
    ensures { (workers room : ℕ) (events : List Event) (core : Core) → Reached workers room events core → IsGood core }
{}

/// Once all hands and deques are empty, both halves of an ended box have ended, or neither has.
pub fn ended_boxes_come_in_pairs()
    ensures { (workers room : ℕ) (events : List Event) (core : Core) → Reached workers room events core →
        AllEnded core.boxes → (path : ℕ) → 0 < path →
        ended_times (2 * path) core.boxes ≡ ended_times (2 * path + 1) core.boxes }
{}

/// Journals of a tree of boxes are a run of the core if box 1 is in worker 0's journal, each left
/// half is in the journal of its parent, and each right half of a box in the caller's journal is in
/// the caller's too. `owner` gives each path the number of its journal.
pub fn journals_are_a_run()
    ensures { (workers room : ℕ) (owner : ℕ → ℕ) (tree : Tree) → owner 1 ≡ 0 → Rules workers owner tree 1 →
        IsRun workers room owner tree }
{}
