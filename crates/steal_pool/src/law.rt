// The laws of a run and of the merge after it.
ghost use Rattle.steal_pool.specs.Laws.{MergedAnswerLeaves, AnswersAreEqual, JournalsAreCoreRuns};

use ember_job::{OneItem, Work};

/// The items of a run's parts, merged, answer the leaves of the visited tree in its order, whatever
/// the number of workers and the schedule.
pub fn merged_items_answer_the_leaves<W: Work>(_work: &W)
    ensures { MergedAnswerLeaves (W.valid _work.now) (W.shape _work.now) (W.item _work.now) }
{}

/// If a job has one answer, items that answer the same jobs are the same items. So the merged
/// items of a run don't depend on the number of workers, nor on the schedule.
pub fn items_that_answer_are_equal<W: OneItem>(_work: &W)
    ensures { AnswersAreEqual (W.item _work.now) }
{}

/// The journals of a run fit the model of steal_core: by the rules of journals (`KeepRules`) there
/// is a list of the model's steps in which each worker, and the caller, ends exactly the boxes of
/// its journal.
pub fn journals_are_a_run_of_the_core<W: Work>(_work: &W)
    ensures { JournalsAreCoreRuns (W.valid _work.now) (W.shape _work.now) }
{}
