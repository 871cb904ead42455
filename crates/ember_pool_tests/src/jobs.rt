// A step whose every job is a leaf with its path.
ghost use Rattle.std.specs.Prelude.{◌≡◌, IfOk};
ghost use Rattle.ember_job.specs.Works.{Answers, leafed};

use ember_box::root;
use ember_job::{Job, Numbers, OneItem, Outcome, Step, Work};
use ember_model::{OutOfMemory, Vector};
use std::test::Fail;

#[derive(Drop)]
struct Leaves {}

impl Work for Leaves {
    ghost use Rattle.std.specs.Prelude.{◌≡◌, ⊤};
    ghost use Rattle.std.proofs.Common.{sym, ap, true≢false};
    ghost use Rattle.ember_job.specs.Works.{leafed, is_halved};

    type Item = u64;

    ghost valid = { λ _ _. ⊤ };

    ghost shape = { λ _ _. leafed };

    ghost item = { λ _ job path. path ≡ job.cell.path };

    ghost halves_valid = { λ _ _ _ _ _ _. (tt, tt) };

    ghost halves_split = { λ _ _ _ _ _ e. absurd (true≢false (sym (ap is_halved e))) };
}

impl OneItem for Leaves {
    ghost use Rattle.std.proofs.Common.{◌∙◌, sym};

    ghost one_item = { λ _ _ _ _ one other. one ∙ sym other };
}

#[test]
fn a_step_answers_its_job(rt: HostRuntime) -> Result<(), Fail> {
    let alloc = rt.alloc();
    let step = Step::new(
        Leaves {},
        |job: &Job| -> Result<Outcome<u64>, OutOfMemory>
            ensures { IfOk result (λ o. Answers (λ _. leafed) (λ j path. path ≡ j.cell.path) job.now o) }
        { Ok(Outcome::Leaf(job.cell.path())) },
    );
    let job = Job {
        cell: root(),
        list: Numbers::of(Vec::new(alloc)),
        at: Vector { counts: [0; 64] },
    };
    let is_path = matches!(step.go(&job)?, Outcome::Leaf(1));
    assert!(rt; is_path);
    Ok(())
}
