// The solid of an expression over a scene: its document, and the report.
ghost use Rattle.std.specs.Prelude.{◌≡◌, IfOk};
ghost use Rattle.std.specs.List.{sum};
ghost use Rattle.ember_expr.specs.Formula.{formula_of};
ghost use Rattle.ember_meaning.specs.Regions.Solids.{IsSolidReport, IsSolidText};
ghost use Rattle.ember_query.specs.Queries.{IsExecutor};

use crate::query::{Answer, Query, query_counts, query_texts};
use ember_expr::Expr;
use ember_model::{OutOfMemory, Scene};
use ember_report::{Report, report_of};
use ember_step::{leaf_texts_join, visited_leaves_write_all};
use ember_text::{document_of, face_count};
use std::alloc::{AllocError, Global};

/// The document, which is the face file of the written regions, and the report.
#[derive(Drop)]
pub struct SolidDocument {
    pub text: Vec<u8>,
    pub report: Report,
}

/// The solid of an expression over a scene. The text of a leaf is made when the leaf is run. The
/// only error is out-of-memory.
pub fn solid_of<C: Fn(&Query) -> Result<Answer, OutOfMemory>>(
    alloc: Global,
    scene: &Scene,
    expr: &Expr,
    executor: &C,
) -> Result<SolidDocument, OutOfMemory>
    requires { IsExecutor C.pre C.post executor.now }
    ensures text { IfOk result (λ solid. IsSolidText scene.now.tris (formula_of expr.now) solid.text.items) }
    ensures report { IfOk result (λ solid. IsSolidReport scene.now.tris (formula_of expr.now) solid.report) }
{
    let found = query_texts(scene, expr, executor)?;
    let journals = found.journals;
    let faces = face_count(&found.items)?;
    // `report_of` requires fewer than 2^64 entries: no tree of boxes is so large (the lemma
    // `journals_fit` in proofs/SolidRuns.antt).
    let report = report_of(&journals, faces);
    // A law, which does nothing: the texts, one after another, are the text of the written regions.
    leaf_texts_join(scene, expr);
    let text = document_of(alloc, found.items)?;
    Ok(SolidDocument { text, report })
}

// The sum of the numbers. An overflow of 64 bits would be reported as out-of-memory.
fn total(counts: &[u64]) -> Result<u64, OutOfMemory>
    ensures { IfOk result (λ all. all ≡ sum counts.now) }
{
    let mut all = 0u64;
    let mut rest = counts;
    while let Some((count, more)) = rest.split_first() {
        let Some(next) = all.checked_add(*count) else {
            return Err(AllocError);
        };
        all = next;
        rest = more;
    }
    Ok(all)
}

/// The report of the solid of an expression over a scene. The written regions are counted leaf by
/// leaf and not kept. The only error is out-of-memory.
pub fn report_of_solid<C: Fn(&Query) -> Result<Answer, OutOfMemory>>(
    scene: &Scene,
    expr: &Expr,
    executor: &C,
) -> Result<Report, OutOfMemory>
    requires { IsExecutor C.pre C.post executor.now }
    ensures { IfOk result (λ report. IsSolidReport scene.now.tris (formula_of expr.now) report) }
{
    let found = query_counts(scene, expr, executor)?;
    let faces = total(&found.items)?;
    // A law, which does nothing: the visited leaves write all written regions.
    visited_leaves_write_all(scene, expr);
    // As in `solid_of`, `journals_fit` says that there are fewer than 2^64 entries.
    Ok(report_of(&found.journals, faces))
}
