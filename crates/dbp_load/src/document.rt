// The generated document.

ghost use Rattle.std.specs.Prelude.{◌≡◌, ◌≤◌, ◌∷◌, [], pos, codes, length, IfOk};
ghost use Rattle.dia_lines.specs.declared.item.Decl.TheVariants.{Input};
ghost use Rattle.dbp_plan.specs.declared.limits.TheConstants.{MAX_TEXT};
ghost use Rattle.dbp_plan.specs.declared.plan.Plan.{Plan as AnyPlan};
ghost use Rattle.trace_io.specs.Texts.{Accepts};
ghost use Rattle.dbp_load.specs.Bodies.{generated_body};
ghost use Rattle.dbp_load.specs.Texts.{generated_text};

use crate::laws::generated_documents_are_accepted;
use crate::names::name;
use crate::section::trace_text;
use crate::tasks::generated_tasks;
use dbp_plan::{List, NoMemory, Policy};
use dia_read::{Body, Decl, print_doc};
use std::alloc::Global;

// The declarations: one input.
fn generated_decls(alloc: Global) -> Result<List<Decl>, NoMemory>
    ensures { IfOk result (λ decls. decls ≡ Input (codes "g") (pos 1) ∷ []) }
{
    let mut decls = List::new(alloc);
    decls.push(Decl::Input(name(b"g"), 1))?;
    Ok(decls)
}

// What the document says.
fn generated_body(alloc: Global, seed: u64, size: u32) -> Result<Body, NoMemory>
    requires { size ≤ 32 }
    ensures { IfOk result (λ body. body ≡ generated_body seed size) }
{
    Ok(Body {
        version: 1,
        policy: Policy::Fp,
        until: 500 * u64::from(size),
        decls: generated_decls(alloc)?,
        tasks: generated_tasks(alloc, seed, size)?,
        trace: Some(trace_text(alloc, size)?),
        script: None,
    })
}

/// The text of the generated document of the seed and the size, which is from 1 to 32: so many tasks, which sense one
/// input, count their instances, and read up to three tasks before them directly and one after them with a delay. Which
/// tasks they read, and how often they occur, is drawn from the seed by SplitMix64. docs/LANGUAGE.md has the document.
pub fn generate(alloc: Global, seed: u64, size: u32) -> Result<Vec<u8>, NoMemory>
    requires { (1 ≤ size) × (size ≤ 32) }
    // The canonical text of the generated document.
    ensures text { IfOk result (λ text. text.items ≡ generated_text seed size) }
    // It isn't too long to be read.
    ensures fits { IfOk result (λ text. length text.items ≤ MAX_TEXT) }
    // It is accepted.
    ensures accepted { IfOk result (λ text. (plan : AnyPlan) × Accepts text.items plan) }
{
    generated_documents_are_accepted();
    let body = generated_body(alloc, seed, size)?;
    print_doc(alloc, &body)
}
