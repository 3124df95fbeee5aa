// The list of the releaser's actions.
ghost use Rattle.std.specs.Prelude.{◌≡◌, ◌+◌, ◌*◌, ◌<◌, ◌≤◌, ◌^◌, ◌++◌, All, IfOk, OnOk, length, map};
ghost use Rattle.release_list.specs.Releases.{claims_by_task, claims_into, claims_of, releases_at, releases_of};
ghost use Rattle.release_list.specs.declared.release.Release.TheVariants.{Aim, OpenGate};

use dbp_plan::{Batch, Link, List, NoMemory, Plan};
use std::alloc::Global;

/// One action of the releaser. A diagram has so few tasks and links that a byte takes their numbers.
#[derive(Clone, Copy, Debug, PartialEq, Eq)]
pub enum Release {
    /// The task's next instance is given the slot that it is to fill.
    Aim { task: u8 },
    /// The link's reader is given the slot that its next instance is to read.
    Claim { link: u8 },
    /// The gate of the task's next instance is opened.
    OpenGate { task: u8 },
}

const _: () = prove!(size_of::<Release>() == 2);

/// The releaser's actions of the whole plan, in order. For each batch it aims each task, then claims each link into
/// each task, then opens each task's gate.
pub fn releases(alloc: Global, plan: &Plan) -> Result<List<Release>, NoMemory>
    ensures { IfOk result (λ list. list ≡ releases_of plan.now.diagram.links plan.now.batches) }
{
    let links = &plan.diagram.links;
    let claims = claims_by_task(alloc, links, plan.diagram.tasks.len())?;
    let mut list = List::new(alloc);
    for batch in plan.batches.items() {
        push_batch(&mut list, links, claims.items(), batch)?;
    }
    Ok(list)
}

// The claims for an instance of each of so many tasks. So no batch looks at all links.
fn claims_by_task(
    alloc: Global,
    links: &List<Link>,
    tasks: u32,
) -> Result<List<List<Release>>, NoMemory>
    requires { length links.now ≤ 2 ^ 8 }
    ensures { IfOk result (λ claims. claims ≡ claims_by_task links.now tasks) }
{
    let mut claims = List::new(alloc);
    for task in 0..tasks {
        claims.push(task_claims(alloc, links, task)?)?;
    }
    Ok(claims)
}

// A claim of each link into the task.
fn task_claims(alloc: Global, links: &List<Link>, task: u32) -> Result<List<Release>, NoMemory>
    requires { length links.now ≤ 2 ^ 8 }
    ensures { IfOk result (λ claims. claims ≡ claims_into links.now task) }
{
    let mut claims = List::new(alloc);
    for link in 0..links.len() {
        if links.items()[link as usize].reader == task {
            claims.push(Release::Claim { link: link as u8 })?;
        }
    }
    Ok(claims)
}

#[tactic(auto, using(crate::proofs::Room::claims_few, std::proofs::lemmas::Grind::common_steps))]
fn push_batch(
    list: &mut List<Release>,
    links: &List<Link>,
    claims: &[List<Release>],
    batch: &Batch,
) -> Result<(), NoMemory>
    requires claims { claims.now ≡ claims_by_task links.now (length claims.now) }
    requires named { All (λ i. i < length claims.now) batch.now.tasks }
    requires few { length claims.now ≤ 2 ^ 8 }
    requires room { length list.old + length batch.now.tasks * (length links.now + 2) < 2 ^ 32 }
    ensures { OnOk result (list.new ≡ list.old ++ releases_at links.now batch.now) }
{
    let tasks = batch.tasks.items();
    push_aims(list, tasks)?;
    push_claims(list, links, claims, tasks)?;
    push_opens(list, tasks)
}

fn push_aims(list: &mut List<Release>, tasks: &[u32]) -> Result<(), NoMemory>
    requires tasks { All (λ i. i < 2 ^ 8) tasks.now }
    requires room { length list.old + length tasks.now < 2 ^ 32 }
    ensures { OnOk result (list.new ≡ list.old ++ map Aim tasks.now) }
{
    for task in tasks {
        list.push(Release::Aim { task: *task as u8 })?;
    }
    Ok(())
}

fn push_claims(
    list: &mut List<Release>,
    links: &List<Link>,
    claims: &[List<Release>],
    tasks: &[u32],
) -> Result<(), NoMemory>
    requires claims { claims.now ≡ claims_by_task links.now (length claims.now) }
    requires named { All (λ i. i < length claims.now) tasks.now }
    requires room { length list.old + length tasks.now * length links.now < 2 ^ 32 }
    ensures { OnOk result (list.new ≡ list.old ++ claims_of links.now tasks.now) }
{
    for task in tasks {
        push_claims_into(list, links, claims, *task)?;
    }
    Ok(())
}

// Claims each link into the task.
fn push_claims_into(
    list: &mut List<Release>,
    links: &List<Link>,
    claims: &[List<Release>],
    task: u32,
) -> Result<(), NoMemory>
    requires claims { claims.now ≡ claims_by_task links.now (length claims.now) }
    requires task { task < length claims.now }
    requires room { length list.old + length links.now < 2 ^ 32 }
    ensures { OnOk result (list.new ≡ list.old ++ claims_into links.now task) }
{
    list.extend_from_slice(claims[task as usize].items())
}

fn push_opens(list: &mut List<Release>, tasks: &[u32]) -> Result<(), NoMemory>
    requires tasks { All (λ i. i < 2 ^ 8) tasks.now }
    requires room { length list.old + length tasks.now < 2 ^ 32 }
    ensures { OnOk result (list.new ≡ list.old ++ map OpenGate tasks.now) }
{
    for task in tasks {
        list.push(Release::OpenGate { task: *task as u8 })?;
    }
    Ok(())
}
