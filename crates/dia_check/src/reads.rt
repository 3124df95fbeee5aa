// The reads of tasks, with their links and their lines.

ghost use Rattle.std.specs.Prelude.{◌≡◌, ◌+◌, ◌<◌, ◌≤◌, ◌^◌, ◌++◌, List as Items, Some, true, length, map, slice_get, take, IfOk, OnOk};
ghost use Rattle.std.specs.List.{flat_map};
ghost use Rattle.std.specs.Option.{option_to_list};
ghost use Rattle.dbp_plan.specs.declared.diagram.Link.{Link as AnyLink};
ghost use Rattle.dbp_plan.specs.declared.limits.TheConstants.{MAX_BODY};
ghost use Rattle.dia_check.specs.Diagrams.{firsts, link_number, link_of, links_of, links_used, read_of};
ghost use Rattle.dia_check.specs.Scopes.{HasFaultlessParts, IsKnownRead};
ghost use Rattle.dia_check.specs.Shapes.{body_read_lines};

use crate::links::number_of;
use crate::ports::port_index;
use crate::shaped::ReadLine;
use dbp_plan::{Link, List, NoMemory, Read};
use dia_lines::Part;
use dia_read::{Body, RawTask};
use std::alloc::Global;

// The links over which tasks read, and their `read` lines.
#[derive(Drop)]
pub(crate) struct ReadLinks {
    pub(crate) links: List<Link>,
    pub(crate) lines: List<ReadLine>,
}

// The read of this line of the reader's body. Its link is added if it isn't there, and so is the line.
fn read_of(
    body: &Body,
    found: &mut ReadLinks,
    reader: u32,
    part: &Part,
    line: u32,
) -> Result<Option<Read>, NoMemory>
    requires known { IsKnownRead body.now.tasks part.now }
    requires links { length found.old.links + 1 < 2 ^ 32 }
    requires lines { length found.old.lines + 1 < 2 ^ 32 }
    ensures read { IfOk result (λ read. (used more : Items AnyLink)
        → found.old.links ≡ firsts used
        → links_used body.now.tasks 0 body.now.tasks ≡ (used ++ link_of body.now.tasks reader part.now) ++ more
        → option_to_list read ≡ read_of body.now.tasks reader part.now) }
    ensures links { OnOk result ((used : Items AnyLink) → found.old.links ≡ firsts used
        → found.new.links ≡ firsts (used ++ link_of body.now.tasks reader part.now)) }
    ensures lines { OnOk result ((used more : Items AnyLink)
        → found.old.links ≡ firsts used
        → links_used body.now.tasks 0 body.now.tasks ≡ (used ++ link_of body.now.tasks reader part.now) ++ more
        → found.new.lines ≡ found.old.lines
        ++ map (λ l. record { line = line; link = link_number (links_of body.now.tasks) l })
        (link_of body.now.tasks reader part.now)) }
    ensures few { OnOk result ((length found.new.links ≤ length found.old.links + 1)
        × (length found.new.lines ≤ length found.old.lines + 1)) }
{
    let Part::Read {
        name,
        delay,
        task,
        port,
        at,
    } = part
    else {
        return Ok(None);
    };
    let Some((writer, port)) = port_index(&body.tasks, task, port) else {
        unreachable!()
    };
    let link = Link {
        writer,
        reader,
        delay: *delay,
    };
    let link = number_of(&mut found.links, link)?;
    found.lines.push(ReadLine { line, link })?;
    Ok(Some(Read {
        name: *name,
        link,
        port,
        at: *at,
    }))
}

// The reads of the task with this number, of which no line has a fault. The links of its `read` lines that aren't there
// are added, and so are the lines. The lines of its body have the first of these numbers.
pub(crate) fn reads_of(
    alloc: Global,
    body: &Body,
    found: &mut ReadLinks,
    reader: u32,
    raw: &RawTask,
    lines: &[u32],
) -> Result<List<Read>, NoMemory>
    requires at { slice_get body.now.tasks reader ≡ Some raw.now }
    requires faultless { HasFaultlessParts body.now raw.now }
    requires lines { length raw.now.parts ≤ length lines.now }
    requires few { length raw.now.parts ≤ MAX_BODY }
    requires links { found.old.links
        ≡ firsts (links_used body.now.tasks 0 (take reader body.now.tasks)) }
    requires links_room { length found.old.links + length raw.now.parts < 2 ^ 32 }
    requires lines_room { length found.old.lines + length raw.now.parts < 2 ^ 32 }
    ensures reads { IfOk result
        (λ reads. reads ≡ flat_map (read_of body.now.tasks reader) raw.now.parts) }
    ensures links { OnOk result
        (found.new.links ≡ firsts
        (links_used body.now.tasks 0 (take (reader + 1) body.now.tasks))) }
    ensures lines { OnOk result (found.new.lines ≡ found.old.lines
        ++ body_read_lines body.now.tasks reader raw.now.parts lines.now) }
    ensures few { OnOk result ((length found.new.links
        ≤ length found.old.links + length raw.now.parts)
        × (length found.new.lines ≤ length found.old.lines + length raw.now.parts)) }
{
    let mut reads = List::new(alloc);
    for (place, part) in raw.parts.items().iter().enumerate() {
        if let Some(read) = read_of(body, found, reader, part, lines[place])? {
            reads.push(read)?;
        }
    }
    Ok(reads)
}
