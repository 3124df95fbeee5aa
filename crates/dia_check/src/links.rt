// Links, numbered by the first read line that uses them.

ghost use Rattle.std.specs.Prelude.{◌≡◌, ◌+◌, ◌<◌, ◌≤◌, ◌^◌, ◌++◌, ◌∷◌, [], List as Items, length, IfOk, OnOk, true};
ghost use Rattle.std.specs.List.{list_any};
ghost use Rattle.dbp_plan.specs.declared.diagram.Link.{Link as AnyLink};
ghost use Rattle.dia_check.specs.Diagrams.{firsts, is_same_link, link_number};

use dbp_plan::{Link, List, NoMemory};

fn is_same_link(link: &Link, other: &Link) -> bool
    ensures { result ≡ is_same_link link.now other.now }
{
    link.writer == other.writer && link.reader == other.reader && link.delay == other.delay
}

// The number of the link among these: the first, or their count if it isn't there.
fn link_number(links: &[Link], link: &Link) -> u32
    requires { length links.now < 2 ^ 32 }
    ensures { result ≡ link_number links.now link.now }
{
    links
        .iter()
        .take_while(|other| !is_same_link(other, link))
        .count() as u32
}

// The number of the link among these. A link that isn't there is added.
pub(crate) fn number_of(links: &mut List<Link>, link: Link) -> Result<u32, NoMemory>
    requires { length links.old + 1 < 2 ^ 32 }
    ensures added { OnOk result
        ((used : Items AnyLink) → links.old ≡ firsts used
        → links.new ≡ firsts (used ++ link ∷ [])) }
    ensures there { OnOk result (list_any (λ k. is_same_link k link) links.new ≡ true) }
    ensures number { IfOk result (λ number. number ≡ link_number links.new link) }
    ensures few { OnOk result (length links.new ≤ length links.old + 1) }
{
    let number = link_number(links.items(), &link);
    if number < links.len() {
        return Ok(number);
    }
    links.push(link)?;
    Ok(number)
}
