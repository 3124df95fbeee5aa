// Where a reader of a document stands, and how many lines of each kind it has read.

ghost use Rattle.std.specs.Prelude.{◌≡◌};
ghost use Rattle.dia_lines.specs.Counting.{one_more as next_count};

use crate::place::Place;
use crate::{Decl, Limit, Line, Part};
use dbp_plan::{MAX_BODY, MAX_EVENTS, MAX_INPUTS, MAX_OUTS, MAX_READ_LINES, MAX_READS, MAX_TASKS};

/// How many lines of each kind that has a limit have been read.
#[derive(Clone, Copy)]
pub struct Counts {
    pub inputs: u32,
    pub events: u32,
    pub tasks: u32,
    /// `read` lines of the document.
    pub links: u32,
    /// Body lines of the latest task.
    pub body: u32,
    /// `read` lines of the latest task.
    pub reads: u32,
    /// `out` lines of the latest task.
    pub outs: u32,
}

/// Where a reader of a document stands: what the lines before say of the next one.
#[derive(Clone, Copy)]
pub struct Position {
    /// The version that the header names, and 1 before it.
    pub version: u32,
    pub place: Place,
    pub counts: Counts,
}

impl Position {
    ghost use Rattle.std.specs.Prelude.{[], ◌↔◌, IsTrue};
    ghost use Rattle.dia_lines.specs.declared.place.Place.TheVariants.{Ended};
    ghost use Rattle.dia_lines.specs.Positions.{IsAfter};

    /// The position before the first line.
    pub fn start() -> Position
        ensures { IsAfter [] result }
    {
        Position {
            version: 1,
            place: Place::Header,
            counts: Counts {
                inputs: 0,
                events: 0,
                tasks: 0,
                links: 0,
                body: 0,
                reads: 0,
                outs: 0,
            },
        }
    }

    /// Whether `done` was read.
    pub fn is_ended(&self) -> bool
        ensures { IsTrue result ↔ (self.now.place ≡ Ended) }
    {
        matches!(self.place, Place::Ended)
    }
}

impl Counts {
    ghost use Rattle.dia_lines.specs.Counting.{with_part as counts_with_part, with_line as counts_with_line};

    fn with_part(self, part: &Part) -> Result<Counts, Limit>
        ensures { result ≡ counts_with_part self part.now }
    {
        let body = one_more(self.body, MAX_BODY, Limit::Body)?;
        match part {
            Part::Read { .. } => {
                let reads = one_more(self.reads, MAX_READS, Limit::Reads)?;
                let links = one_more(self.links, MAX_READ_LINES, Limit::Links)?;
                Ok(Counts {
                    body,
                    reads,
                    links,
                    ..self
                })
            }
            Part::Out(..) => {
                let outs = one_more(self.outs, MAX_OUTS, Limit::Outs)?;
                Ok(Counts { body, outs, ..self })
            }
            _ => Ok(Counts { body, ..self }),
        }
    }

    // The counts after the line, or the first limit that it is one past.
    pub(crate) fn with_line(self, line: &Line) -> Result<Counts, Limit>
        ensures { result ≡ counts_with_line self line.now }
    {
        match line {
            Line::Decl(Decl::Input(..)) => {
                let inputs = one_more(self.inputs, MAX_INPUTS, Limit::Inputs)?;
                Ok(Counts { inputs, ..self })
            }
            Line::Decl(Decl::Event(_)) => {
                let events = one_more(self.events, MAX_EVENTS, Limit::Events)?;
                Ok(Counts { events, ..self })
            }
            Line::Task(_) => {
                let tasks = one_more(self.tasks, MAX_TASKS, Limit::Tasks)?;
                Ok(Counts {
                    tasks,
                    body: 0,
                    reads: 0,
                    outs: 0,
                    ..self
                })
            }
            Line::Part(part) => self.with_part(part),
            _ => Ok(self),
        }
    }
}

// One more of a kind, of which there may be so many.
fn one_more(count: u32, most: u32, limit: Limit) -> Result<u32, Limit>
    ensures { result ≡ next_count count most limit }
{
    if count < most {
        Ok(count + 1)
    } else {
        Err(limit)
    }
}
