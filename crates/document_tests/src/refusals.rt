// Refused documents, each with the values of its refusal.

ghost use Rattle.dia_read.specs.Printable.{HasItemLines, IsPrintable};

use dbp_plan::Name;
use dia_check::{CheckCode, CheckFail, ranked, shape};
use dia_read::Doc;
use std::alloc::Global;
use std::fmt::Write;
use std::test::Fail;
use test_inputs::doc_in;

// The line of a refusal with its values: the names of a cycle, or the numbers of a writer and its reader.
fn refusal(alloc: Global, doc: &Doc) -> Result<String, Fail>
    requires printable { IsPrintable doc.now.body }
    requires lines { HasItemLines doc.now }
{
    let found = match shape(alloc, doc) {
        Ok(shaped) => ranked(alloc, shaped).err(),
        Err(fail) => Some(fail),
    };
    match found {
        Some(CheckFail::Refused { line, code }) => values(alloc, line, &code),
        _ => Err(Fail::new("no refusal")),
    }
}

fn push_name(text: &mut String, name: &Name) -> Result<(), Fail> {
    text.push(' ')?;
    for byte in name.bytes() {
        text.push(char::from(*byte))?;
    }
    Ok(())
}

fn push_names(text: &mut String, names: &[Name]) -> Result<(), Fail> {
    for name in names {
        push_name(text, name)?;
    }
    Ok(())
}

fn push_values(text: &mut String, code: &CheckCode) -> Result<(), Fail> {
    match code {
        CheckCode::LetCycle { names } => push_names(text, names.items())?,
        CheckCode::UndelayedUpward { writer, reader } => write!(text, " {writer} {reader}")?,
        _ => return Err(Fail::new("no values")),
    }
    Ok(())
}

fn values(alloc: Global, line: u32, code: &CheckCode) -> Result<String, Fail> {
    let mut text = format!(in alloc; "{line}:")?;
    push_values(&mut text, code)?;
    Ok(text)
}

// Documents, and their refusals with these values.
static REFUSED: [(&str, &str); 7] = [
    (
        "dbp 1\npolicy fp\nuntil 9\ntask t every 5 prio 1 cost 3\nlet p = p\nout y = 0 then p\ndone\n",
        "5: p",
    ),
    // after the first task, whose lets have a cycle, stands one with no out
    (
        "dbp 1\npolicy fp\nuntil 9\ntask t every 5 prio 1 cost 3\nlet p = p\nout y = 0 then 1\ntask u every 5 cost 1\ndone\n",
        "5: p",
    ),
    // a cycle from its earliest let on, which isn't the let that leads to it
    (
        "dbp 1\npolicy fp\nuntil 9\ntask t every 5 prio 1 cost 3\nlet o = q\n\nlet p = 1\n# a note\n\nlet q = s + p\nlet r = q\nlet s = r\nout y = 0 then o\ndone\n",
        "10: q s r",
    ),
    // two tasks read each other: the one above reads the one below directly
    (
        "dbp 1\npolicy fp\nuntil 9\ntask a every 5 prio 2 cost 1\nread x = pre b.y\nout y = 0 then x\ntask b every 5 prio 5 cost 1\nread x = a.y\nout y = 0 then x\ndone\n",
        "8: 0 1",
    ),
    (
        "dbp 1\npolicy fp\nuntil 9\ntask a every 5 prio 2 cost 1\nread x = b.y\nout y = 0 then x\ntask b every 5 prio 5 cost 1\nread x = a.y\nout y = 0 then x\ndone\n",
        "8: 0 1",
    ),
    (
        "dbp 1\npolicy edf\nuntil 9\ntask a every 5 deadline 2 cost 1\nread x = b.y\nout y = 0 then x\ntask b every 5 deadline 5 cost 1\nread x = pre a.y\nout y = 0 then x\ndone\n",
        "5: 1 0",
    ),
    (
        "dbp 1\npolicy fp\nuntil 9\ntask a every 5 prio 4 cost 1\nread x = b.y\nout y = 0 then x\ntask b every 5 prio 4 cost 1\nread x = pre a.y\nout y = 0 then x\ndone\n",
        "5: 1 0",
    ),
];

fn refusal_of_text(alloc: Global, text: &str) -> Result<String, Fail> {
    let doc = doc_in(alloc, text.as_bytes())?;
    refusal(alloc, &doc)
}

#[test]
fn refusals_have_their_values(rt: HostRuntime) -> Result<(), Fail> {
    for (text, want) in &REFUSED {
        assert_eq!(rt; refusal_of_text(rt.alloc(), *text)?.as_str(), *want);
    }
    Ok(())
}
