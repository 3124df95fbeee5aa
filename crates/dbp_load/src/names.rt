// The names of a generated document.

ghost use Rattle.std.specs.Prelude.{◌≡◌, ◌<◌, ◌∷◌, decimal};
ghost use Rattle.dbp_plan.specs.Name.{IsName};
ghost use Rattle.dbp_load.specs.Bodies.{task_name, read_name};

use dbp_plan::Name;

// The name with these bytes.
pub(crate) fn name(bytes: &[u8]) -> Name
    requires { IsName bytes.now }
    ensures { result ≡ bytes.now }
{
    match Name::of(bytes) {
        Some(name) => name,
        None => unreachable!(),
    }
}

// The letter, and the number after it.
fn numbered(letter: u8, number: u32) -> Name
    requires name { IsName (letter ∷ decimal number) }
    requires number { number < 100 }
    ensures { result ≡ letter ∷ decimal number }
{
    let units = b'0' + (number % 10) as u8;
    if number < 10 {
        name(&[letter, units])
    } else {
        name(&[letter, b'0' + (number / 10) as u8, units])
    }
}

// The name of the task with the number.
pub(crate) fn task_name(number: u32) -> Name
    requires { number < 100 }
    ensures { result ≡ task_name number }
{
    numbered(b't', number)
}

// The name of the read with the number, of a task before its reader.
pub(crate) fn read_name(number: u32) -> Name
    requires { number < 10 }
    ensures { result ≡ read_name number }
{
    name(&[b'r', b'0' + number as u8])
}
