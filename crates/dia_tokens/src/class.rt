// Which bytes stand in names, numbers and blanks.

ghost use Rattle.std.specs.Prelude.{◌≡◌, ◌&&◌};
ghost use Rattle.dia_tokens.specs.Kinds.{is_name, is_digit, is_blank};

const NAME: u8 = 1;

const DIGIT: u8 = 2;

const BLANK: u8 = 4;

// For each byte a digit, whose low three bits are the flags above.
static CLASSES: [u8; 256] = *b"\
    00000000040000000000000000000000\
    40000000000000003333333333000000\
    01111111111111111111111111100001\
    01111111111111111111111111100000\
    00000000000000000000000000000000\
    00000000000000000000000000000000\
    00000000000000000000000000000000\
    00000000000000000000000000000000";

pub(crate) fn is_name_byte(byte: u8) -> bool
    ensures { result ≡ is_name byte }
{
    CLASSES[byte as usize] & NAME != 0
}

pub(crate) fn is_digit_byte(byte: u8) -> bool
    ensures { result ≡ is_digit byte }
{
    CLASSES[byte as usize] & DIGIT != 0
}

pub(crate) fn is_blank_byte(byte: u8) -> bool
    ensures { result ≡ is_blank byte }
{
    CLASSES[byte as usize] & BLANK != 0
}
