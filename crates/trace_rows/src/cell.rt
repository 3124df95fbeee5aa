// The forms of cells.

ghost use Rattle.std.specs.Prelude.{◌≡◌, ◌-◌, ◌<◌, ◌≤◌, ◌^◌, ◌&&◌, length, nat_le, IfSome, MatchOption, true, false};
ghost use Rattle.std.specs.List.{list_all};
ghost use Rattle.dia_tokens.specs.Kinds.{is_digit};
ghost use Rattle.dia_tokens.specs.Values.{digits_value};
ghost use Rattle.trace_rows.specs.Cells.{are_digits, cell_fits, is_time, value_in};
ghost use Rattle.trace_rows.specs.declared.cell.Kind.TheVariants.{Mark, Value};
ghost use Rattle.trace_rows.specs.declared.cell.TheConstants.{FEW_DIGITS};
ghost use Rattle.trace_rows.specs.Columns.{negative_in, positive_in, content_in};

/// What a column holds.
#[derive(Clone, Copy, Debug, PartialEq, Eq)]
pub enum Kind {
    /// An input's values.
    Value,
    /// Whether an event occurs.
    Mark,
}

// Whether the byte is a digit.
fn is_digit(byte: u8) -> bool
    ensures { result ≡ is_digit byte }
{
    byte.is_ascii_digit()
}

// The value of the byte, if it is a digit.
fn digit_of(byte: u8) -> Option<u64>
    ensures value { MatchOption result
        (is_digit byte ≡ false)
        (λ digit. (is_digit byte ≡ true) × (digit ≡ byte - 48)) }
    ensures small { IfSome result (λ digit. digit < 10) }
{
    if is_digit(byte) {
        Some(u64::from(byte - b'0'))
    } else {
        None
    }
}

// The most digits of which each number is below 2 ^ 63.
const FEW_DIGITS: usize = 18;

// A tenth of 2 ^ 63: with one more digit a greater number is past 2 ^ 63.
const MAX_TENTH: u64 = 922_337_203_685_477_580;

// The number of a few digits, if they are digits alone.
fn few_digits_number(digits: &[u8]) -> Option<u64>
    requires { length digits.now ≤ FEW_DIGITS }
    ensures { MatchOption result
        (list_all is_digit digits.now ≡ false)
        (λ number. (list_all is_digit digits.now ≡ true) × (number ≡ digits_value digits.now)) }
{
    let mut number = 0;
    for byte in digits {
        number = number * 10 + digit_of(*byte)?;
    }
    Some(number)
}

// The number of the digits, if they are digits alone. It is none if the number is past 2 ^ 63, and may be none from
// there on.
fn many_digits_number(digits: &[u8]) -> Option<u64>
    ensures { MatchOption result
        ((list_all is_digit digits.now && nat_le (digits_value digits.now) (2 ^ 63)) ≡ false)
        (λ number. (list_all is_digit digits.now ≡ true) × (number ≡ digits_value digits.now)) }
{
    let mut number = 0;
    for byte in digits {
        if number > MAX_TENTH {
            return None;
        }
        number = number * 10 + digit_of(*byte)?;
    }
    Some(number)
}

// The number of the digits, if they are digits alone, at least one. It is none if the number is past 2 ^ 63, and may
// be none from there on.
#[inline(never)]
fn digits_number(digits: &[u8]) -> Option<u64>
    ensures { MatchOption result
        ((are_digits digits.now && nat_le (digits_value digits.now) (2 ^ 63)) ≡ false)
        (λ number. (are_digits digits.now ≡ true) × (number ≡ digits_value digits.now)) }
{
    if digits.is_empty() {
        return None;
    }
    if digits.len() <= FEW_DIGITS {
        few_digits_number(digits)
    } else {
        many_digits_number(digits)
    }
}

// The number of the digits.
fn positive(digits: &[u8]) -> Option<i64>
    ensures { result ≡ positive_in digits.now }
{
    0i64.checked_add_unsigned(digits_number(digits)?)
}

// The number of the digits after a `-`.
fn negative(digits: &[u8]) -> Option<i64>
    ensures { result ≡ negative_in digits.now }
{
    0i64.checked_sub_unsigned(digits_number(digits)?)
}

// The number in the cell, if one stands there.
fn value_in(cell: &[u8]) -> Option<i64>
    ensures { result ≡ value_in cell.now }
{
    match cell.strip_prefix(b"-") {
        Some(digits) => negative(digits),
        None => positive(cell),
    }
}

// The time in the cell, if one stands there.
pub(crate) fn time_in(cell: &[u8]) -> Option<u64>
    ensures { MatchOption result
        (is_time cell.now ≡ false)
        (λ time. (is_time cell.now ≡ true) × (time ≡ digits_value cell.now)) }
{
    let time = digits_number(cell)?;
    if time < 1 << 63 { Some(time) } else { None }
}

// What a cell says.
#[derive(Clone, Copy)]
pub(crate) struct CellContent {
    // The value, in an input's column.
    pub(crate) value: Option<i64>,
    // Whether the cell is `1`, by which an event occurs.
    pub(crate) is_one: bool,
}

// The value in an input's cell, if the cell is of its form: none in an empty one.
fn input_value(cell: &[u8]) -> Option<Option<i64>>
    ensures { MatchOption result
        (cell_fits Value cell.now ≡ false)
        (λ value. (cell_fits Value cell.now ≡ true) × (value ≡ value_in cell.now)) }
{
    if cell.is_empty() {
        return Some(None);
    }
    let value = value_in(cell);
    if value.is_some() { Some(value) } else { None }
}

// What the cell says in a column of this kind, if it is of the column's form. A mark says no value.
pub(crate) fn content_in(kind: Kind, cell: &[u8]) -> Option<CellContent>
    ensures { MatchOption result
        (cell_fits kind cell.now ≡ false)
        (λ said. (cell_fits kind cell.now ≡ true) × (said ≡ content_in kind cell.now)) }
{
    let is_one = cell == b"1".as_slice();
    let value = match kind {
        Kind::Value => input_value(cell)?,
        Kind::Mark if cell.is_empty() || cell == b"0".as_slice() || is_one => None,
        Kind::Mark => return None,
    };
    Some(CellContent { value, is_one })
}
