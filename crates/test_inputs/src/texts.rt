// Documents as texts.

/// Task b reads a. The last line is `done`.
pub const TWO_RATES: &str = "dbp 1
policy fp
until 6
task a every 2 from 0 prio 2 cost 1
  state n = 0
  next n = n + 1
  out y = 0 then n + 1
task b every 3 from 0 prio 1 cost 2
  read x = a.y
  out z = 0 then x * 10
done
";

/// A third task, ranked above the others, reads a through a delay.
pub const THREE_RATES: &str = "dbp 1
policy fp
until 6
task a every 2 from 0 prio 2 cost 1
  state n = 0
  next n = n + 1
  out y = 0 then n + 1
task b every 3 from 0 prio 1 cost 2
  read x = a.y
  out z = 0 then x * 10
task h every 1 prio 3 cost 1
  read x = pre a.y
  out w = -1 then x
done
";

/// One of these documents. A table of tests names it, since each byte of a text in a table is a step of a proof.
pub enum Document {
    TwoRates,
    ThreeRates,
}

impl Document {
    /// Its text.
    pub fn text(&self) -> &'static str {
        match self {
            Document::TwoRates => TWO_RATES,
            Document::ThreeRates => THREE_RATES,
        }
    }
}
