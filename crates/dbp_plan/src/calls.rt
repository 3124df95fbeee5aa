// The calls of a source or sink in memory.

ghost use Rattle.std.specs.Prelude.{◌≡◌};
ghost use Rattle.dbp_plan.specs.Numbers.{is_in};

// Whether the call with this number is to fail.
pub(crate) fn fails_at(fail: &[u32], call: u64) -> bool
    ensures { result ≡ is_in fail.now call }
{
    fail.iter().any(|named| u64::from(*named) == call)
}
