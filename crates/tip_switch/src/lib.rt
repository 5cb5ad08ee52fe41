// The tip switch of a sample point, S: how its state is stored (7.4.2, as decided: docs/DECISIONS.md).
#![tactic(auto)]

ghost use Rattle.std.specs.Prelude.{◌≡◌};
ghost use Rattle.tip_switch.specs.Switch.{state_of, state_if, byte_if};

// The state that a byte of S stands for where it is admitted, which `state_of` says: a byte that was judged is not asked again.
pub fn state(byte: u8) -> i32
    ensures { result ≡ state_of byte }
{
    byte as i32
}

// The state of the tip switch that a byte of a sample point stands for (7.4.2, as decided).
pub fn state_of(byte: u8) -> Option<i32>
    ensures { result ≡ state_if byte }
{
    if 1 < byte {
        return None;
    }
    Some(state(byte))
}

// The byte of a sample point for a state of the tip switch.
pub fn byte_of(state: i32) -> Option<u16>
    ensures { result ≡ byte_if state }
{
    if state < 0 {
        return None;
    }
    if 2 <= state {
        return None;
    }
    Some(state as u16)
}
