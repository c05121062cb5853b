// The own address of the model thermostat.
ghost use Rattle.std.specs.Prelude.{◌≡◌, ◌≤◌, false, MatchOption};
ghost use Rattle.omnistat.specs.Register.{within};

// The own address is 1 to 127.
const FIRST_ADDRESS: u8 = 1;

const LAST_ADDRESS: u8 = 127;

// An own address.
#[derive(Clone, Copy)]
pub(crate) struct Address {
    pub(crate) number: u8,
    ghost in_range: { (1 ≤ number) × (number ≤ 127) },
}

impl Address {
    // The address with this number, if it is one.
    pub(crate) fn new(number: u8) -> Option<Address>
        ensures { MatchOption result (within 1 127 number ≡ false) (λ a. a.number ≡ number) }
    {
        if number < FIRST_ADDRESS || LAST_ADDRESS < number {
            return None;
        }
        Some(Address { number })
    }
}
